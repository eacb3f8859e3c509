//! A list that only grows and exists only in proofs: one owner adds to it, and threads know
//! prefixes of it.
#![tactic(auto)]

mod front;
mod list;
mod name;

pub use front::Front;
pub use list::{EntryFrom, GhostList, Itself, Unnamed};
pub use name::{Companion, ListName};
