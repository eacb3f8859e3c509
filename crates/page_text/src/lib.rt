//! Texts that are written piece by piece, for people and as JSON. A failed allocation is kept until
//! the end.
#![tactic(auto)]

mod json_page;
mod page;

pub use json_page::JsonPage;
pub use page::Page;
