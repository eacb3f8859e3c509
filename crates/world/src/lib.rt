//! The types that sessions are generic in: those of their site, and the stream of their socket.
#![tactic(auto)]

mod shareable;
mod watched;
mod world;

pub use shareable::Shareable;
pub use watched::Watched;
pub use world::{Unrecorded, World};
