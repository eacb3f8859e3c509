//! The profiles that a charge point has installed (OCPP 1.6, chapters 3.13, 5.5 and 5.16): the ones
//! that an install replaces and that a clear removes; the ones that apply to a connector, the
//! highest stack level first; and the rate that prevails. In `profile`, `specs/Changes.antt`
//! defines the changes, and `specs/Candidates.antt` the rows that apply to a connector.
#![tactic(auto)]

mod candidates;
mod changes;
mod in_force;
mod levels;
mod rows;

pub use candidates::Candidates;
pub use in_force::InForce;
pub use rows::{MAX_ROWS, Rows};
