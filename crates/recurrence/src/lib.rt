//! The limit of one profile over time (OCPP 1.6, chapters 3.13 and 7): its value at an instant, and
//! the next instant at which it can change, for all kinds of profile and without memory. In
//! `profile`, `specs/Places.antt` defines these instants, its places.
#![tactic(auto)]

mod next;
mod occurrence;
mod place;
mod places;
mod turns;

pub use next::sooner;
pub use place::{Place, Places};
pub use places::{next_change, rate_at};
