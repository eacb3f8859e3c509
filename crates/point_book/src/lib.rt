//! The state of a charge point in the central system (OCPP 1.6, chapters 3.13, 4.8, 4.10, 5.5 and
//! 5.16): its ceilings, its profiles and its active transactions. A TxProfile is only at a
//! connector with an active transaction. `specs/Changes.antt` defines the effect of each call.
#![tactic(auto)]

mod book;
mod install_laws;
mod refusal;

pub use book::PointBook;
pub use install_laws::installs;
