//! The active transactions of a charge point (OCPP 1.6, chapters 4.8 and 4.10): at most one at each
//! connector. A StartTransaction begins it; the StopTransaction of its number, or the next start at
//! its connector, ends it. `specs/ActiveTable.antt` defines the effect of a start and of a stop.
#![tactic(auto)]

mod active_table;
mod begin;
mod transaction;

pub use active_table::{ActiveTable, Began};
pub use begin::Begin;
pub use transaction::Transaction;
