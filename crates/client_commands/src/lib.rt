//! The commands that connect to a site as clients: `point`, a simulated charge point, and `status`.
#![tactic(auto)]

mod pointing;
mod status;
mod status_request;
mod status_table;

pub use pointing::run_point;
pub use status::show_status;
