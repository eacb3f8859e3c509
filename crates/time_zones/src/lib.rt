//! The clocks of time zones, by the files of the time-zone database (TZif, RFC 9636).
#![tactic(auto)]

mod shifts;
mod zone_fault;
mod zone_name;

pub use shifts::clock_shifts;
pub use zone_fault::ZoneFault;
pub use zone_name::is_zone_name;
