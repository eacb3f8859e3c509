//! Charging profiles of OCPP 1.6 (chapters 3.13 and 7): well-formed profiles, the rows in which a
//! point keeps them, and a profile's limit at an instant. `specs/` has the definitions that every
//! crate above cites: anchor, offset, rate, base and candidates.
#![tactic(auto)]

mod candidates;
mod charging_profile;
mod criteria;
mod greatest;
mod kind;
mod names;
mod part_laws;
mod parts;
mod period;
mod period_list;
mod periods;
mod purpose;
mod row;
mod schedule;
mod unit;

pub use candidates::is_candidate;
pub use charging_profile::{MAX_STACK_LEVEL, Profile};
pub use criteria::Criteria;
pub use greatest::greatest_is_greatest;
pub use kind::{Kind, ProfileKind, Recurrency};
pub use names::{Named, named_in};
pub use part_laws::profile_parts;
pub use parts::{ProfileParts, ScheduleParts};
pub use period::Period;
pub use period_list::PeriodList;
pub use periods::{MAX_PERIODS, Periods};
pub use purpose::Purpose;
pub use row::Row;
pub use schedule::Schedule;
pub use unit::Unit;
