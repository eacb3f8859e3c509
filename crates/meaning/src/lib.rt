//! The meaning of a charge point's profiles (OCPP 1.6, chapter 3.13): the limit of a connector at
//! an instant, and the composite schedule of a request, found second by second. Every faster body
//! is proved against the definitions in `specs/`.
#![tactic(auto)]

mod ask;
mod ask_laws;
mod bound;
mod cause;
mod composite;
mod limit;
mod not_prevailing;
mod plain_compiler;
mod prevailing;
mod reason;
mod reason_laws;
mod said;
mod said_laws;
mod schedule_laws;
mod shares;
mod view;
mod why_not_laws;

pub use ask::{Ask, MAX_DURATION};
pub use ask_laws::asks;
pub use bound::{Bound, ProfileLimit, lesser_of};
pub use cause::{Cause, PrevailingProfile, Reason, Share, WhyNot};
pub use composite::{Composite, CompositePeriod, MAX_COMPOSITE_PERIODS};
pub use limit::limit_at;
pub use not_prevailing::why_not;
pub use plain_compiler::{add_second, compile_plain};
pub use prevailing::has_its_transaction;
pub use reason::reason_at;
pub use reason_laws::reasons;
pub use said::{Said, SaidPeriods};
pub use said_laws::said_schedules;
pub use schedule_laws::{exact_schedule_exists, exact_schedules, one_schedule};
pub use shares::Shares;
pub use view::View;
pub use why_not_laws::why_nots;
