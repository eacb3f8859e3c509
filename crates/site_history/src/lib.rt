//! The events of a site's history, from a script or a journal, and what readers collect from them:
//! the calls of each point, and its profiles that came and went.
#![tactic(auto)]

mod event;
mod held_lines;
mod point_calls;
mod profile_states;
mod reply;
mod row_changes;
mod site_calls;

pub use event::{Event, EventKind, call_after, change_in, message_in};
pub use held_lines::{HeldLine, HeldLines};
pub use point_calls::{PointCalls, RejectedCall, TracedCall, UnsentCall};
pub use profile_states::{KnownState, ProfileStates};
pub use row_changes::{RowChange, SiteRows, name_of};
pub use site_calls::SiteCalls;
