//! The calls that an operator's client sends to each point (OCPP-J 1.6, chapter 3), and those that
//! restore the profiles that a point had before a line of a journal.
#![tactic(auto)]

mod call_script;
mod caller;
mod given_call;
mod kept;
mod later_changes;
mod operator_url;
mod shared_warnings;
mod undo;
mod visit;

pub use call_script::{on_one_line, script_of_calls};
pub use caller::{Caller, SendOptions};
pub use given_call::GivenCall;
pub use later_changes::LaterChange;
pub use operator_url::{is_without_point, point_of_url, url_of_point};
pub use shared_warnings::SharedWarnings;
pub use undo::{LostProfile, UNDO, Undo, UndoReader};
pub use visit::{Visit, visits_of_site};
