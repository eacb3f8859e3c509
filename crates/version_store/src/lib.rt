//! The central system as sessions use it: the state of a site with the history that led to it,
//! under a lock if threads share it. Each change is one event of the history. A long history is
//! folded: it begins again with the present state, so it never fills up. `specs/Calls.antt` defines
//! the effect of a call on the store, `specs/Store.antt` the store's invariant.
#![tactic(auto)]

mod answer;
mod book;
mod folded;
mod history;
mod job;
mod laws;
mod ledgers;
mod missing;
mod pass;
mod recorded_states;
mod recorder;
mod shared;
mod stored_event;
mod totals;
mod whole_history;

pub use answer::Answer;
pub use book::Book;
pub use folded::{EventRoom, Folded};
pub use job::Job;
pub use missing::Missing;
pub use pass::Pass;
pub use recorded_states::{NoName, RecordedStates};
pub use shared::Shared;
pub use stored_event::StoredEvent;
pub use totals::Totals;
pub use whole_history::{books_have_whole_histories, stored_calls_go_on};
