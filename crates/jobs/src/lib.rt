//! The jobs that a command line can request, and the durations, instants and limits of their
//! options.
#![tactic(auto)]

mod duration;
mod job;
mod limits;
mod start;

pub use duration::read_duration;
pub use job::{
    Asking, Calling, Checking, Explaining, Job, KeyMaking, Pointing, Replaying, Running, Serving,
    Showing, Source, Starting,
};
pub use limits::{
    MAX_CALL_TIMEOUT, MAX_CONNECTORS, MAX_LINE, MAX_SEATS, MAX_SESSIONS, MAX_WAIT, MAX_WORKERS,
};
pub use start::Start;
