//! The decision on a step at a point, before anything is done.

use crate::reply::Reply;

/// The decision on a step at a point that isn't refused.
#[derive(Drop)]
pub(crate) enum Decision {
    /// The step is an event.
    Does,
    /// Nothing changes, and this is the reply.
    Answers(Reply),
}
