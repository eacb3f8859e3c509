//! The outcomes of a session's steps.

use ocpp_scalars::Refusal;
use site_core::Reply;
use version_store::{Answer, Job};

/// The outcome of a step, as the answer to its CALL reports it.
#[derive(Drop)]
pub enum Outcome {
    /// The step was made, and this is the central system's reply.
    Made(Reply),
    /// The request for a schedule was compiled, and its answer collected.
    Answered(Answer),
    /// The step was refused, and changed nothing.
    Refused(Refusal),
}

/// The result of the one call on the book that makes a step.
#[derive(Drop)]
pub enum Performed {
    /// A request for a schedule is kept, and this is the job to compile for it.
    Job(Job),
    /// The step has its outcome.
    Outcome(Outcome),
}
