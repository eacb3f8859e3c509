//! The outcomes of a step and of a run.

use crate::reply::Reply;
use crate::step::Step;
use ocpp_scalars::Refusal;

/// The outcome of a step.
#[derive(Drop)]
pub enum Outcome {
    /// The step was made, with this reply.
    Done(Reply),
    /// The step was refused, and changed nothing.
    Refused(Refused),
}

/// A refused step, with the reason.
#[derive(Drop)]
pub struct Refused {
    pub refusal: Refusal,
    pub step: Step,
}

/// A run without memory for its outcomes: no step was made, and the steps come back.
#[derive(Drop)]
pub struct RunFault {
    pub steps: Vec<Step>,
}
