//! The gate that a worker passes before it compiles.

/// A gate that a worker passes with the number of each request before it compiles that. It can
/// delay a worker, as tests do, and can't change the compiled schedule.
pub trait Gate {
    /// Called when a worker has received the job of the schedule request of this number, before it
    /// tests whether the request still awaits its answer.
    fn enter(&self, number: u64);

    /// Called when a worker begins to compile the request for a composite schedule of this number,
    /// which had no answer yet.
    fn begin(&self, _number: u64) {}
}

/// A gate that delays no worker.
#[derive(Clone, Copy, Default)]
pub struct Open;

impl Gate for Open {
    /// Delays no worker.
    fn enter(&self, _number: u64) {}
}
