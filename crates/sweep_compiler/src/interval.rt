//! An interval of time with one limit for one reason.

use meaning::Reason;

/// An interval of a requested schedule over which the limit and its reason are constant.
#[derive(Drop)]
pub struct Interval {
    /// Its first second, from the start of the request.
    pub start: u32,
    /// The second after its last one.
    pub end: u32,
    pub reason: Reason,
}
