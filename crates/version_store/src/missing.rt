//! The error of missing passes.

/// Fewer passes were given than were made.
#[derive(Clone, Copy, PartialEq, Eq)]
pub struct Missing {
    pub given: usize,
    pub made: u64,
}
