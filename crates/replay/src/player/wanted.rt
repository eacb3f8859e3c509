//! The part of an answer that is wanted of a skimmed request.

/// The result that is wanted of a request that is answered at once.
#[derive(Clone, Copy, PartialEq, Eq)]
pub enum NeededResult {
    /// Whether it is refused, even for a schedule that is too long. The schedule is compiled if it
    /// may be too long.
    Refusal,
    /// Only the state after it, to which the schedule makes no difference.
    State,
}
