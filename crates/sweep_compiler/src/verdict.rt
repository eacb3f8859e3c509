//! Verdicts of audits.

/// Whether a charge point's composite schedule is the one of its book (chapter 5.7).
#[derive(Clone, Copy, PartialEq, Eq)]
pub enum Verdict {
    /// Both have equal limits at each second that both cover.
    Agrees,
    /// Their limits differ at a second.
    Differs,
    /// The point rejected the request.
    Rejected,
    /// They can't be compared.
    Unsettled,
}
