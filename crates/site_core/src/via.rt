//! The way from a step to its point.

/// The way from a step to the point that it names. It determines the refusal for an unknown point.
#[derive(Clone, Copy, PartialEq, Eq)]
pub(crate) enum Via {
    /// By the point's identity only.
    Name,
    /// Over the link of this number, which must be the point's present one.
    Link(u64),
    /// By the point's audit.
    Audit,
}
