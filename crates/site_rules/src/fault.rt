//! The faults of a site file.

ghost use Rattle.std.specs.Prelude.{◌≡◌};

use std::alloc::{AllocError, AllocFailed};
use thiserror::Error;

/// The reason why a site file isn't accepted. The variants are checked in this order.
#[derive(Clone, Copy, Debug, PartialEq, Eq, Error)]
pub enum SiteFault {
    /// The file has more than 16,777,216 bytes.
    #[error("TooLarge")]
    TooLarge,
    /// The file isn't UTF-8.
    #[error("NotUtf8")]
    NotUtf8,
    /// The text isn't JSON.
    #[error("NotJson")]
    NotJson,
    /// The JSON isn't an object.
    #[error("NotAnObject")]
    NotAnObject,
    /// `unit` isn't `"A"` or `"W"`.
    #[error("BadUnit")]
    BadUnit,
    /// `points` isn't a list of 1 to 1,000 objects.
    #[error("BadPoints")]
    BadPoints,
    /// A point's `id` isn't 1 to 48 letters, digits, `.`, `_`, `-` or `~`.
    #[error("BadId")]
    BadId,
    /// An earlier point has this `id`.
    #[error("SameId")]
    SameId,
    /// A point's `ceiling` isn't a number of tenths.
    #[error("BadCeiling")]
    BadCeiling,
    /// A point's `connectors` isn't a list of 1 to 64 numbers of tenths.
    #[error("BadConnectors")]
    BadConnectors,
    /// Memory ran out.
    #[error("OutOfMemory")]
    OutOfMemory,
}

impl From<AllocError> for SiteFault {
    ghost use Rattle.site_rules.specs.declared.fault.SiteFault.{SiteFault};

    ghost from_gives = { λ _ fault. fault ≡ SiteFault.OutOfMemory };

    fn from(_error: AllocError) -> SiteFault {
        SiteFault::OutOfMemory
    }
}

impl<T: Drop> From<AllocFailed<T>> for SiteFault {
    ghost use Rattle.site_rules.specs.declared.fault.SiteFault.{SiteFault};

    ghost from_gives = { λ _ fault. fault ≡ SiteFault.OutOfMemory };

    fn from(_error: AllocFailed<T>) -> SiteFault {
        SiteFault::OutOfMemory
    }
}
