//! The faults of reading a site file part by part.

use json::Invalid;
use std::alloc::{AllocError, AllocFailed};

/// The reason why a site file can't be read part by part.
#[derive(Clone, Copy, Drop)]
pub(crate) enum PartFault {
    /// It isn't JSON.
    Unsure,
    /// Memory ran out.
    OutOfMemory,
}

impl From<Invalid> for PartFault {
    ghost use Rattle.std.specs.Prelude.{◌≡◌};
    ghost use Rattle.site_rules.specs.declared.reading.part_fault.PartFault.{PartFault};

    ghost from_gives = { λ _ fault. fault ≡ PartFault.Unsure };

    fn from(_error: Invalid) -> PartFault {
        PartFault::Unsure
    }
}

impl From<AllocError> for PartFault {
    ghost use Rattle.std.specs.Prelude.{◌≡◌};
    ghost use Rattle.site_rules.specs.declared.reading.part_fault.PartFault.{PartFault};

    ghost from_gives = { λ _ fault. fault ≡ PartFault.OutOfMemory };

    fn from(_error: AllocError) -> PartFault {
        PartFault::OutOfMemory
    }
}

impl<T: Drop> From<AllocFailed<T>> for PartFault {
    ghost use Rattle.std.specs.Prelude.{◌≡◌};
    ghost use Rattle.site_rules.specs.declared.reading.part_fault.PartFault.{PartFault};

    ghost from_gives = { λ _ fault. fault ≡ PartFault.OutOfMemory };

    fn from(_refused: AllocFailed<T>) -> PartFault {
        PartFault::OutOfMemory
    }
}
