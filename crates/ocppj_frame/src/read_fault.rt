//! The faults of reading a marked text.
use json::Invalid;
use std::alloc::{AllocError, AllocFailed};

/// The reason why a marked text has no value.
#[derive(Clone, Copy, Drop)]
pub(crate) enum ReadFault {
    /// `serde_json` refuses the text.
    NotJson,
    /// Memory ran out.
    OutOfMemory,
}

impl From<Invalid> for ReadFault {
    ghost use Rattle.std.specs.Prelude.{◌≡◌};
    ghost use Rattle.ocppj_frame.specs.declared.read_fault.ReadFault.{ReadFault};

    ghost from_gives = { λ _ fault. fault ≡ ReadFault.NotJson };

    fn from(_error: Invalid) -> ReadFault {
        ReadFault::NotJson
    }
}

impl From<AllocError> for ReadFault {
    ghost use Rattle.std.specs.Prelude.{◌≡◌};
    ghost use Rattle.ocppj_frame.specs.declared.read_fault.ReadFault.{ReadFault};

    ghost from_gives = { λ _ fault. fault ≡ ReadFault.OutOfMemory };

    fn from(_error: AllocError) -> ReadFault {
        ReadFault::OutOfMemory
    }
}

impl<T: Drop> From<AllocFailed<T>> for ReadFault {
    ghost use Rattle.std.specs.Prelude.{◌≡◌};
    ghost use Rattle.ocppj_frame.specs.declared.read_fault.ReadFault.{ReadFault};

    ghost from_gives = { λ _ fault. fault ≡ ReadFault.OutOfMemory };

    fn from(_refused: AllocFailed<T>) -> ReadFault {
        ReadFault::OutOfMemory
    }
}
