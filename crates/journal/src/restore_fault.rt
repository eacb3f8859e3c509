//! The reasons why a line of a journal can't be restored.

ghost use Rattle.std.specs.Prelude.{◌≡◌};

use crate::line_fault::LineFault;
use ocpp_scalars::Refusal;
use std::alloc::AllocError;
use thiserror::Error;

/// The reason why a line of a journal can't be restored.
#[derive(Clone, Copy, Debug, PartialEq, Eq, Error)]
pub enum RestoreFault {
    /// It isn't a line of a journal.
    #[error("{0}")]
    Line(LineFault),
    /// Its message doesn't request a step of the kind that such a line notes.
    #[error("its message asks for no such step")]
    OtherStep,
    /// Its step is refused.
    #[error("its step is refused: {0}")]
    Refused(Refusal),
    /// Its step changes nothing.
    #[error("its step changes nothing")]
    Unchanged,
    /// Its step was made, but drew another number.
    #[error("its step draws {drawn}, and {written} is written")]
    OtherNumber { written: u64, drawn: u64 },
    /// Memory ran out.
    #[error("OutOfMemory")]
    OutOfMemory,
}

impl From<Refusal> for RestoreFault {
    ghost use Rattle.journal.specs.RestoreFault.{fault_of_refusal};

    ghost from_gives = { λ refusal fault. fault ≡ fault_of_refusal refusal };

    fn from(refusal: Refusal) -> RestoreFault {
        match refusal {
            Refusal::OutOfMemory => RestoreFault::OutOfMemory,
            refusal => RestoreFault::Refused(refusal),
        }
    }
}

impl From<AllocError> for RestoreFault {
    ghost use Rattle.journal.specs.declared.restore_fault.RestoreFault.{RestoreFault};

    ghost from_gives = { λ _ fault. fault ≡ RestoreFault.OutOfMemory };

    fn from(_error: AllocError) -> RestoreFault {
        RestoreFault::OutOfMemory
    }
}
