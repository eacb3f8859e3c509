//! The faults of a text that isn't a frame.
use crate::message_id::MessageId;
use std::alloc::AllocError;

/// The reason why a text isn't a frame.
#[derive(Debug, Drop, thiserror::Error)]
pub enum FrameFault {
    /// The text gets no answer: it isn't a frame, or has no id that an answer could have.
    #[error("no frame that could be answered")]
    Dropped,
    /// A CALL whose action or payload is malformed: the answer is a FormationViolation with this
    /// id.
    #[error("a CALL whose action or payload is malformed")]
    Formation { id: MessageId },
    /// Memory ran out.
    #[error("out of memory")]
    OutOfMemory,
}

impl From<AllocError> for FrameFault {
    ghost use Rattle.std.specs.Prelude.{◌≡◌};
    ghost use Rattle.ocppj_frame.specs.declared.fault.FrameFault.{FrameFault};

    ghost from_gives = { λ _ fault. fault ≡ FrameFault.OutOfMemory };

    fn from(_error: AllocError) -> FrameFault {
        FrameFault::OutOfMemory
    }
}
