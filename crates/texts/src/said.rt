//! A point's reply to an audit.

ghost use Rattle.std.specs.Prelude.{◌≡◌, IfOk};
ghost use Rattle.texts.specs.Said.{said_of};

use crate::sent_text::SentText;
use meaning::Said;
use messages::read_said;
use ocppj_frame::{FrameFault, ReadingMemory, read_frame};
use std::alloc::{AllocError, Global};

/// Reads a message into `memory`, as a point's reply to an audit (chapter 6,
/// GetCompositeSchedule.conf). A text that isn't a message is `Refused`.
pub fn said_of(
    alloc: Global,
    memory: &mut ReadingMemory,
    text: &SentText<'_>,
) -> Result<Said, AllocError>
    ensures { IfOk result (λ said. said ≡ said_of text.now) }
{
    // `asked_of` has already read the message. Reading it again costs only a reply to an audit.
    match read_frame(memory, text.frame()) {
        Ok(frame) => match read_said(alloc, &frame) {
            Ok(said) => Ok(said),
            Err(_) => Err(AllocError),
        },
        Err(FrameFault::Formation { .. } | FrameFault::Dropped) => Ok(Said::Refused),
        Err(FrameFault::OutOfMemory) => Err(AllocError),
    }
}
