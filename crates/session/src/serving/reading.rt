//! Reads messages into memory. A long message takes many times its size.

ghost use Rattle.std.specs.Prelude.{◌≡◌, IfErr, IfOk};
ghost use Rattle.session.specs.Todo.{IsTodo};
ghost use Rattle.texts.specs.Said.{said_of};

use crate::context::Context;
use crate::session_core::SessionCore;
use crate::todo::Todo;
use meaning::Said;
use ocpp_scalars::{Instant, Refusal};
use ocppj_frame::ReadingMemory;
use std::alloc::AllocError;
use texts::{SentText, said_of};
use world::World;

/// The longest message in bytes that is read beside others. Longer ones are read one at a time.
// Reading takes up to 150 times a message's size, so several at once could exhaust the memory.
const LONGEST_BESIDE_OTHERS: usize = 4_096;

/// Returns whether a session's message is long: no other long one is read at the same time.
pub(crate) fn is_long(frame: &str) -> bool {
    frame.len() > LONGEST_BESIDE_OTHERS
}

/// Reads a session's message, and returns the work for it. The memory for reading it is freed at
/// once.
pub(crate) fn read_message<W: World>(
    context: &Context<'_, W>,
    core: &SessionCore,
    moment: Instant,
    frame: &str,
) -> Result<Todo, Refusal>
    ensures todo { IfOk result (λ todo. IsTodo core.now moment frame.now todo) }
    ensures refusal { IfErr result (λ refusal. refusal ≡ Refusal.OutOfMemory) }
{
    if !is_long(frame) {
        return core.read_text(&mut ReadingMemory::new(context.alloc), moment, frame);
    }
    // The memory is a temporary of the next statement, so it is freed before the lock.
    let alone = context.reading.lock(context.rt);
    let todo = core.read_text(&mut ReadingMemory::new(context.alloc), moment, frame);
    drop(alone);
    todo
}

/// Reads, for the verdict of a session, its point's reply to the GetCompositeSchedule of an audit.
/// The memory for reading it is freed at once.
pub(crate) fn read_reply<W: World>(
    context: &Context<'_, W>,
    sent: &SentText<'_>,
) -> Result<Said, AllocError>
    ensures { IfOk result (λ said. said ≡ said_of sent.now) }
{
    if !is_long(sent.frame()) {
        return said_of(context.alloc, &mut ReadingMemory::new(context.alloc), sent);
    }
    let alone = context.reading.lock(context.rt);
    let said = said_of(context.alloc, &mut ReadingMemory::new(context.alloc), sent);
    drop(alone);
    said
}
