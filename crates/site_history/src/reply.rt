//! The status of a charge point's reply to a call.

use messages::{ActionKind, ReplyStatus};
use ocppj_frame::{Frame, FrameFault, Payload, ReadingMemory, read_frame};
use std::alloc::{AllocError, Global};

/// Returns why a call of this action wasn't done, in the point's words: the status of its reply,
/// `no known status`, or `CALLERROR`. Returns `None` if it was done, or if the text isn't a reply.
pub fn rejection_in(
    alloc: Global,
    memory: &mut ReadingMemory,
    action: ActionKind,
    text: &str,
) -> Result<Option<String>, AllocError> {
    match read_frame(memory, text) {
        Ok(Frame::Reply { payload, .. }) => status_of_rejection(alloc, action, &payload),
        Ok(Frame::Fault { .. }) => Ok(Some(String::from_str(alloc, "CALLERROR")?)),
        Err(FrameFault::OutOfMemory) => Err(AllocError),
        _ => Ok(None),
    }
}

/// Returns the status in a charge point's reply that leaves a call undone, for the rejected calls
/// in the site's history. Returns `None` if the call was done.
fn status_of_rejection(
    alloc: Global,
    action: ActionKind,
    payload: &Payload<'_>,
) -> Result<Option<String>, AllocError> {
    let status = match ReplyStatus::in_payload(payload) {
        Some(status) if status.is_done(action) => return Ok(None),
        Some(status) => status.name(),
        // Only a known status shows that the point did the call.
        None => "no known status",
    };
    Ok(Some(String::from_str(alloc, status)?))
}
