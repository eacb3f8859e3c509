//! The reason why a point doesn't accept a call.

use messages::ReplyStatus;
use ocppj_frame::{Frame, ReadingMemory, read_frame};
use std::alloc::{AllocError, Global};

/// The maximum number of bytes that are kept of a reply which rejects a call.
pub const MAX_REJECTION_BYTES: usize = 200;

/// The maximum number of bytes of a reply that is read for its status.
// Reading a message takes up to 150 times its size.
const LONGEST_STATUS_REPLY: usize = 4_096;

/// Returns the reason why a point doesn't accept a call, from its reply. It is the status if that
/// is one of OCPP's (chapter 7), or else the beginning of the reply.
pub fn rejection_in(alloc: Global, frame: &str) -> Result<String, AllocError> {
    if frame.len() > LONGEST_STATUS_REPLY {
        return beginning_of(alloc, frame);
    }
    let mut memory = ReadingMemory::new(alloc);
    match read_frame(&mut memory, frame) {
        Ok(Frame::Reply { payload, .. }) => match ReplyStatus::in_payload(&payload) {
            Some(status) => String::from_str(alloc, status.name()),
            None => beginning_of(alloc, frame),
        },
        _ => beginning_of(alloc, frame),
    }
}

/// Returns the beginning of a charge point's reply that rejects a call, of at most
/// `MAX_REJECTION_BYTES` bytes. It is the reason that the server notes if no status was read.
fn beginning_of(alloc: Global, text: &str) -> Result<String, AllocError> {
    let mut beginning = String::new(alloc);
    for character in text.chars() {
        if beginning.len().saturating_add(character.len_utf8()) > MAX_REJECTION_BYTES {
            return Ok(beginning);
        }
        beginning.push(character)?;
    }
    Ok(beginning)
}
