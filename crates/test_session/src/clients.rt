//! The bytes that a client sends, and the messages that it reads in the end. Each message is a
//! frame (RFC 6455, 5.2), a client's masked by zeros.

use crate::named_texts::{name_of, text_of};
use std::alloc::Global;
use std::process::Abort;

/// The first bytes of a whole text and of a close frame.
const TEXT: u8 = 0x81;

const CLOSE: u8 = 0x88;

/// Appends a client's frame to the bytes that it sends in a test of sessions.
fn push_frame(rt: &impl Abort, bytes: &mut Vec<u8>, first: u8, payload: &str) {
    let length = payload.len();
    let (high, low) = ((length / 256 % 256) as u8, (length % 256) as u8);
    let short = [first, 0x80 | low];
    let long = [first, 0xfe, high, low];
    let head = if length < 126 {
        short.as_slice()
    } else {
        long.as_slice()
    };
    bytes.extend_from_slice(head).expect(rt, "error");
    bytes.extend_from_slice(&[0; 4]).expect(rt, "error");
    bytes
        .extend_from_slice(payload.as_bytes())
        .expect(rt, "error");
}

/// Returns the bytes of a client in a test of sessions, which sends the messages of these names.
/// `close` is a close frame, and `end` sends nothing.
pub(crate) fn client_bytes(rt: &impl Abort, alloc: Global, names: &str) -> Vec<u8> {
    let mut bytes = Vec::new(alloc);
    for name in names.split(' ') {
        match name {
            "end" => {}
            "close" => push_frame(rt, &mut bytes, CLOSE, ""),
            name => push_frame(rt, &mut bytes, TEXT, text_of(name)),
        }
    }
    bytes
}

/// Splits the first byte and the payload of a server's frame off its bytes, in a test of sessions.
fn next_frame(bytes: &[u8]) -> Option<(u8, &[u8], &[u8])> {
    let (first, second) = (*bytes.get(0)?, *bytes.get(1)?);
    let (begin, length) = if second < 126 {
        (2usize, usize::from(second))
    } else {
        let (high, low) = (usize::from(*bytes.get(2)?), usize::from(*bytes.get(3)?));
        (4, high.saturating_mul(256).saturating_add(low))
    };
    let end = begin.saturating_add(length);
    Some((first, bytes.get(begin..end)?, bytes.get(end..)?))
}

/// Returns the name of the message in a server's frame, in a test of sessions.
fn name_of_frame(first: u8, payload: &[u8]) -> &'static str {
    match (first, std::str::from_utf8(payload)) {
        (TEXT, Ok(text)) => name_of(text),
        (CLOSE, _) => "close",
        _ => "other",
    }
}

/// Appends the names of the messages that a client reads from a server's bytes, in a test of
/// sessions. Takes no memory if the text has room.
pub(crate) fn push_heard(rt: &impl Abort, found: &mut String, bytes: &[u8]) {
    let mut left = bytes;
    for _frame in 0..100u32 {
        let Some((first, payload, rest)) = next_frame(left) else {
            return;
        };
        write!(found, " {}", name_of_frame(first, payload)).expect(rt, "error");
        left = rest;
    }
}
