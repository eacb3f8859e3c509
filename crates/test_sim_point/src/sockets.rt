//! A simulated point at a WebSocket over bytes in memory: the messages that it sends, and how it
//! ends if a device fails. The frames (RFC 6455, 5.2) are made and read by hand.

use crate::days::{instant_at, point_with};
use crate::same::{holds, same_text};
use ocpp_scalars::{Instant, Moments};
use sim_point::{Ended, run_client};
use std::alloc::Global;
use std::io::{self, ErrorKind, Read, Write};
use std::process::Abort;
use std::sync::Wait;
use tungstenite::{MaskKeys, Role, WebSocket};

/// A clock that always gives the same instant, or none.
#[derive(Clone, Copy)]
struct Fixed(Option<Instant>);

impl Moments for Fixed {
    fn now(&self) -> Option<Instant> {
        self.0
    }
}

/// Masks each frame by zeros, so that its text can be read.
#[derive(Drop)]
struct NoMaskKeys;

impl MaskKeys for NoMaskKeys {
    fn next_key(&mut self) -> [u8; 4] {
        [0; 4]
    }
}

/// A stream in memory that fails once no calls are left.
#[derive(Drop)]
struct Stream<'a> {
    input: &'a [u8],
    output: &'a mut Vec<u8>,
    calls: usize,
}

impl Stream<'_> {
    /// Counts a read, write or flush of the device in a test of the simulated point, and fails if
    /// none is left.
    fn call(&mut self) -> io::Result<()> {
        if self.calls == 0 {
            return Err(io::Error::from(ErrorKind::BrokenPipe));
        }
        self.calls -= 1;
        Ok(())
    }
}

impl Read for Stream<'_> {
    fn read(&mut self, buf: &mut [u8]) -> io::Result<usize> {
        self.call()?;
        self.input.read(buf)
    }
}

impl Write for Stream<'_> {
    fn write(&mut self, buf: &[u8]) -> io::Result<usize> {
        self.call()?;
        self.output.write(buf)
    }

    fn flush(&mut self) -> io::Result<()> {
        self.call()
    }
}

/// The central system's messages, one on each line.
const CENTRAL: &str = r#"[2,"a","ClearChargingProfile",{}]
[3,"0",{"currentTime":"2025-01-01T00:00:00Z"}]
[2,"c","RemoteStartTransaction",{"connectorId":2,"idTag":"b"}]
[3,"1",{"idTagInfo":{"status":"Accepted"},"transactionId":7}]
[3,"2",{}]
[3,"3",{"idTagInfo":{"status":"Accepted"},"transactionId":8}]"#;

/// The point's messages: its calls, and an answer to each CALL. The remote start comes before the
/// stop.
const POINT: &str = r#"[2,"0","Heartbeat",{}]
[3,"a",{"status":"Unknown"}]
[2,"1","StartTransaction",{"connectorId":1,"idTag":"a","meterStart":3,"timestamp":"2025-01-01T00:00:00Z"}]
[3,"c",{"status":"Accepted"}]
[2,"2","StartTransaction",{"connectorId":2,"idTag":"b","meterStart":0,"timestamp":"2025-01-01T00:00:00Z"}]
[2,"3","StopTransaction",{"transactionId":7,"timestamp":"2025-01-01T00:00:00Z","meterStop":3}]"#;

/// Returns the bytes that a test's central system sends the simulated point: a binary frame, these
/// texts, of fewer than 126 bytes each, and its close frame if `closes`.
fn sent_by_central(rt: &impl Abort, alloc: Global, texts: &str, closes: bool) -> Vec<u8> {
    let mut bytes = [0x82, 3, 1, 2, 3].to_vec(alloc).expect(rt, "error");
    for text in texts.lines() {
        let head = [0x81, (text.len() % 256) as u8];
        bytes.extend_from_slice(&head).expect(rt, "error");
        bytes.extend_from_slice(text.as_bytes()).expect(rt, "error");
    }
    if closes {
        bytes.extend_from_slice(&[0x88, 0]).expect(rt, "error");
    }
    bytes
}

/// Checks that bytes of the simulated point are text frames of these texts, of fewer than 126 bytes
/// each, and its close frame.
fn are_texts(rt: &impl Abort, bytes: &[u8], texts: &str) {
    let mut left = bytes;
    for wanted in texts.lines() {
        let end = wanted.len().saturating_add(6);
        holds(rt, left.get(0) == Some(&0x81), wanted);
        let text = std::str::from_utf8(left.get(6..end).unwrap_or(&[]));
        same_text(rt, text.unwrap_or("-"), wanted, "a text");
        left = left.get(end..).unwrap_or(&[]);
    }
    holds(rt, left.get(0) == Some(&0x88), "a close");
}

/// Runs a test's simulated point, whose steps are a heartbeat, and the start and the stop of a
/// transaction, over a stream of these bytes that fails after a number of calls. Returns how it
/// ends, and appends the point's bytes.
fn ended<R: Abort + Wait>(
    rt: &R,
    alloc: Global,
    (input, calls): (&[u8], usize),
    now: Option<Instant>,
    output: &mut Vec<u8>,
) -> Ended {
    let stream = Stream {
        input,
        output,
        calls,
    };
    let socket = WebSocket::from_raw_socket(alloc, stream, NoMaskKeys, Role::Client, None);
    let point = point_with(rt, alloc, "heartbeat\nstart 1 a 3\nstop 1");
    run_client(rt, alloc, socket, point, &Fixed(now))
}

/// Checks what a simulated charge point sends over a WebSocket, with steps of its own and a remote
/// start, and that it ends whichever call of its device fails.
#[test]
fn a_day_at_a_socket(rt: HostRuntime) {
    let (alloc, now) = (rt.alloc(), Some(instant_at(&rt, 0)));
    let bytes = sent_by_central(&rt, alloc, CENTRAL, true);
    let mut failed = 0;
    for calls in 0..40 {
        let mut output = Vec::new(alloc);
        match ended(&rt, alloc, (bytes.as_slice(), calls), now, &mut output) {
            Ended::Broken => failed = calls,
            Ended::Closed => are_texts(&rt, output.as_slice(), POINT),
            Ended::OutOfMemory => rt.panic("out of memory"),
        }
    }
    // Each call before the close may fail: six messages and a close written, each flushed.
    holds(&rt, failed >= 12 && failed < 39, "each call may fail");
}

/// Checks how a simulated charge point ends if its connection ends without a close, its clock can't
/// be read, or the central system closes first.
#[test]
fn a_connection_without_a_close_is_broken(rt: HostRuntime) {
    let alloc = rt.alloc();
    let whole = sent_by_central(&rt, alloc, CENTRAL, false);
    let closing = sent_by_central(&rt, alloc, "", true);
    let is_broken = end_with(&rt, alloc, whole.as_slice(), true) == Ended::Broken;
    holds(&rt, is_broken, "no close");
    let is_broken = end_with(&rt, alloc, whole.as_slice(), false) == Ended::Broken;
    holds(&rt, is_broken, "no clock");
    let is_closed = end_with(&rt, alloc, closing.as_slice(), true) == Ended::Closed;
    holds(&rt, is_closed, "the other closes");
}

/// Returns how a simulated charge point ends that reads these bytes from its WebSocket, with a clock
/// or without.
fn end_with<R: Abort + Wait>(rt: &R, alloc: Global, input: &[u8], has_clock: bool) -> Ended {
    let now = if has_clock {
        Some(instant_at(rt, 0))
    } else {
        None
    };
    let mut output = Vec::new(alloc);
    ended(rt, alloc, (input, 100), now, &mut output)
}
