//! Streams that several threads share.

use std::alloc::Global;
use std::net::{Shutdown, TcpStream};
use std::rt::Clock;
use std::sync::Arc;
use std::time::Instant;

/// A stream that each thread with a clone of it may shut.
pub type SharedStream = Arc<TcpStream, Global>;

/// Shuts a stream: a thread that reads it gets its end. It may have ended already.
pub fn shut(stream: &SharedStream) {
    let _ = stream.shutdown(Shutdown::Both);
}

/// Returns the whole seconds since a moment, or 0 if the clock can't be read.
pub fn seconds_since<R: Clock>(rt: &R, moment: Instant) -> u64 {
    let Ok(now) = Instant::now(rt) else {
        return 0;
    };
    match now.checked_duration_since(moment) {
        Some(since) => since.as_secs(),
        None => 0,
    }
}
