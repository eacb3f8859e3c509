//! The handshakes that aren't complete yet.

use crate::shared_stream::{SharedStream, seconds_since, shut};
use std::alloc::Global;
use std::rt::Clock;
use std::sync::{Mutex, Wait};
use std::time::Instant;

/// The time that each handshake has even while connections wait for a seat, in seconds.
const LEAST: u64 = 1;

/// The handshakes that aren't complete yet. The oldest one can give way to a connection that waits
/// for a seat.
#[derive(Drop)]
pub struct UnfinishedHandshakes {
    begun: Mutex<BegunHandshakes>,
}

#[derive(Drop)]
struct BegunHandshakes {
    /// In the order in which they began.
    handshakes: Vec<BegunHandshake>,
    // Positions change as others end, so each handshake has a number.
    next_number: u64,
}

#[derive(Drop)]
struct BegunHandshake {
    number: u64,
    begun: Instant,
    stream: SharedStream,
}

impl UnfinishedHandshakes {
    /// Returns an empty list.
    pub fn new(alloc: Global) -> UnfinishedHandshakes {
        UnfinishedHandshakes {
            begun: Mutex::new(BegunHandshakes {
                handshakes: Vec::new(alloc),
                next_number: 0,
            }),
        }
    }

    /// Adds a handshake that begins over this stream, and returns its number. Without a clock or
    /// memory it isn't added: it never gives way, and ends by its deadline.
    pub fn begin<R: Wait + Clock>(&self, rt: &R, stream: SharedStream) -> Option<u64> {
        let begun = Instant::now(rt).ok()?;
        let mut unfinished = self.begun.lock(rt);
        let number = unfinished.next_number;
        unfinished.next_number = number.wrapping_add(1);
        let handshake = BegunHandshake {
            number,
            begun,
            stream,
        };
        match unfinished.handshakes.push(handshake) {
            Ok(()) => Some(number),
            Err(_) => None,
        }
    }

    /// Removes the handshake of this number, which is complete or has failed.
    pub fn end<R: Wait>(&self, rt: &R, number: u64) {
        let mut unfinished = self.begun.lock(rt);
        // None is found if the handshake has given way meanwhile.
        let found = unfinished
            .handshakes
            .iter()
            .position(|handshake| handshake.number == number);
        if let Some(place) = found {
            let ended = unfinished.handshakes.remove(place);
            drop(unfinished);
            drop(ended);
        }
    }

    /// Shuts the stream of the oldest handshake. Returns false if none has had its time yet.
    pub fn shut_longest<R: Wait + Clock>(&self, rt: &R) -> bool {
        let mut unfinished = self.begun.lock(rt);
        let is_due = match unfinished.handshakes.first() {
            Some(longest) => seconds_since(rt, longest.begun) >= LEAST,
            None => false,
        };
        if !is_due {
            return false;
        }
        let longest = unfinished.handshakes.remove(0);
        drop(unfinished);
        shut(&longest.stream);
        true
    }
}
