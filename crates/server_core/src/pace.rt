//! Sessions whose clients send faster than they are served.

use std::rt::Clock;
use std::sync::Wait;
use std::sync::atomic::{AtomicU64, Ordering};
use std::thread;
use std::time::Duration;

/// The pause before a session's next message for each other fast client, in microseconds.
const PAUSE_PER_CLIENT: u64 = 50;

/// The number of fast clients: those that send faster than they are served. The more there are, the
/// longer each of their sessions waits between two messages. So all of them together take a bounded
/// part of the processor's time, and other sessions don't queue behind them for the book.
#[derive(Drop)]
pub struct FastClients {
    count: AtomicU64,
}

impl FastClients {
    pub fn new() -> FastClients {
        FastClients {
            count: AtomicU64::new(0),
        }
    }
}

/// The pace of a session.
#[derive(Drop)]
pub struct Pace<'a> {
    clients: &'a FastClients,
    /// Whether the session's client is counted among them.
    is_counted: bool,
}

impl<'a> Pace<'a> {
    pub fn new(clients: &'a FastClients) -> Pace<'a> {
        Pace {
            clients,
            is_counted: false,
        }
    }

    /// Waits before the next message of a client that is ahead, if other clients are too.
    pub fn keep<R: Wait + Clock>(&mut self, rt: &R, is_ahead: bool) {
        self.set_counted(is_ahead);
        if !is_ahead {
            return;
        }
        let others = self.clients.count.load(Ordering::SeqCst).saturating_sub(1);
        if others > 0 {
            thread::sleep(
                rt,
                Duration::from_micros(others.saturating_mul(PAUSE_PER_CLIENT)),
            );
        }
    }

    /// Ends the session: its client no longer counts as ahead.
    pub fn end(self) {
        let mut ended = self;
        ended.set_counted(false);
    }

    /// Counts the session's client among the server's clients that send faster than they are
    /// served, or removes it from them. Repeats have no effect.
    fn set_counted(&mut self, is_ahead: bool) {
        if is_ahead == self.is_counted {
            return;
        }
        if is_ahead {
            self.clients.count.fetch_add(1, Ordering::SeqCst);
        } else {
            self.clients.count.fetch_sub(1, Ordering::SeqCst);
        }
        self.is_counted = is_ahead;
    }
}
