//! A gate that holds up workers until it is opened, for a limited number of turns.

use compile_pool::Gate;
use ocpp_scalars::Refusal;
use std::sync::atomic::{AtomicU64, Ordering};
use std::thread;

/// The most turns for which a worker is held up; each yields.
const TURNS: u64 = 1_000_000;

/// The number of turns left to those that begin to wait.
const PAUSE: u64 = 10_000;

/// Holds up the workers of some requests until it is opened.
#[derive(Drop)]
pub(crate) struct HoldingGate {
    /// The requests that are held up: a letter for each number from 1 on, `h` if it is.
    held: &'static str,
    begun: AtomicU64,
    opened: AtomicU64,
    ran_out: AtomicU64,
}

impl HoldingGate {
    /// Makes the closed gate that holds up workers in the tests of their pool. `held` has an `h`
    /// for each request that it holds up.
    pub(crate) fn new(held: &'static str) -> HoldingGate {
        HoldingGate {
            held,
            begun: AtomicU64::new(0),
            opened: AtomicU64::new(0),
            ran_out: AtomicU64::new(0),
        }
    }

    /// Opens the gate that holds up workers in the tests of their pool, which lets the workers of
    /// all requests through.
    pub(crate) fn open(&self) {
        self.opened.store(1, Ordering::SeqCst);
    }

    /// Yields a thread up to this many turns, in a test of the workers' pool, until the gate that
    /// holds up workers is opened. Returns whether it is.
    fn is_opened_within(&self, turns: u64) -> bool {
        for _turn in 0..turns {
            if self.opened.load(Ordering::SeqCst) != 0 {
                return true;
            }
            thread::yield_now();
        }
        false
    }

    /// Returns whether the workers that were held up in a test of their pool began again only when
    /// the gate was opened.
    pub(crate) fn held_on(&self) -> bool {
        self.ran_out.load(Ordering::SeqCst) == 0
    }

    /// Opens the gate before the workers or pauses, as a session's line says in a test of their
    /// pool, or returns how many jobs were begun.
    pub(crate) fn done(&self, word: &str) -> Result<u64, Refusal> {
        match word {
            "open" => self.open(),
            "pause" => {
                self.is_opened_within(PAUSE);
            }
            "begun" => return Ok(self.begun.load(Ordering::SeqCst)),
            _ => return Err(Refusal::UnknownRequest),
        }
        Ok(0)
    }
}

impl Gate for HoldingGate {
    fn enter(&self, number: u64) {
        let letter = self.held.as_bytes().get(number.saturating_sub(1) as usize);
        if letter == Some(&b'h') && !self.is_opened_within(TURNS) {
            self.ran_out.store(1, Ordering::SeqCst);
        }
    }

    fn begin(&self, _number: u64) {
        self.begun.fetch_add(1, Ordering::SeqCst);
    }
}
