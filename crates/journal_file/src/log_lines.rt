//! Lines about the journal, which a thread of its own writes to standard error.

use std::alloc::Global;
use std::mem;
use std::rt::Clock;
use std::sync::{Condvar, Mutex, Wait};
use std::time::Duration;

/// The greatest number of waiting lines. More are dropped.
const MOST_LINES: usize = 64;

/// The longest time, in seconds, that an ending program waits for the lines to be written.
const LONGEST_WAIT: u64 = 2;

/// Lines that wait for standard error, which may be a pipe that no process reads.
#[derive(Drop)]
pub(crate) struct LogLines {
    alloc: Global,
    waiting: Mutex<UnwrittenLines>,
    /// The writer waits here for lines, and `settle` until they are written.
    changed: Condvar,
}

#[derive(Drop)]
struct UnwrittenLines {
    lines: Vec<String>,
    /// Whether lines were taken but aren't written yet.
    is_writing: bool,
}

impl LogLines {
    /// Returns an empty list of lines about `run`'s journal file, for standard error.
    pub(crate) fn new(alloc: Global) -> LogLines {
        LogLines {
            alloc,
            waiting: Mutex::new(UnwrittenLines {
                lines: Vec::new(alloc),
                is_writing: false,
            }),
            changed: Condvar::new(),
        }
    }

    /// Adds a line about `run`'s journal file to those that wait for standard error, unless too
    /// many wait or memory runs out.
    pub(crate) fn add<R: Wait>(&self, rt: &R, line: String) {
        let mut waiting = self.waiting.lock(rt);
        if waiting.lines.len() < MOST_LINES {
            let _ = waiting.lines.push(line);
        }
        drop(waiting);
        self.changed.notify_all();
    }

    /// Writes the lines about `run`'s journal file to standard error, forever.
    pub(crate) fn write_all<R: Wait + Eprint>(&self, rt: &R) {
        for _round in rt.forever() {
            let waiting = self.waiting.lock(rt);
            let waiting = self
                .changed
                .wait_while(rt, waiting, |waiting| waiting.lines.is_empty());
            drop(waiting);
            self.write_waiting(rt);
        }
    }

    /// Writes the waiting lines about `run`'s journal file to standard error, with no lock held
    /// meanwhile.
    pub(crate) fn write_waiting<R: Wait + Eprint>(&self, rt: &R) {
        let mut waiting = self.waiting.lock(rt);
        let lines = mem::replace(&mut waiting.lines, Vec::new(self.alloc));
        waiting.is_writing = true;
        drop(waiting);
        for line in &lines {
            let _ = eprintln!(rt; "{line}");
        }
        let mut waiting = self.waiting.lock(rt);
        waiting.is_writing = false;
        drop(waiting);
        self.changed.notify_all();
    }

    /// Waits until all lines about `run`'s journal file are written to standard error, for at most
    /// LONGEST_WAIT seconds.
    pub(crate) fn settle<R: Wait + Clock>(&self, rt: &R) {
        let waiting = self.waiting.lock(rt);
        let longest = Duration::from_secs(LONGEST_WAIT);
        let _ = self
            .changed
            .wait_timeout_while(rt, waiting, longest, |waiting| {
                waiting.is_writing || !waiting.lines.is_empty()
            });
    }
}
