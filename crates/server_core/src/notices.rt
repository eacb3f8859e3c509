//! Lines for people, which a thread of its own writes to standard error.

use ocpp_scalars::{Instant, Moments, push_instant};
use site_status::push_without_controls;
use std::alloc::{AllocError, Global};
use std::mem;
use std::sync::{Condvar, Mutex, Wait};

/// The most lines that wait to be written. Further ones are left out, and counted.
// Standard error may be a pipe without a reader, and then lines would fill the memory.
const MAX_WAITING: usize = 1_024;

/// The lines that wait to be written to standard error. A session that adds one never waits for a
/// reader of standard error.
#[derive(Drop)]
pub struct Notices {
    alloc: Global,
    waiting: Mutex<WaitingLines>,
    /// The thread that writes them waits here.
    more: Condvar,
}

#[derive(Drop)]
struct WaitingLines {
    lines: Vec<String>,
    left_out: u64,
}

impl WaitingLines {
    /// Keeps a line of the server's log for standard error, unless too many wait or memory runs
    /// out. Returns whether it is kept.
    fn keep(&mut self, line: String) -> bool {
        if self.lines.len() >= MAX_WAITING {
            return false;
        }
        self.lines.push(line).is_ok()
    }
}

impl Notices {
    /// Returns an empty queue of lines.
    pub fn new(alloc: Global) -> Notices {
        Notices {
            alloc,
            waiting: Mutex::new(WaitingLines {
                lines: Vec::new(alloc),
                left_out: 0,
            }),
            more: Condvar::new(),
        }
    }

    /// Adds a line with the present time, a name and an event. Without a clock it adds none.
    pub fn say<R: Wait, M: Moments>(&self, rt: &R, clock: &M, who: &str, what: &str) {
        if let Some(moment) = clock.now() {
            self.add(rt, line_of(self.alloc, moment, who, what));
        }
    }

    /// Does the same with an event whose text may be missing for lack of memory.
    pub fn say_made<R: Wait, M: Moments>(
        &self,
        rt: &R,
        clock: &M,
        who: &str,
        what: Result<String, AllocError>,
    ) {
        match what {
            Ok(what) => self.say(rt, clock, who, what.as_str()),
            Err(AllocError) => self.add(rt, Err(AllocError)),
        }
    }

    /// Adds a line of the server's log to those that wait for standard error. Counts it as left out
    /// if too many wait or memory ran out.
    fn add<R: Wait>(&self, rt: &R, line: Result<String, AllocError>) {
        let mut waiting = self.waiting.lock(rt);
        let is_kept = match line {
            Ok(line) => waiting.keep(line),
            Err(AllocError) => false,
        };
        if !is_kept {
            waiting.left_out = waiting.left_out.saturating_add(1);
        }
        drop(waiting);
        self.more.notify_one();
    }

    /// Writes the lines forever. Nothing is locked while one is written.
    pub fn write_all<R: Wait + Eprint>(&self, rt: &R) {
        for _round in rt.forever() {
            let WaitingLines { lines, left_out } = self.take(rt);
            for line in &lines {
                let _ = eprintln!(rt; "{line}");
            }
            if left_out > 0 {
                let _ = eprintln!(rt; "central: {left_out} lines are left out here");
            }
        }
    }

    /// Waits until there are lines of the server's log to write to standard error, and takes them.
    fn take<R: Wait>(&self, rt: &R) -> WaitingLines {
        let waiting = self.waiting.lock(rt);
        let mut waiting = self.more.wait_while(rt, waiting, |waiting| {
            waiting.lines.is_empty() && waiting.left_out == 0
        });
        let none = WaitingLines {
            lines: Vec::new(self.alloc),
            left_out: 0,
        };
        mem::replace(&mut *waiting, none)
    }
}

/// Returns a line of the server's log about an event: the time, a name and the text, without
/// control characters.
fn line_of(alloc: Global, moment: Instant, who: &str, what: &str) -> Result<String, AllocError> {
    let mut line = String::from_str(alloc, "central: ")?;
    push_instant(&mut line, moment)?;
    line.push(' ')?;
    // Both texts may come from a client: a line break would forge another line.
    push_without_controls(&mut line, who)?;
    line.push_str(": ")?;
    push_without_controls(&mut line, what)?;
    Ok(line)
}
