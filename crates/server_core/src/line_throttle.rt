//! Lines for people that repeat only after a pause.

use std::rt::Clock;
use std::time::Instant;

/// The shortest time between two reports of the same line, in seconds.
// Its events may come many times a second: a failed accept is tried again after 100 milliseconds.
const SECONDS_BETWEEN: u64 = 60;

/// The time of a line's last report, which limits how often it repeats.
#[derive(Drop)]
pub struct LineThrottle {
    said: Option<Instant>,
}

impl LineThrottle {
    /// Returns the state of a line that wasn't reported yet.
    pub fn new() -> LineThrottle {
        LineThrottle { said: None }
    }

    /// Returns whether the line is due, and if so counts it as reported. Without a clock it isn't.
    pub fn is_due<R: Clock>(&mut self, rt: &R) -> bool {
        let Ok(now) = Instant::now(rt) else {
            return false;
        };
        let is_due = match self.said {
            Some(before) => match now.checked_duration_since(before) {
                Some(since) => since.as_secs() >= SECONDS_BETWEEN,
                None => false,
            },
            None => true,
        };
        if is_due {
            self.said = Some(now);
        }
        is_due
    }
}
