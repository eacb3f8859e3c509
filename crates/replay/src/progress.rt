//! The progress of long work, for a user who waits.

use std::rt::Clock;
use std::time::Instant;

/// The fewest seconds between two reports.
const SECONDS_BETWEEN: u64 = 1;

/// The seconds before the first report of how many lines were read.
const SILENT_SECONDS: u64 = 2;

/// The time of the next report.
#[derive(Drop)]
pub struct Progress {
    /// The time of the last report, or of the beginning of the work.
    told: Option<Instant>,
    /// The seconds from then to the next report.
    pause: u64,
}

impl Progress {
    /// Begins work whose progress is reported each second, or never without a clock.
    pub fn begin<R: Clock>(rt: &R) -> Progress {
        Progress {
            told: Instant::now(rt).ok(),
            pause: SECONDS_BETWEEN,
        }
    }

    /// Begins the reading of lines, which mostly takes less than two seconds.
    pub fn of_lines<R: Clock>(rt: &R) -> Progress {
        Progress {
            told: Instant::now(rt).ok(),
            pause: SILENT_SECONDS,
        }
    }

    /// Returns whether a report is due now. If so, it counts as made.
    pub fn is_due<R: Clock>(&mut self, rt: &R) -> bool {
        let (Some(before), Ok(now)) = (self.told, Instant::now(rt)) else {
            return false;
        };
        let is_due = match now.checked_duration_since(before) {
            Some(since) => since.as_secs() >= self.pause,
            None => false,
        };
        if is_due {
            self.told = Some(now);
            self.pause = SECONDS_BETWEEN;
        }
        is_due
    }

    /// Prints on standard error how many lines were read by now, if a report is due.
    pub fn say_lines<R: Clock + Eprint>(&mut self, rt: &R, lines: u64) {
        if self.is_due(rt) {
            // A failing standard error doesn't stop the work.
            let _ = eprintln!(rt; "central: {lines} lines read");
        }
    }
}
