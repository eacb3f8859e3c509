//! Explained schedules.

ghost use Rattle.std.specs.Prelude.{◌≡◌};
ghost use Rattle.sweep_compiler.specs.Explained.{Adjoin};

use crate::interval::Interval;
use std::marker::Model;

/// The causes of a requested schedule's limits (chapter 3.13), in intervals. The first begins at
/// second 0, each later one at the end of the one before it, and the last ends with the schedule.
#[derive(Drop)]
pub struct Explanation {
    /// Seconds.
    duration: u32,
    intervals: Vec<Interval>,
}

impl Model for Explanation {
    ghost use Rattle.sweep_compiler.specs.Explained.{ExplainedSchedule, Adjoin};

    ghost Value = { ExplainedSchedule };

    ghost view = { λ e. record { duration = e.duration; intervals = e.intervals.items } };

    ghost invariant = { λ e. Adjoin 0 e.duration e.intervals.items };
}

impl Explanation {
    /// Makes the schedule compiler's explanation of a requested schedule's limits from these
    /// intervals of one reason each, over a number of seconds.
    pub(crate) fn new(duration: u32, intervals: Vec<Interval>) -> Explanation
        requires adjoin { Adjoin 0 duration intervals.items }
        ensures lasts { result.duration ≡ duration }
        ensures same { result.intervals ≡ intervals.items }
    {
        Explanation {
            duration,
            intervals,
        }
    }

    /// Returns the number of seconds that it covers.
    pub fn duration(&self) -> u32
        ensures { result ≡ self.now.duration }
    {
        self.duration
    }

    /// Returns the intervals in order.
    pub fn intervals(&self) -> &[Interval]
        ensures value { result.now ≡ self.now.intervals }
        ensures adjoin { Adjoin 0 self.now.duration self.now.intervals }
    {
        self.intervals.as_slice()
    }
}
