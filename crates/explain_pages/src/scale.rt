//! The positions of times and limits in a picture.

ghost use Rattle.std.specs.Prelude.{◌≤◌};

use crate::entries::{LimitEntry, LimitLine};
use crate::explained_request::ExplainedRequest;
use crate::steps::Steps;
use crate::table::largest_limit;
use crate::ticks::limit_step;

/// The left and the right edge of the plot, in which the lines are drawn.
pub(crate) const LEFT: u64 = 84;

pub(crate) const RIGHT: u64 = 936;

/// The upper and the lower edge of the plot.
pub(crate) const TOP: u64 = 76;

pub(crate) const BOTTOM: u64 = 376;

/// The width of a picture.
pub(crate) const BREADTH: u64 = 960;

/// The time and the limit that the edges of the plot represent.
#[derive(Clone, Copy)]
pub(crate) struct Scale {
    /// The duration of the request, in seconds.
    pub(crate) duration: u32,
    /// The limit at the upper edge, in tenths.
    pub(crate) top: u64,
    /// Tenths between two ticks.
    pub(crate) step: u32,
}

impl Scale {
    /// Returns a scale for `explain`'s picture that has room for the limits. It ignores a profile's
    /// steps and a ceiling above twice the largest limit: the ceiling is left out if it is above
    /// the plot, and the profile is drawn at the upper edge there.
    pub(crate) fn of(explained: &ExplainedRequest<'_>, entries: &[LimitEntry]) -> Scale {
        let limit = largest_limit(explained);
        let bound = match limit {
            // Twice 0 would ignore every profile and ceiling.
            0 => u32::MAX,
            _ => limit.saturating_mul(2),
        };
        let mut largest = limit;
        for entry in entries {
            largest = largest.max(largest_within(&entry.line, bound));
        }
        // Leaves some room above the largest limit.
        let largest = largest.saturating_add(largest / 20).max(1);
        let step = limit_step(largest);
        Scale {
            duration: explained.ask.duration,
            top: u64::from(largest.div_ceil(step.max(1))).saturating_mul(u64::from(step)),
            step,
        }
    }

    /// Returns the position of a second of the explained request in `explain`'s picture, between
    /// the left and the right edge of the plot.
    pub(crate) fn x(self, second: u32) -> u64
        ensures left { LEFT ≤ result }
        ensures right { result ≤ RIGHT }
    {
        let breadth = RIGHT - LEFT;
        let share = u64::from(second) * breadth / u64::from(self.duration.max(1));
        LEFT + share.min(breadth)
    }

    /// Returns the position of a limit in `explain`'s picture, between the upper and the lower edge
    /// of the plot.
    pub(crate) fn y(self, limit: u32) -> u64
        ensures upper { TOP ≤ result }
        ensures lower { result ≤ BOTTOM }
    {
        let height = BOTTOM - TOP;
        let share = u64::from(limit) * height / self.top.max(1);
        BOTTOM - share.min(height)
    }

    /// Returns whether the line of a profile or a ceiling goes above the upper edge of `explain`'s
    /// picture.
    pub(crate) fn is_passed_by(self, line: &LimitLine) -> bool {
        match line {
            LimitLine::Level(limit) => u64::from(*limit) > self.top,
            LimitLine::Steps(steps) => u64::from(largest_step(steps, u32::MAX)) > self.top,
            LimitLine::Nothing => false,
        }
    }
}

/// Returns the largest limit of a profile's or a ceiling's line that isn't above a bound, or 0, for
/// the scale of `explain`'s picture.
fn largest_within(line: &LimitLine, bound: u32) -> u32 {
    match line {
        LimitLine::Level(limit) if *limit <= bound => *limit,
        LimitLine::Steps(steps) => largest_step(steps, bound),
        LimitLine::Level(_) | LimitLine::Nothing => 0,
    }
}

/// Returns the largest limit of a profile's steps that isn't above a bound, or 0, for the scale of
/// `explain`'s picture.
fn largest_step(steps: &Steps, bound: u32) -> u32 {
    let mut largest = 0;
    for step in &steps.items {
        let limit = step.limit.unwrap_or(0);
        if limit <= bound {
            largest = limit.max(largest);
        }
    }
    largest
}
