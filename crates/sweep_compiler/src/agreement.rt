//! Agreement of two schedules.

ghost use Rattle.std.specs.Prelude.{◌≡◌, ◌↔◌, ◌<◌, length, IsTrue};
ghost use Rattle.sweep_compiler.specs.Agree.{Agree};
ghost use Rattle.sweep_compiler.specs.ByCases.Agree.{begin_of, IsPeriodInterval, contradict};

use meaning::Composite;
use ocpp_scalars::Instant;

/// Whether two schedules, each with its start, have equal limits at each instant that both cover.
/// Schedules with no instant in common agree. Reads each list of periods once. Allocates nothing.
pub fn agree(
    first: &Composite,
    first_start: Instant,
    second: &Composite,
    second_start: Instant,
) -> bool
    ensures { IsTrue result ↔ Agree first.now first_start second.now second_start }
{
    let (firsts, seconds) = (first.periods(), second.periods());
    let (mut one, mut other) = (0, 0);
    while one < firsts.len() && other < seconds.len() {
        let left = PeriodInterval::of(first, first_start, one);
        let right = PeriodInterval::of(second, second_start, other);
        if left.contradicts(&right) {
            return false;
        }
        if left.end <= right.end {
            one += 1;
        } else {
            other += 1;
        }
    }
    true
}

/// The interval of one period, in seconds since 1970, with its limit.
#[derive(Clone, Copy)]
struct PeriodInterval {
    start: u64,
    /// The second after its last one.
    end: u64,
    /// In tenths.
    limit: u32,
}

impl PeriodInterval {
    /// Makes the interval of a period, up to the next one or the end. An audit compares those of
    /// the schedule compiler's schedule and of the one that a charge point reports.
    fn of(schedule: &Composite, start: Instant, place: usize) -> PeriodInterval
        requires inside { place < length schedule.now.periods }
        ensures { IsPeriodInterval schedule.now start place result }
    {
        let limit = schedule.periods()[place].limit;
        PeriodInterval {
            start: start.seconds() + u64::from(begin_of(schedule, place)),
            end: start.seconds() + u64::from(begin_of(schedule, place + 1)),
            limit,
        }
    }

    /// Whether an interval of the other composite schedule that an audit compares shares an instant
    /// with this one and has another limit. Then the two schedules don't agree.
    fn contradicts(&self, other: &PeriodInterval) -> bool
        ensures { result ≡ contradict self.now other.now }
    {
        self.limit != other.limit && self.start < other.end && other.start < self.end
    }
}

/// Returns the second at which a period of a composite schedule begins, or the schedule's end for
/// the index after the last period. For an audit's comparison of two.
fn begin_of(schedule: &Composite, place: usize) -> u32
    ensures { result ≡ begin_of schedule.now place }
{
    match schedule.periods().get(place) {
        Some(period) => period.start,
        None => schedule.duration(),
    }
}
