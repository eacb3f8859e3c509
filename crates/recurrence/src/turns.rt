//! The next turn of a schedule: its start, the start of one of its periods, or its end.

ghost use Rattle.std.specs.Prelude.{◌≡◌, ℕ, ◌+◌, ◌<◌, ◌≤◌, ◌==◌, ◌%◌, ◌^◌, Option, Some, IfSome, IsTrue};
ghost use Rattle.ocpp_scalars.specs.Limits.{last_second};
ghost use Rattle.profile.specs.Kind.{offset_after};
ghost use Rattle.profile.specs.Limits.{week};
ghost use Rattle.profile.specs.Periods.{are_in_order};
ghost use Rattle.profile.specs.Places.{is_at, is_turn};
ghost use Rattle.recurrence.specs.ByCases.Next.{IsNext, is_start};

use crate::next::{later, sooner};
use profile::{Kind, Period, Schedule};

/// Returns the next turn of a charging schedule of a kind, Recurring or not, in seconds after its
/// anchor. A turn is a start, an end, or the start of a period.
pub(crate) fn next_turn_after(kind: Kind, schedule: &Schedule, seconds: u64) -> Option<u64>
    requires in_calendar { seconds ≤ last_second }
    ensures next { IsNext (λ (k : ℕ). is_turn schedule.now (offset_after kind k)) seconds result }
    ensures small { IfSome result (λ next. next < 2 ^ 40) }
{
    match kind {
        Kind::Absolute | Kind::Relative => next_turn_in(schedule, seconds),
        Kind::Recurring(recurrency) => {
            Some(next_recurring_turn(schedule, recurrency.length(), seconds))
        }
    }
}

/// Returns the next turn of a charging schedule that begins again every `length` seconds, in
/// seconds after its anchor: a start of a period, the end, or the start of the next occurrence.
fn next_recurring_turn(schedule: &Schedule, length: u64, seconds: u64) -> u64
    requires some { 0 < length }
    requires short { length ≤ week }
    requires in_calendar { seconds ≤ last_second }
    ensures next { IsNext (λ (k : ℕ). is_turn schedule.now (k % length)) seconds (Some result) }
    ensures small { result ≤ seconds + length }
{
    let offset = seconds % length;
    let begun = seconds - offset;
    match next_turn_in(schedule, offset) {
        // A period that starts, or a duration that ends, at or past the recurrence is never
        // reached: the schedule begins again first.
        Some(turn) if turn < length => begun + turn,
        _ => begun + length,
    }
}

/// Returns the next turn of a charging schedule after an offset in one occurrence: the start of a
/// period, or the end of the schedule. Its limit can change there.
fn next_turn_in(schedule: &Schedule, offset: u64) -> Option<u64>
    ensures next { IsNext (is_turn schedule.now) offset result }
    ensures small { IfSome result (λ next. next < 2 ^ 32) }
{
    let start = next_start(schedule.periods.as_slice(), offset);
    sooner(start, next_end(schedule.duration, offset))
}

/// Returns the end of a charging schedule, in seconds from its start, if it is after an offset: its
/// limit can change there next.
fn next_end(duration: Option<u32>, offset: u64) -> Option<u64>
    ensures next { IsNext (λ (k : ℕ). is_at k duration) offset result }
    ensures small { IfSome result (λ next. next < 2 ^ 32) }
{
    later(u64::from(duration?), offset)
}

/// Returns the first start of a charging schedule's period after an offset, in seconds from the
/// schedule's start: its limit can change there next.
fn next_start(periods: &[Period], offset: u64) -> Option<u64>
    requires ordered { IsTrue (are_in_order periods.now) }
    ensures next { IsNext (is_start periods.now) offset result }
    ensures small { IfSome result (λ next. next < 2 ^ 32) }
{
    // They are in order, so those that start up to the offset come first.
    let begun = periods.partition_point(|period| u64::from(period.start) <= offset);
    if begun == periods.len() {
        return None;
    }
    Some(u64::from(periods[begun].start))
}
