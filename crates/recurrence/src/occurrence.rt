//! The progress of a profile in an occurrence of its schedule, so that its next period is found at
//! once.

ghost use Rattle.std.specs.Prelude.{◌≡◌, ◌<◌, ◌≤◌, ◌-◌, ◌^◌, ℕ, false, Some, IfSome, IsTrue};
ghost use Rattle.ocpp_scalars.specs.Limits.{last_second};
ghost use Rattle.profile.specs.Kind.{offset_after};
ghost use Rattle.profile.specs.Periods.{are_in_order};
ghost use Rattle.profile.specs.Places.{is_at};
ghost use Rattle.recurrence.specs.ByCases.Occurrence.{IsBegunUpTo, IsFence, IsOccurrence, IsNextPeriod, if_live, is_live_at};

use crate::place::Place;
use ocpp_scalars::Instant;
use profile::{Kind, Period, Profile};

/// An occurrence of a profile's schedule, and its progress.
#[derive(Clone, Copy)]
pub(crate) struct Occurrence {
    /// The second at which it begins.
    pub begin: u64,
    /// The number of its periods that have begun.
    pub begun: usize,
    /// The first later second at which something other than the start of a period may change the
    /// limit.
    pub fence: u64,
    /// Whether a period that has begun sets the limit: the profile is valid and its duration isn't
    /// over.
    pub is_live: bool,
}

/// Returns the occurrence of a (perhaps Recurring) charging profile's schedule at an instant, from
/// which its next change is found at once. Before the anchor it has a fence at 0.
pub(crate) fn occurrence_at(profile: &Profile, base: Instant, instant: Instant) -> Occurrence
    ensures { IsOccurrence profile.now base instant result }
{
    let second = instant.seconds();
    let anchor = profile.anchor(base).seconds();
    let periods = profile.schedule.periods.as_slice();
    if second < anchor {
        return Occurrence {
            begin: second,
            begun: begun_by(periods, 0),
            // Passed already: before the anchor the next place is the anchor or a bound of the
            // validity, which `first_place` finds.
            fence: 0,
            is_live: false,
        };
    }
    let offset = profile.kind.offset_after(second - anchor);
    let begin = second - offset;
    Occurrence {
        begin,
        begun: begun_by(periods, offset),
        fence: fence_after(profile, anchor, begin, second),
        is_live: is_live_at(profile, offset, instant),
    }
}

/// Whether a period of a charging profile that has begun sets the limit at an instant with this
/// offset, when its next change is looked for.
fn is_live_at(profile: &Profile, offset: u64, instant: Instant) -> bool
    ensures { result ≡ is_live_at profile.now offset instant }
{
    if let Some(duration) = profile.schedule.duration {
        if offset >= u64::from(duration) {
            return false;
        }
    }
    profile.is_valid_at(instant)
}

/// Returns the number of a charging schedule's periods that have begun by an offset, to find its
/// next change.
fn begun_by(periods: &[Period], offset: u64) -> usize
    requires ordered { IsTrue (are_in_order periods.now) }
    ensures { IsBegunUpTo periods.now offset result }
{
    periods.partition_point(|period| u64::from(period.start) <= offset)
}

/// Returns the fence of a charging profile's occurrence from `begin` on: the first second after
/// `second` at which its limit may change other than by a period's start.
fn fence_after(profile: &Profile, anchor: u64, begin: u64, second: u64) -> u64
    requires after { anchor ≤ second }
    requires in_calendar { second ≤ last_second }
    requires begin { begin ≡ second - offset_after profile.now.kind (second - anchor) }
    ensures { IsFence profile.now anchor begin second result }
{
    let from = bound_after(profile.valid_from, second);
    let to = bound_after(profile.valid_to, second);
    let end = end_after(profile.schedule.duration, begin, second);
    let round = next_recurrence(profile.kind, anchor, begin, second);
    lesser(lesser(from, to), lesser(end, round))
}

/// Returns a charging profile's validFrom or validTo if it is later than a second, otherwise a
/// number past every instant: its limit can change there next.
fn bound_after(bound: Option<Instant>, second: u64) -> u64
    ensures { (k : ℕ) → second < k → k < result → is_at k bound ≡ false }
{
    match bound {
        Some(bound) if second < bound.seconds() => bound.seconds(),
        _ => u64::MAX,
    }
}

/// Returns the end of a charging schedule that began at `begin` if it is later than `second`,
/// otherwise a number past every instant. A profile's limit can change there next.
fn end_after(duration: Option<u32>, begin: u64, second: u64) -> u64
    requires begun { begin ≤ second }
    requires in_calendar { second ≤ last_second }
    ensures { (k : ℕ) → second < k → k < result → is_at (k - begin) duration ≡ false }
{
    match duration {
        Some(duration) if second < begin + u64::from(duration) => begin + u64::from(duration),
        _ => u64::MAX,
    }
}

/// Returns the second at which a Recurring charging schedule that began at `begin` begins again,
/// where its limit can change next. For other kinds it is past every instant.
fn next_recurrence(kind: Kind, anchor: u64, begin: u64, second: u64) -> u64
    requires after { anchor ≤ second }
    requires in_calendar { second ≤ last_second }
    requires begin { begin ≡ second - offset_after kind (second - anchor) }
    ensures { (k : ℕ) → second < k → k < result
        → offset_after kind (k - anchor) ≡ k - begin }
{
    match kind {
        Kind::Absolute | Kind::Relative => u64::MAX,
        Kind::Recurring(recurrency) => begin + recurrency.length(),
    }
}

/// Returns the lesser of two seconds at which a charging profile's limit may change next.
fn lesser(a: u64, b: u64) -> u64
    ensures one { result ≤ a }
    ensures other { result ≤ b }
{
    if a <= b { a } else { b }
}

/// Returns the start of a charging schedule's period, in seconds from the start of the schedule, to
/// find the next change of the limit.
fn start_of(period: &Period) -> u64
    ensures start { result ≡ period.now.start }
    ensures small { result < 2 ^ 32 }
{
    u64::from(period.start)
}

/// Returns the limit of a charging profile's period that has begun, if it sets one, from a change
/// of the limit on.
fn if_live(is_live: bool, limit: u32) -> Option<u32>
    ensures { result ≡ if_live is_live (Some limit) }
{
    if is_live { Some(limit) } else { None }
}

/// Returns the next change of a charging profile's limit, and its schedule's occurrence from there
/// on, if that is a period's start. It must be before the fence, the next change of another kind.
pub(crate) fn next_period(
    profile: &Profile,
    base: Instant,
    after: Instant,
    last: Instant,
    occurrence: Occurrence,
) -> Option<(Place, Occurrence)>
    requires { IsOccurrence profile.now base after occurrence }
    ensures { IfSome result (λ next.
        IsNextPeriod profile.now base after last next.0 next.1) }
{
    let periods = profile.schedule.periods.as_slice();
    if occurrence.begun >= periods.len() {
        return None;
    }
    let period = periods[occurrence.begun];
    let second = occurrence.begin + start_of(&period);
    if occurrence.fence <= second || last.seconds() < second {
        return None;
    }
    let place = Place {
        instant: Instant::try_new(second)?,
        rate: if_live(occurrence.is_live, period.limit),
    };
    let begun = Occurrence {
        begun: occurrence.begun + 1,
        ..occurrence
    };
    Some((place, begun))
}
