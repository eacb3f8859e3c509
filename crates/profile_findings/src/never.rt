//! Finds the reason why a charging profile never has a rate.

ghost use Rattle.std.specs.Prelude.{◌≡◌, IsTrue, OnSome, Some};
ghost use Rattle.profile_findings.specs.NeverRated.{IsNeverRated, HasNoPeriodBefore, why_never_rated, has_empty_validity, is_valid_before_start, is_valid_after_end, has_no_duration, has_periods_past_duration, has_periods_past_recurrence, start_past};

use profile::{Kind, Period, Profile};

/// The reason why a profile has a rate at no second, whatever its base.
#[derive(Clone, Copy, PartialEq, Eq)]
pub enum NeverRated {
    /// validTo isn't after validFrom.
    EmptyValidity,
    /// validTo isn't after startSchedule.
    ValidBeforeStart,
    /// validFrom isn't before the end of the schedule, by startSchedule and duration.
    ValidAfterEnd,
    /// duration is 0.
    NoDuration,
    /// The first period starts at the end of the duration, or later.
    PeriodsPastDuration,
    /// The first period starts at the end of the day or the week, or later.
    PeriodsPastRecurrence,
}

/// Returns the first cause of [`NeverRated`] that holds, if one does.
pub fn never_rated(profile: &Profile) -> Option<NeverRated>
    ensures cause { result ≡ why_never_rated profile.now }
    ensures never { OnSome result (IsNeverRated profile.now) }
{
    if has_empty_validity(profile) {
        return Some(NeverRated::EmptyValidity);
    }
    if is_valid_before_start(profile) {
        return Some(NeverRated::ValidBeforeStart);
    }
    if is_valid_after_end(profile) {
        return Some(NeverRated::ValidAfterEnd);
    }
    if has_no_duration(profile) {
        return Some(NeverRated::NoDuration);
    }
    if has_periods_past_duration(profile) {
        return Some(NeverRated::PeriodsPastDuration);
    }
    if has_periods_past_recurrence(profile) {
        return Some(NeverRated::PeriodsPastRecurrence);
    }
    None
}

/// Returns whether a point's profile never counts because its validTo isn't after its validFrom. If
/// so, `check` or `call` warns of the profile.
fn has_empty_validity(profile: &Profile) -> bool
    ensures exact { result ≡ has_empty_validity profile.now }
    ensures never { IsTrue result → IsNeverRated profile.now }
{
    match (profile.valid_from, profile.valid_to) {
        (Some(from), Some(to)) => to <= from,
        _ => false,
    }
}

/// Returns whether a point's profile never counts because its validTo isn't after its
/// startSchedule. If so, `check` or `call` warns of the profile.
// This holds for Recurring profiles too, since they don't reach back before startSchedule.
fn is_valid_before_start(profile: &Profile) -> bool
    ensures exact { result ≡ is_valid_before_start profile.now }
    ensures never { IsTrue result → IsNeverRated profile.now }
{
    match (profile.schedule.start, profile.valid_to) {
        (Some(start), Some(to)) => to <= start,
        _ => false,
    }
}

/// Returns whether a point's Absolute profile never counts because its schedule is over before its
/// validFrom. If so, `check` or `call` warns of the profile.
fn is_valid_after_end(profile: &Profile) -> bool
    ensures exact { result ≡ is_valid_after_end profile.now }
    ensures never { IsTrue result → IsNeverRated profile.now }
{
    let (Some(start), Some(duration), Some(from)) = (
        profile.schedule.start,
        profile.schedule.duration,
        profile.valid_from,
    ) else {
        return false;
    };
    match profile.kind {
        Kind::Absolute => {
            start <= from && u64::from(duration) <= from.seconds() - start.seconds()
        }
        // A Recurring schedule begins again after its end; a Relative one has no startSchedule.
        Kind::Recurring(_) | Kind::Relative => false,
    }
}

/// Returns whether a point's profile never counts because the duration of its schedule is 0. If so,
/// `check` or `call` warns of the profile.
fn has_no_duration(profile: &Profile) -> bool
    ensures exact { result ≡ has_no_duration profile.now }
    ensures never { IsTrue result → IsNeverRated profile.now }
{
    match profile.schedule.duration {
        Some(duration) => duration == 0,
        None => false,
    }
}

/// Returns whether a point's profile never counts because no period starts within its schedule's
/// duration. If so, `check` or `call` warns of the profile.
fn has_periods_past_duration(profile: &Profile) -> bool
    ensures exact { result ≡ has_periods_past_duration profile.now }
    ensures never { IsTrue result → IsNeverRated profile.now }
{
    match profile.schedule.duration {
        Some(duration) => start_past(profile, u64::from(duration)),
        None => false,
    }
}

/// Returns whether a point's Recurring profile never counts because no period starts within its day
/// or week. If so, `check` or `call` warns of the profile.
fn has_periods_past_recurrence(profile: &Profile) -> bool
    ensures exact { result ≡ has_periods_past_recurrence profile.now }
    ensures never { IsTrue result → IsNeverRated profile.now }
{
    match profile.kind {
        Kind::Recurring(recurrency) => start_past(profile, recurrency.length()),
        Kind::Absolute | Kind::Relative => false,
    }
}

/// Returns whether each period of a point's profile starts at this offset or later, in seconds.
/// `check` or `call` may then warn that the profile never counts.
fn start_past(profile: &Profile, end: u64) -> bool
    ensures exact { result ≡ start_past profile.now.schedule.periods (Some end) }
    ensures before { IsTrue result → HasNoPeriodBefore profile.now end }
{
    start_from(profile.schedule.periods.as_slice(), end)
}

/// Returns whether each of these periods of a point's profile starts at this offset or later, in
/// seconds. `check` or `call` may then warn that the profile never counts.
fn start_from(periods: &[Period], end: u64) -> bool
    ensures { result ≡ start_past periods.now (Some end) }
{
    periods.iter().all(|period| end <= u64::from(period.start))
}
