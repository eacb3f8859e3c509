//! An upper bound on the periods of a requested schedule.

use meaning::{Ask, View};
use ocpp_scalars::Instant;
use profile::{Kind, Profile, Purpose, Row, Schedule};

/// Returns an upper bound on the periods of a requested schedule. After its first second a limit
/// changes only at a place of a profile (chapter 7, ChargingProfile): where its validity begins or
/// ends, or where its schedule turns.
pub fn most_periods(view: &View<'_>, ask: &Ask) -> u64 {
    let mut most: u64 = 1;
    for row in view.rows {
        most = most.saturating_add(places_of_row(view, ask, row));
    }
    most
}

/// Returns an upper bound on the changes of the limit that an installed profile makes in a replayed
/// script's requested schedule, over the request's connectors.
fn places_of_row(view: &View<'_>, ask: &Ask, row: &Row) -> u64 {
    if row.profile.purpose == Purpose::ChargePointMaxProfile {
        return places_within(&row.profile, row.base(None, ask.start), ask);
    }
    if ask.connector != 0 {
        let started = view.active_since(ask.connector as usize);
        return places_within(&row.profile, row.base(started, ask.start), ask);
    }
    let mut most: u64 = 0;
    for started in view.starts {
        if started.is_some() {
            let base = row.base(*started, ask.start);
            most = most.saturating_add(places_within(&row.profile, base, ask));
        }
    }
    most
}

/// Returns an upper bound on the limit's changes that a profile makes after the first second of a
/// replayed script's requested schedule.
fn places_within(profile: &Profile, base: Instant, ask: &Ask) -> u64 {
    let schedule = &profile.schedule;
    let times = match profile.kind {
        // Each offset comes once in each day or week, and so at most once in a part of one.
        Kind::Recurring(recurrency) => u64::from(ask.duration).div_ceil(recurrency.length()),
        Kind::Absolute | Kind::Relative => 1,
    };
    let turns = turn_count(schedule).saturating_mul(times);
    let first = u64::from(is_turn(profile, base, ask.start));
    let ends = u64::from(profile.valid_from.is_some()) + u64::from(profile.valid_to.is_some());
    turns.saturating_sub(first).saturating_add(ends)
}

/// Returns an upper bound on the offsets at which a charging schedule changes, for a script's
/// replay: its beginning, its periods' starts and its end.
fn turn_count(schedule: &Schedule) -> u64 {
    let periods = schedule.periods.as_slice();
    let begins_before = periods.first().is_none_or(|first| first.start > 0);
    (periods.len() as u64)
        .saturating_add(u64::from(begins_before))
        .saturating_add(u64::from(schedule.duration.is_some()))
}

/// Returns whether a profile's schedule begins, ends or changes its period at an instant, for the
/// upper bound on the periods of a replayed script's schedule.
fn is_turn(profile: &Profile, base: Instant, instant: Instant) -> bool {
    let Some(offset) = profile.offset(base, instant) else {
        return false;
    };
    let schedule = &profile.schedule;
    offset == 0
        || schedule
            .duration
            .is_some_and(|duration| u64::from(duration) == offset)
        || schedule
            .periods
            .as_slice()
            .iter()
            .any(|period| u64::from(period.start) == offset)
}
