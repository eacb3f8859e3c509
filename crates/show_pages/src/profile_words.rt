//! The cells of a profile in a table.

use crate::words::{instant_text, push_seconds, tenths_text, text};
use messages::{kind_name, recurrency_name, unit_name};
use ocpp_scalars::Instant;
use page_text::Page;
use profile::{Kind, Profile, Purpose, Row};
use std::alloc::{AllocError, Global};

/// The maximum number of periods that a table shows of a schedule.
const SHOWN_PERIODS: usize = 6;

/// Returns the kind in at most two words, such as `Recurring Daily`.
pub fn kind_text(alloc: Global, kind: Kind) -> Result<String, AllocError> {
    let name = kind_name(kind);
    match recurrency_name(kind) {
        Some(recurrency) => format!(in alloc; "{name} {recurrency}"),
        None => text(alloc, name),
    }
}

/// Returns from when a row counts: the later of validFrom and the start of its schedule. `started`
/// is the start of the active transaction at the row's connector.
pub fn from_text(alloc: Global, row: &Row, started: Option<Instant>) -> Result<String, AllocError> {
    match (start_of(row, started), row.profile.valid_from) {
        (Some(start), Some(from)) => instant_text(alloc, start.max(from)),
        (Some(start), None) => instant_text(alloc, start),
        (None, Some(from)) => {
            let from = instant_text(alloc, from)?;
            format!(in alloc; "a transaction's start, {from} at the earliest")
        }
        (None, None) => text(alloc, "a transaction's start"),
    }
}

/// Returns the start of a profile's schedule for `show`'s table of a point's profiles: its
/// startSchedule, if any. Otherwise it is the install for a ChargePointMaxProfile, and the start of
/// a transaction for any other.
fn start_of(row: &Row, started: Option<Instant>) -> Option<Instant> {
    match (row.profile.schedule.start, row.profile.purpose) {
        (Some(start), _) => Some(start),
        (None, Purpose::ChargePointMaxProfile) => Some(row.moment),
        (None, Purpose::TxDefaultProfile | Purpose::TxProfile) => started,
    }
}

/// Returns until when a row counts: validTo or the end of a schedule that doesn't recur, whichever
/// is earlier.
pub fn until_text(
    alloc: Global,
    row: &Row,
    started: Option<Instant>,
) -> Result<String, AllocError> {
    match (end_of(row, started), row.profile.valid_to) {
        (Some(end), Some(to)) => instant_text(alloc, end.min(to)),
        (Some(end), None) => instant_text(alloc, end),
        (None, Some(to)) => instant_text(alloc, to),
        (None, None) => text(alloc, "-"),
    }
}

/// Returns the end of a profile's schedule for `show`'s table of profiles, if it has one within the
/// calendar.
fn end_of(row: &Row, started: Option<Instant>) -> Option<Instant> {
    // The schedule begins again with each recurrence, so its duration doesn't end it.
    if recurrency_name(row.profile.kind).is_some() {
        return None;
    }
    let start = start_of(row, started)?;
    let duration = row.profile.schedule.duration?;
    Instant::try_new(start.seconds() + u64::from(duration))
}

/// Returns the periods of a profile in short, such as `0 s 16.0 A, 8 h 6.0 A`, and the end of its
/// duration.
pub fn periods_text(alloc: Global, profile: &Profile) -> Result<String, AllocError> {
    let unit = unit_name(profile.schedule.unit);
    let periods = profile.schedule.periods.as_slice();
    let mut page = Page::new(alloc);
    for (place, period) in periods.iter().enumerate() {
        if place == SHOWN_PERIODS {
            let count = periods.len();
            write!(page, " .. ({count} periods)");
            break;
        }
        if place > 0 {
            page.push_str(", ");
        }
        push_seconds(&mut page, period.start);
        page.push(' ');
        page.push_made(tenths_text(alloc, period.limit));
        write!(page, " {unit}");
    }
    if let Some(duration) = profile.schedule.duration {
        page.push_str(", ");
        push_seconds(&mut page, duration);
        page.push_str(" end");
    }
    page.finish()
}
