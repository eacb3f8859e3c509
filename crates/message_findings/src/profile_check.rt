//! Checks an install, and warns of a profile that probably does something unintended.

use crate::call_check::{place_found, point_of, refuse_point, reject, reject_found};
use crate::line_text::LineMessage;
use crate::report::Report;
use crate::sentences::never_sentence;
use findings::{instant_text, tenths_text};
use ocpp_scalars::{Instant, Refusal};
use profile::{Kind, Period, Profile, ProfileKind, ProfileParts, Purpose, Recurrency};
use profile_findings::never_rated;
use site_rules::{SitePoint, admit};
use std::alloc::{AllocError, Global};

/// Checks, for `check` or `call`, a SetChargingProfile in a line of a script or a journal: its
/// refusal by the site, and its probable mistakes. Its fields are valid.
pub(crate) fn check_install(
    report: &mut Report,
    text: &LineMessage<'_>,
    connector: u32,
    parts: ProfileParts,
) {
    let Some(profile) = check_parts(report, parts) else {
        return;
    };
    match admit(text.site, text.point, connector, &profile) {
        Err(Refusal::UnknownPoint) => refuse_point(report, text),
        Err(refusal) => {
            let found = place_found(report.alloc, text, connector, refusal);
            reject_found(report, refusal, found);
        },
        Ok(()) => warn_ceiling(report, text, connector, &profile),
    }
    warn_transaction(report, &profile);
    warn_rates(report, text.moment, &profile);
}

/// Checks the profile of an operator's SetChargingProfile by itself before `call` sends it, without
/// the site or an instant. Its fields are valid.
pub(crate) fn check_sent_profile(report: &mut Report, parts: ProfileParts) {
    if let Some(profile) = check_parts(report, parts) {
        warn_transaction(report, &profile);
        warn_never_rated(report, &profile);
    }
}

/// Makes a charging profile of the fields in an operator's message, or reports their refusal.
/// Warns, for `check` of a script or `call`, of fields without an effect.
pub(crate) fn check_parts(report: &mut Report, parts: ProfileParts) -> Option<Profile> {
    // This comes first, since a profile drops the fields that have no effect.
    warn_dropped(report, &parts);
    match Profile::try_new(parts) {
        Ok(profile) => Some(profile),
        Err((refusal, parts)) => {
            refuse_parts(report, refusal, &parts);
            None
        }
    }
}

/// Warns, before `call` sends it, of a charging profile in an operator's message that never sets a
/// limit, with the reason.
pub(crate) fn warn_never_rated(report: &mut Report, profile: &Profile) {
    if let Some(why) = never_rated(profile) {
        report.warn_text_of(profile.purpose, profile.id, never_sentence(why));
    }
}

/// Warns, for `check` of a script or `call`, of fields in an operator's message that have no effect
/// with the charging profile's purpose or kind.
fn warn_dropped(report: &mut Report, parts: &ProfileParts) {
    let (purpose, id) = (parts.purpose, parts.id);
    if parts.transaction.is_some() && !matches!(purpose, Purpose::TxProfile) {
        let message = "transactionId has no effect except in a TxProfile";
        report.warn_text_of(purpose, id, message);
    }
    if parts.recurrency.is_some() && parts.kind != ProfileKind::Recurring {
        let message = "recurrencyKind has no effect unless chargingProfileKind is Recurring";
        report.warn_text_of(purpose, id, message);
    }
    if parts.schedule.start.is_some() && parts.kind == ProfileKind::Relative {
        let message =
            "startSchedule has no effect in a Relative profile, which begins with its transaction";
        report.warn_text_of(purpose, id, message);
    }
}

/// Reports, for `check` of a script or `call`, the refusal of a charging profile that isn't well
/// formed, with the value at fault.
fn refuse_parts(report: &mut Report, refusal: Refusal, parts: &ProfileParts) {
    let alloc = report.alloc;
    let periods = parts.schedule.periods.as_slice();
    let found = match refusal {
        Refusal::LevelTooHigh => format!(in alloc; "stackLevel is {}", parts.stack_level),
        Refusal::TooManyPeriods => format!(in alloc; "there are {}", periods.len()),
        Refusal::PeriodsOutOfOrder => out_of_order(alloc, periods),
        _ => return reject(report, refusal, None),
    };
    reject_found(report, refusal, found);
}

/// Describes, for `check` of a script or `call`, the first chargingSchedulePeriod of a profile that
/// doesn't start later than the one before it.
fn out_of_order(alloc: Global, periods: &[Period]) -> Result<String, AllocError> {
    let mut before: Option<u32> = None;
    for (index, period) in periods.iter().enumerate() {
        let start = period.start;
        if let Some(earlier) = before {
            if start <= earlier {
                return format!(in alloc;
                    "chargingSchedulePeriod[{index}] starts at {start}, and the one before it at {earlier}"
                );
            }
        }
        before = Some(start);
    }
    Ok(String::new(alloc))
}

/// Warns, for `check` of a script or `call`, of an operator's TxProfile without a transactionId,
/// which the point may take for the next car.
// The call may wait for the point until the transaction has ended, which doesn't cancel it.
fn warn_transaction(report: &mut Report, profile: &Profile) {
    if matches!(profile.purpose, Purpose::TxProfile) && profile.transaction.is_none() {
        report.warn_text_of(
            profile.purpose,
            profile.id,
            "it has no transactionId: where its transaction ends before the call reaches the point, the point may take it for the NEXT car",
        );
    }
}

/// Warns, for `check` of a script or `call`, of an operator's profile that never lowers a limit:
/// the ceilings of the site file are below it.
pub(crate) fn warn_ceiling(
    report: &mut Report,
    text: &LineMessage<'_>,
    connector: u32,
    profile: &Profile,
) {
    let Some(point) = point_of(text) else {
        return;
    };
    let ceiling = highest_ceiling(point, connector, profile.purpose);
    let periods = profile.schedule.periods.as_slice();
    if periods.iter().all(|period| period.limit > ceiling) {
        let message = ceiling_message(report.alloc, ceiling);
        report.warn_of(profile.purpose, profile.id, message);
    }
}

/// Describes, for `check` of a script or `call`, a profile whose limits are all above this ceiling
/// of the site file, in tenths.
fn ceiling_message(alloc: Global, ceiling: u32) -> Result<String, AllocError> {
    let ceiling = tenths_text(alloc, u64::from(ceiling))?;
    format!(in alloc;
        "each of its limits is above the ceiling of the site file there, {ceiling}: it never lowers anything"
    )
}

/// Returns, for `check` of a script or `call`, the highest ceiling that an operator's profile could
/// lower, in tenths. It is the point's for a ChargePointMaxProfile, otherwise the lesser of the
/// point's and the connector's. At connector 0 the highest ceiling of a connector counts.
fn highest_ceiling(point: SitePoint<'_>, connector: u32, purpose: Purpose) -> u32 {
    if matches!(purpose, Purpose::ChargePointMaxProfile) {
        return point.ceiling;
    }
    let mut highest = 0;
    for (index, ceiling) in point.ceilings.iter().enumerate() {
        if connector == 0 || index.saturating_add(1) == connector as usize {
            highest = highest.max(*ceiling);
        }
    }
    highest.min(point.ceiling)
}

/// Warns, for `check` of a script or `call`, of a charging profile in an operator's message that
/// never sets a limit. Also warns if it sets none at times that probably weren't meant.
pub(crate) fn warn_rates(report: &mut Report, moment: Instant, profile: &Profile) {
    if let Some(why) = never_rated(profile) {
        return report.warn_text_of(profile.purpose, profile.id, never_sentence(why));
    }
    if let Some(end) = profile.valid_to {
        if end <= moment {
            let message = over_message(report.alloc, end);
            report.warn_of(profile.purpose, profile.id, message);
        }
    }
    if let Some(duration) = profile.schedule.duration {
        warn_past(report, profile, "duration", u64::from(duration));
    }
    match profile.kind {
        Kind::Recurring(recurrency) => warn_recurrence(report, profile, recurrency),
        Kind::Absolute | Kind::Relative => {}
    }
}

/// Describes, for a warning of `check` on a script or of `call`, an operator's profile whose
/// validTo is over when it is installed.
fn over_message(alloc: Global, end: Instant) -> Result<String, AllocError> {
    let end = instant_text(alloc, end)?;
    format!(in alloc;
        "validTo, {end}, is over when the profile is installed: no later schedule counts it"
    )
}

/// Warns, for `check` of a script or `call`, of the first chargingSchedulePeriod in an operator's
/// message that starts at this offset or later, in seconds. The duration, the day or the week is
/// over then.
fn warn_past(report: &mut Report, profile: &Profile, whose: &str, end: u64) {
    for (index, period) in profile.schedule.periods.as_slice().iter().enumerate() {
        let start = period.start;
        if u64::from(start) >= end {
            let message = format!(in report.alloc;
                "chargingSchedulePeriod[{index}] starts at {start} s, when the {whose} of {end} s is over: it never counts"
            );
            return report.warn_of(profile.purpose, profile.id, message);
        }
    }
}

/// Warns, for `check` of a script or `call`, of a Daily or Weekly schedule in an operator's
/// message: of its parts after its day or week, and of its gaps.
fn warn_recurrence(report: &mut Report, profile: &Profile, recurrency: Recurrency) {
    let length = recurrency.length();
    let unit = match recurrency {
        Recurrency::Daily => "day",
        Recurrency::Weekly => "week",
    };
    let end = profile.schedule.duration.map_or(length, u64::from);
    // With a shorter duration, the period has its warning already.
    if end >= length {
        warn_past(report, profile, unit, length);
    }
    if end > length {
        let message = format!(in report.alloc;
            "the duration of {end} s is longer than the {unit} of {length} s, which begins anew all the same"
        );
        report.warn_of(profile.purpose, profile.id, message);
    }
    warn_gaps(report, profile, recurrency);
}

/// Warns, for `check` of a script or `call`, of the gaps of a Daily or Weekly schedule in an
/// operator's message: after its duration, and before its first period.
fn warn_gaps(report: &mut Report, profile: &Profile, recurrency: Recurrency) {
    let length = recurrency.length();
    let end = profile.schedule.duration.map_or(length, u64::from);
    if end < length {
        warn_gap(report, profile, recurrency, end, length);
    }
    match profile.schedule.periods.as_slice().first() {
        Some(first) if first.start > 0 => {
            warn_gap(report, profile, recurrency, 0, u64::from(first.start));
        }
        _ => {}
    }
}

/// Warns, for `check` of a script or `call`, that a Daily or Weekly profile sets no limit between
/// two offsets of its day or week.
fn warn_gap(report: &mut Report, profile: &Profile, recurrency: Recurrency, from: u64, to: u64) {
    let Ok(when) = gap_text(report.alloc, profile, recurrency, from, to) else {
        return report.fail();
    };
    let message = format!(in report.alloc;
        "it sets no limit {when}: the profile below it counts then, or none"
    );
    report.warn_of(profile.purpose, profile.id, message);
}

/// Describes, for a warning of `check` on a script or of `call`, when an operator's Recurring
/// profile sets no limit in each day or week. Writes times of the clock if those are known,
/// otherwise offsets in seconds.
fn gap_text(
    alloc: Global,
    profile: &Profile,
    recurrency: Recurrency,
    from: u64,
    to: u64,
) -> Result<String, AllocError> {
    let clock = match (recurrency, profile.schedule.start) {
        (Recurrency::Daily, Some(start)) => clock_text(alloc, start, from, to)?,
        _ => None,
    };
    match (clock, recurrency) {
        (Some(clock), _) => Ok(clock),
        (None, Recurrency::Daily) => format!(in alloc; "from {from} s to {to} s of each day"),
        (None, Recurrency::Weekly) => format!(in alloc; "from {from} s to {to} s of each week"),
    }
}

/// Describes when an operator's Daily profile sets no limit each day, between two offsets from its
/// startSchedule. `check` of a script or `call` warns of that. None if one offset leads past the
/// calendar.
fn clock_text(
    alloc: Global,
    start: Instant,
    from: u64,
    to: u64,
) -> Result<Option<String>, AllocError> {
    let (Some(from), Some(to)) = (
        Instant::try_new(start.seconds().saturating_add(from)),
        Instant::try_new(start.seconds().saturating_add(to)),
    ) else {
        return Ok(None);
    };
    let (from, to) = (instant_text(alloc, from)?, instant_text(alloc, to)?);
    match (time_in(from.as_str()), time_in(to.as_str())) {
        (Some(from), Some(to)) => {
            Ok(Some(format!(in alloc; "from {from} to {to} UTC of each day")?))
        }
        _ => Ok(None),
    }
}

/// Returns the hour and the minute in the text of an instant, and the second unless it is 0. A
/// warning of `check` on a script or of `call` about a Daily profile has them.
fn time_in(instant: &str) -> Option<&str> {
    let (_, time) = instant.split_once('T')?;
    let time = time.strip_suffix('Z')?;
    Some(time.strip_suffix(":00").unwrap_or(time))
}
