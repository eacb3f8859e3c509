//! Checks the profiles that a point has when a script ends, though each line by itself is right.

use crate::hidden::is_hidden_everywhere;
use crate::together::{Excess, worst_excess};
use findings::{Finding, Location, Severity, instant_text, tenths_text};
use meaning::View;
use messages::unit_name;
use point_book::PointBook;
use profile::{Purpose, Row, Unit};
use std::alloc::{AllocError, Global};

/// Checks the profiles of the point of this identity. Finds TxDefaultProfiles at connector 0 that
/// each connector's own one hides, and ChargePointMaxProfiles that one of a higher level lifts.
/// Also finds the instant at which the connectors' schedules together exceed the
/// ChargePointMaxProfile most. That is a remark if no profile of a connector prevails there: then
/// the ceilings of the site file alone exceed it.
pub fn check_installed_profiles(
    alloc: Global,
    unit: Unit,
    point: &str,
    book: &PointBook,
) -> Result<Vec<Finding>, AllocError> {
    let view = book.view();
    let mut findings = Vec::new(alloc);
    add_hidden(alloc, point, &view, &mut findings)?;
    add_lifted(alloc, unit, point, &view, &mut findings)?;
    add_excess(alloc, unit, point, book, &mut findings)?;
    Ok(findings)
}

/// Adds to the findings of `check` or `call` a warning for each TxDefaultProfile of a point at
/// connector 0 that may prevail at no connector.
fn add_hidden(
    alloc: Global,
    point: &str,
    view: &View<'_>,
    findings: &mut Vec<Finding>,
) -> Result<(), AllocError> {
    for row in view.rows {
        if is_hidden_everywhere(view, row) {
            let message = hidden_message(alloc, row)?;
            findings.push(finding_at_end(alloc, Severity::Warning, point, message)?)?;
        }
    }
    Ok(())
}

/// Adds to the findings of `check` or `call` a warning for each ChargePointMaxProfile of a point
/// that one of a higher stack level may exceed. It names the first such one.
fn add_lifted(
    alloc: Global,
    unit: Unit,
    point: &str,
    view: &View<'_>,
    findings: &mut Vec<Finding>,
) -> Result<(), AllocError> {
    for low in view.rows {
        if let Some(high) = view.rows.iter().find(|high| lifts(high, low)) {
            let message = lifted_message(alloc, unit, high, low)?;
            findings.push(finding_at_end(alloc, Severity::Warning, point, message)?)?;
        }
    }
    Ok(())
}

/// Returns whether a point's ChargePointMaxProfile may allow more than one that it overrides, for a
/// warning of `check` or `call`. Where both have a limit, only the higher stack level counts (OCPP
/// 1.6, chapter 3.13).
// Only the extremes are compared, so the two profiles needn't have a limit at the same time.
fn lifts(high: &Row, low: &Row) -> bool {
    high.profile.purpose == Purpose::ChargePointMaxProfile
        && low.profile.purpose == Purpose::ChargePointMaxProfile
        && high.profile.stack_level > low.profile.stack_level
        && highest_limit(high) > lowest_limit(low)
}

/// Returns the highest limit in the periods of an installed charging profile, in tenths, for a
/// finding of `check` or `call`.
pub(crate) fn highest_limit(row: &Row) -> u32 {
    let mut highest = 0;
    for period in row.profile.schedule.periods.as_slice() {
        highest = period.limit.max(highest);
    }
    highest
}

/// Returns the lowest limit in the periods of an installed charging profile, in tenths, for a
/// finding of `check` or `call`.
fn lowest_limit(row: &Row) -> u32 {
    let mut lowest = u32::MAX;
    for period in row.profile.schedule.periods.as_slice() {
        lowest = period.limit.min(lowest);
    }
    lowest
}

/// Adds to the findings of `check` or `call` that a point's connectors may draw more together than
/// its ChargePointMaxProfile allows, if they may.
fn add_excess(
    alloc: Global,
    unit: Unit,
    point: &str,
    book: &PointBook,
    findings: &mut Vec<Finding>,
) -> Result<(), AllocError> {
    let excess = match worst_excess(alloc, book) {
        Ok(Some(excess)) => excess,
        Ok(None) => return Ok(()),
        Err(error) => return Err(error),
    };
    // The ceilings of most points add up to more than the point may draw: alone they are a remark.
    let severity = if excess.is_scheduled {
        Severity::Warning
    } else {
        Severity::Remark
    };
    let message = excess_message(alloc, unit, &excess)?;
    findings.push(finding_at_end(alloc, severity, point, message)?)?;
    Ok(())
}

/// Makes a finding of `check` or `call` in the profiles of the point of this identity after a
/// script, a journal or a call to be sent.
pub(crate) fn finding_at_end(
    alloc: Global,
    severity: Severity,
    point: &str,
    message: String,
) -> Result<Finding, AllocError> {
    Ok(Finding {
        severity,
        place: Location::End(String::from_str(alloc, point)?),
        message,
    })
}

/// Describes, for a warning of `check` or `call`, a TxDefaultProfile at connector 0 that counts
/// nowhere, since each connector has its own one.
fn hidden_message(alloc: Global, row: &Row) -> Result<String, AllocError> {
    let id = row.profile.id;
    let level = row.profile.stack_level;
    format!(in alloc;
        "TxDefaultProfile {id} at connector 0 never counts: each connector has a TxDefaultProfile of its own at stack level {level}, which hides it also while that one has no limit"
    )
}

/// Describes, for a warning of `check` or `call`, a ChargePointMaxProfile that allows more than
/// another one of a lower stack level.
fn lifted_message(alloc: Global, unit: Unit, high: &Row, low: &Row) -> Result<String, AllocError> {
    let (above, below) = (high.profile.id, low.profile.id);
    let most = limit_text(alloc, unit, u64::from(highest_limit(high)))?;
    let least = limit_text(alloc, unit, u64::from(lowest_limit(low)))?;
    format!(in alloc;
        "ChargePointMaxProfile {above} allows up to {most}, and {below} only {least}: while {above} has a limit, {below} doesn't count, since its stack level is lower"
    )
}

/// Writes a limit or a sum of limits, given in tenths, with its unit, for a finding of `check` or
/// `call`.
fn limit_text(alloc: Global, unit: Unit, tenths: u64) -> Result<String, AllocError> {
    let number = tenths_text(alloc, tenths)?;
    let unit = unit_name(unit);
    format!(in alloc; "{number} {unit}")
}

/// Describes, for a finding of `check` or `call`, connectors that may draw more together than the
/// ChargePointMaxProfile of their point allows.
fn excess_message(alloc: Global, unit: Unit, excess: &Excess<'_>) -> Result<String, AllocError> {
    let drawn = drawn_message(alloc, unit, excess)?;
    let limit = limit_text(alloc, unit, u64::from(excess.limit))?;
    let id = excess.most.profile.id;
    format!(in alloc;
        "if all connectors charge, {drawn}, more than the {limit} of ChargePointMaxProfile {id}: nothing here divides that among them"
    )
}

/// Describes, for a finding of `check` or `call`, what a point's connectors may draw together.
fn drawn_message(alloc: Global, unit: Unit, excess: &Excess<'_>) -> Result<String, AllocError> {
    let what = if excess.is_scheduled {
        "schedules"
    } else {
        "ceilings"
    };
    let together = limit_text(alloc, unit, excess.together)?;
    let since = instant_text(alloc, excess.instant)?;
    format!(in alloc; "their {what} let them draw {together} together from {since} on")
}
