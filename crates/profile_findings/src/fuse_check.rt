//! Checks the effect of a call on the fuse limit of its point.

ghost use Rattle.std.specs.Prelude.{◌↔◌, IfOk, IsSome};
ghost use Rattle.profile_findings.specs.Fuse.{IsRaised, IsRaisedOrGone};

use crate::installed_check::{finding_at_end, highest_limit};
use findings::{Finding, Location, Severity, tenths_text};
use messages::unit_name;
use point_book::PointBook;
use profile::{Purpose, Unit};
use std::alloc::{AllocError, Global};

/// Returns the highest limit of a point's ChargePointMaxProfiles, in tenths. None if it has none.
pub fn fuse_limit(book: &PointBook) -> Option<u32> {
    let mut highest = None;
    for row in book.view().rows {
        if row.profile.purpose == Purpose::ChargePointMaxProfile {
            highest = highest.max(Some(highest_limit(row)));
        }
    }
    highest
}

/// Returns a warning if a call to the point of this identity raises or removes its fuse limit.
pub fn check_fuse(
    alloc: Global,
    unit: Unit,
    point: &str,
    before: Option<u32>,
    after: Option<u32>,
) -> Result<Option<Finding>, AllocError>
    ensures { IfOk result (λ found. IsSome found ↔ IsRaisedOrGone before after) }
{
    let Some(was) = before else {
        return Ok(None);
    };
    let message = match after {
        None => gone_message(alloc, unit, was)?,
        Some(now) if now > was => raised_message(alloc, unit, was, now)?,
        Some(_) => return Ok(None),
    };
    let finding = finding_at_end(alloc, Severity::Warning, point, message)?;
    Ok(Some(finding))
}

/// Returns a remark on the line of this number if it raises the fuse limit of its point.
// `check` reads lines that are written already, so it only remarks; `call` warns before it sends.
pub fn check_raise(
    alloc: Global,
    unit: Unit,
    line: u64,
    before: Option<u32>,
    after: Option<u32>,
) -> Result<Option<Finding>, AllocError>
    ensures { IfOk result (λ found. IsSome found ↔ IsRaised before after) }
{
    let (Some(was), Some(now)) = (before, after) else {
        return Ok(None);
    };
    if now <= was {
        return Ok(None);
    }
    let message = raised_message(alloc, unit, was, now)?;
    Ok(Some(Finding::remark(Location::line(line), message)))
}

/// Makes the remark that the point of this identity, unlike most of its site, has no fuse limit.
pub fn check_unlimited(alloc: Global, point: &str) -> Result<Finding, AllocError> {
    let message = String::from_str(
        alloc,
        "it has no ChargePointMaxProfile, though most points of the site do",
    )?;
    finding_at_end(alloc, Severity::Remark, point, message)
}

/// Describes, for a warning before `call` sends a message, that it removes the point's fuse limit
/// (its ChargePointMaxProfiles).
fn gone_message(alloc: Global, unit: Unit, was: u32) -> Result<String, AllocError> {
    let was = tenths_text(alloc, u64::from(was))?;
    let unit = unit_name(unit);
    format!(in alloc;
        "this leaves the point without a ChargePointMaxProfile; it had up to {was} {unit}"
    )
}

/// Describes, for a finding of `check` or `call`, the raise of a point's fuse limit by its
/// ChargePointMaxProfiles.
fn raised_message(alloc: Global, unit: Unit, was: u32, now: u32) -> Result<String, AllocError> {
    let was = tenths_text(alloc, u64::from(was))?;
    let now = tenths_text(alloc, u64::from(now))?;
    let unit = unit_name(unit);
    format!(in alloc;
        "this raises what the point's ChargePointMaxProfiles allow at most from {was} to {now} {unit}"
    )
}
