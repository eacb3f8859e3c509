//! The offset of a zone's clock from UTC, and its changes.

use crate::zone_fault::ZoneFault;
use explain_pages::ClockShift;
use jiff_core::{Error, Timestamp};
use jiff_tz::Tzif;
use std::alloc::Global;

/// The maximum number of transitions read for a request.
// In 31 days, the longest request, no clock changes more than twice: a file with more is faulty.
const MAX_CHANGES: usize = 64;

/// Returns the offset of a zone's clock from UTC between two moments, both in seconds since 1970:
/// first the one at `from`, and then each change up to `until`. `bytes` are the zone's TZif file.
pub fn clock_shifts(
    alloc: Global,
    bytes: &[u8],
    from: u64,
    until: u64,
) -> Result<Vec<ClockShift>, ZoneFault> {
    let zone = match Tzif::parse(alloc, None, bytes) {
        Ok(zone) => zone,
        Err(Error::OutOfMemory) => return Err(ZoneFault::OutOfMemory),
        Err(_) => return Err(ZoneFault::NoZone),
    };
    let (start, end) = (timestamp(from)?, timestamp(until)?);
    let ahead = zone.to_offset(start).seconds;
    // Local times count their seconds from 1970 too, and can't be negative.
    if from.checked_add_signed(i64::from(ahead)).is_none() {
        return Err(ZoneFault::Calendar);
    }
    let mut shifts = Vec::new(alloc);
    shifts.push(ClockShift { from, ahead })?;
    push_changes(&mut shifts, &zone, start, end)?;
    Ok(shifts)
}

/// Appends each change of a time zone's offset from UTC, from after `start` up to `end`, for the
/// local times in `explain`'s table.
fn push_changes(
    shifts: &mut Vec<ClockShift>,
    zone: &Tzif,
    start: Timestamp,
    end: Timestamp,
) -> Result<(), ZoneFault> {
    let mut at = start;
    let mut before = zone.to_offset(start).seconds;
    for _ in 0..MAX_CHANGES {
        let Some(change) = zone.next_transition(at) else {
            return Ok(());
        };
        at = change.timestamp;
        if at.nanosecond > end.nanosecond {
            return Ok(());
        }
        let ahead = zone.to_offset(at).seconds;
        // A transition may change only the name of the time or its summer-time flag.
        if ahead != before {
            shifts.push(ClockShift {
                from: second(at)?,
                ahead,
            })?;
            before = ahead;
        }
    }
    Err(ZoneFault::NoZone)
}

/// Converts seconds since 1970 to a timestamp, to look up a time zone's offset from UTC for the
/// local times in `explain`'s table.
fn timestamp(moment: u64) -> Result<Timestamp, ZoneFault> {
    match Timestamp::from_nanosecond(i128::from(moment) * 1_000_000_000) {
        Ok(timestamp) => Ok(timestamp),
        Err(_) => Err(ZoneFault::Calendar),
    }
}

/// Converts the timestamp of a time zone's clock change to seconds since 1970, for the local times
/// in `explain`'s table.
fn second(timestamp: Timestamp) -> Result<u64, ZoneFault> {
    match u64::try_from(timestamp.floor_second()) {
        Ok(second) => Ok(second),
        Err(_) => Err(ZoneFault::Calendar),
    }
}
