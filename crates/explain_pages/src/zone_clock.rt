//! The clock of a time zone.

use crate::clock::push_two_digits;
use crate::markup::push_number;
use page_text::Page;

/// The offset of a clock from UTC from a moment on.
#[derive(Clone, Copy, PartialEq, Eq)]
pub struct ClockShift {
    /// The moment, in seconds since 1970.
    pub from: u64,
    /// Seconds ahead of UTC, negative if the clock is behind.
    pub ahead: i32,
}

/// The clock of a time zone over the explained time.
#[derive(Clone, Copy)]
pub struct ZoneClock<'a> {
    /// The name of the zone, such as `Europe/Berlin`.
    pub name: &'a str,
    /// The offset at the first second of the explained time, and the one after each change, in
    /// order.
    pub shifts: &'a [ClockShift],
}

impl ZoneClock<'_> {
    /// Returns the seconds that the clock of `explain`'s time zone is ahead of UTC at a moment, in
    /// seconds since 1970.
    fn ahead_at(&self, moment: u64) -> i32 {
        let mut ahead = 0;
        for shift in self.shifts {
            if shift.from <= moment {
                ahead = shift.ahead;
            }
        }
        ahead
    }

    /// Appends the name of the time zone to the head of `explain`'s table, with its offset at the
    /// start.
    pub(crate) fn push_name(&self, out: &mut Page) {
        out.push_str(self.name);
        out.push_str(" (");
        push_ahead(out, self.shifts.first().map_or(0, |shift| shift.ahead));
        out.push(')');
    }
}

/// Returns the local time of a moment in `explain`'s time zone, or the moment itself (UTC) without
/// one. Both are in seconds since 1970.
pub(crate) fn shown_at(zone: Option<ZoneClock<'_>>, moment: u64) -> u64 {
    match zone {
        Some(clock) => moment.saturating_add_signed(i64::from(clock.ahead_at(moment))),
        None => moment,
    }
}

/// Appends the offset of a time zone from UTC to the head of `explain`'s table: `UTC`, `UTC+1`,
/// `UTC-3:30`.
pub(crate) fn push_ahead(out: &mut Page, ahead: i32) {
    out.push_str("UTC");
    if ahead == 0 {
        return;
    }
    out.push(if ahead < 0 { '-' } else { '+' });
    let seconds = ahead.unsigned_abs();
    push_number(out, "", u64::from(seconds / 3600));
    if seconds % 3600 != 0 {
        out.push(':');
        push_two_digits(out, u64::from(seconds / 60 % 60));
    }
    if seconds % 60 != 0 {
        out.push(':');
        push_two_digits(out, u64::from(seconds % 60));
    }
}
