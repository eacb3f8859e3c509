//! Times of day and dates, in UTC or local to a zone.

use crate::explained_request::ExplainedRequest;
use crate::zone_clock::{ZoneClock, shown_at};
use ocpp_scalars::{Instant, LAST_SECOND, push_instant};
use page_text::Page;
use std::alloc::{AllocError, Global};

/// Seconds in a day.
pub(crate) const DAY: u64 = 86_400;

/// A moment as a clock shows it.
#[derive(Clone, Copy)]
pub(crate) struct ClockTime {
    /// Days since 1970-01-01.
    pub(crate) day: u64,
    /// Seconds since midnight; 86,400 only at the end of the calendar.
    pub(crate) second: u64,
}

impl ClockTime {
    /// Returns the date and time of day in UTC of a moment in seconds since 1970, for the pages of
    /// `explain`.
    pub(crate) fn of(moment: u64) -> ClockTime {
        // A request may end one second after the last instant, which is 24:00 of the last day.
        if moment > LAST_SECOND {
            return ClockTime {
                day: LAST_SECOND / DAY,
                second: DAY,
            };
        }
        ClockTime {
            day: moment / DAY,
            second: moment % DAY,
        }
    }

    /// Returns the local time in a zone of a moment of an explained schedule for `explain`'s pages,
    /// or the UTC time without a zone.
    pub(crate) fn shown(zone: Option<ZoneClock<'_>>, moment: u64) -> ClockTime {
        ClockTime::of(shown_at(zone, moment))
    }
}

/// Appends a time of day of an explained schedule to a page of `explain`: `hh:mm` or `hh:mm:ss`.
pub(crate) fn push_time(out: &mut Page, second: u64, with_seconds: bool) {
    push_two_digits(out, second / 3600);
    out.push(':');
    push_two_digits(out, second / 60 % 60);
    if with_seconds {
        out.push(':');
        push_two_digits(out, second % 60);
    }
}

/// Appends to a page of `explain` the last two digits of a number, in a time of day or an offset
/// from UTC.
pub(crate) fn push_two_digits(out: &mut Page, number: u64) {
    push_digit(out, number / 10 % 10);
    push_digit(out, number % 10);
}

/// Appends to a page of `explain` the last digit of a number, in a time of day or an offset from
/// UTC.
fn push_digit(out: &mut Page, digit: u64) {
    let digit = char::from_digit((digit % 10) as u32, 10);
    out.push(digit.unwrap_or('0'));
}

/// Appends the date of a day of an explained schedule to a page of `explain`: `YYYY-MM-DD`.
pub(crate) fn push_date(alloc: Global, out: &mut Page, day: u64) {
    if let Some(instant) = Instant::try_new(day.saturating_mul(DAY)) {
        out.push_made(date_text(alloc, instant));
    }
}

/// Returns the date of an instant of an explained schedule for a page of `explain`: `YYYY-MM-DD`.
fn date_text(alloc: Global, instant: Instant) -> Result<String, AllocError> {
    let text = instant_text(alloc, instant)?;
    match text.as_str().split_once('T') {
        Some((date, _)) => String::from_str(alloc, date),
        None => Ok(String::new(alloc)),
    }
}

/// Returns an instant of an explained schedule for a page of `explain`: `YYYY-MM-DDThh:mm:ssZ`.
pub(crate) fn instant_text(alloc: Global, instant: Instant) -> Result<String, AllocError> {
    let mut text = String::new(alloc);
    push_instant(&mut text, instant)?;
    Ok(text)
}

/// Returns the day of the week for a date in `explain`'s picture, such as `Mon`.
pub(crate) fn weekday(day: u64) -> &'static str {
    match day % 7 {
        // 1970-01-01 was a Thursday.
        0 => "Thu",
        1 => "Fri",
        2 => "Sat",
        3 => "Sun",
        4 => "Mon",
        5 => "Tue",
        _ => "Wed",
    }
}

/// Returns whether a time of an explained schedule isn't a whole minute, local to a zone or in UTC.
/// Then the pages of `explain` show its times with seconds.
pub(crate) fn needs_seconds(explained: &ExplainedRequest<'_>, zone: Option<ZoneClock<'_>>) -> bool {
    for interval in explained.intervals {
        if has_seconds(zone, explained.moment(interval.start))
            || has_seconds(zone, explained.moment(interval.end))
        {
            return true;
        }
    }
    has_seconds(zone, explained.moment(0)) || has_seconds(zone, explained.end())
}

/// Returns whether a moment of an explained schedule isn't a whole minute for a page of `explain`,
/// local to a zone or in UTC.
fn has_seconds(zone: Option<ZoneClock<'_>>, moment: u64) -> bool {
    shown_at(zone, moment) % 60 != 0
}
