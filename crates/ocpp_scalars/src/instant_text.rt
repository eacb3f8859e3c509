//! Reading of instants.
ghost use Rattle.std.specs.Prelude.{◌≡◌, ℕ, ◌+◌, ◌*◌, ◌≤◌, ◌<◌, pos, neg_ℤ, ◌+ℤ◌, ◌-ℤ◌, ◌*ℤ◌, ◌≤ℤ◌, Some, None, option_map, IfSome, if◌then◌else◌};
ghost use Rattle.jiff_core.specs.Calendar.{IsEpochDay, days_from_civil};
ghost use Rattle.ocpp_scalars.specs.ByCases.Bounds.{IsWithin};
ghost use Rattle.ocpp_scalars.specs.ByCases.InstantText.{digit_at, two_at, four_at, after_dash, after_colon, after_separator, is_day, day_number, date_at, minutes_at, time_at, after_fraction, clock_in, offset_in, zulu_in, total_seconds, seconds_of, in_range, instant_of};

use crate::instant::{Instant, LAST_SECOND};
use crate::number_text::split_digits;
use jiff::civil::Date;
use thiserror::Error;

/// The most digits of a fraction of a second: nanoseconds.
// RFC 3339 sets no bound, so this one is our choice.
const MAX_FRACTION_DIGITS: usize = 9;

/// The reason why a text isn't read as an instant.
#[derive(Clone, Copy, Debug, PartialEq, Eq, Error)]
pub enum InstantFault {
    /// The text isn't a date and time of day (RFC 3339, section 5.6).
    #[error("not a date and time")]
    Form,
    /// The moment is before 1970 or after the year 9999.
    #[error("a date and time out of range")]
    Range,
}

/// Reads an instant: `YYYY-MM-DD`, `T`, `t` or a space, `hh:mm:ss`, an optional fraction of 1 to 9
/// digits, which is dropped, and an offset: `Z`, `z`, `+hh:mm`, `-hh:mm` or nothing (UTC). Any
/// other text is `Form`. A moment before 1970 or after the year 9999 is `Range`.
#[tactic(auto, unfolding(crate::specs::ByCases::InstantText::instant_of))]
pub fn read_instant(text: &str) -> Result<Instant, InstantFault>
    ensures { result ≡ instant_of text.now }
{
    let Some(seconds) = seconds(text.as_bytes()) else {
        return Err(InstantFault::Form);
    };
    in_range(seconds)
}

/// Returns the instant of these seconds since 1970, read from an OCPP timestamp, or `Range` before
/// 1970 or after the year 9999.
fn in_range(seconds: i64) -> Result<Instant, InstantFault>
    ensures { result ≡ in_range seconds }
{
    if seconds < 0 || seconds > LAST_SECOND as i64 {
        return Err(InstantFault::Range);
    }
    match Instant::try_new(seconds as u64) {
        Some(instant) => Ok(instant),
        None => Err(InstantFault::Range),
    }
}

/// Reads a whole OCPP timestamp (RFC 3339) as seconds since 1970-01-01T00:00:00Z, negative before
/// it.
#[tactic(auto, unfolding(crate::specs::ByCases::InstantText::seconds_of))]
fn seconds(text: &[u8]) -> Option<i64>
    ensures { result ≡ seconds_of text.now }
{
    let (date, text) = split_date(text)?;
    let text = skip_separator(text)?;
    let (time, text) = split_time(text)?;
    let text = skip_fraction(text)?;
    let offset = offset(text)?;
    Some(total_seconds(date, time, offset))
}

/// Returns the seconds since 1970 of an OCPP timestamp, from its days, its seconds since midnight
/// and its offset from UTC.
// A function of its own: after the `?`s of `seconds` the prover leaves goals about this sum open.
fn total_seconds(date: i64, time: u32, offset: i64) -> i64
    requires date { IsEpochDay date }
    requires time { time < 86_400 }
    requires offset { IsWithin 86_400 offset }
    ensures { result ≡ total_seconds date time offset }
{
    date * 86_400 + time as i64 - offset
}

/// Splits the date off an OCPP timestamp. Returns its days since 1 January 1970 and the rest of the
/// text.
#[tactic(auto, unfolding(crate::specs::ByCases::InstantText::date_at))]
fn split_date(text: &[u8]) -> Option<(i64, &[u8])>
    ensures value { option_map (λ x. (x.0, x.1.now)) result ≡ date_at text.now }
    ensures bound { IfSome result (λ x. IsEpochDay x.0) }
{
    let (year, text) = split_four(text)?;
    let text = skip_dash(text)?;
    let (month, text) = split_two(text)?;
    let text = skip_dash(text)?;
    let (day, text) = split_two(text)?;
    let number = day_number(year, month, day)?;
    Some((number, text))
}

/// Returns the days from 1 January 1970 to the date in an OCPP timestamp, or `None` if there is no
/// such date.
fn day_number(year: u16, month: u8, day: u8) -> Option<i64>
    requires { year ≤ 9999 }
    ensures bound { IfSome result IsEpochDay }
    ensures value { result ≡ day_number year month day }
{
    if month > 12 || day > 31 {
        return None;
    }
    match Date::new(year as i16, month as i8, day as i8) {
        Ok(date) => Some(date.to_plain().to_unix_epoch_day() as i64),
        Err(_) => None,
    }
}

/// Splits the time of day off an OCPP timestamp. Returns its seconds since midnight and the rest of
/// the text.
#[tactic(auto, unfolding(crate::specs::ByCases::InstantText::time_at))]
fn split_time(text: &[u8]) -> Option<(u32, &[u8])>
    ensures value { option_map (λ x. (x.0, x.1.now)) result ≡ time_at text.now }
    ensures bound { IfSome result (λ x. x.0 < 86_400) }
{
    let (minutes, text) = split_minutes(text)?;
    let text = skip_colon(text)?;
    let (second, text) = split_two(text)?;
    // The second 60 of a leap second is refused: an `Instant` has no leap seconds.
    if second < 60 {
        Some((minutes * 60 + second as u32, text))
    } else {
        None
    }
}

/// Splits `hh:mm` off the rest of an OCPP timestamp. Returns its minutes since midnight and the
/// text after it.
#[tactic(auto, unfolding(crate::specs::ByCases::InstantText::minutes_at))]
fn split_minutes(text: &[u8]) -> Option<(u32, &[u8])>
    ensures value { option_map (λ x. (x.0, x.1.now)) result ≡ minutes_at text.now }
    ensures bound { IfSome result (λ x. x.0 < 1_440) }
{
    let (hour, text) = split_two(text)?;
    let text = skip_colon(text)?;
    let (minute, text) = split_two(text)?;
    if hour < 24 && minute < 60 {
        Some((hour as u32 * 60 + minute as u32, text))
    } else {
        None
    }
}

/// Skips the fraction of a second in an OCPP timestamp, if there is one: a point and 1 to 9 digits.
fn skip_fraction(text: &[u8]) -> Option<&[u8]>
    ensures { option_map (λ x. x.now) result ≡ after_fraction text.now }
{
    let [b'.', text @ ..] = text else {
        return Some(text);
    };
    let (digits, text) = split_digits(text);
    if !digits.is_empty() && digits.len() <= MAX_FRACTION_DIGITS {
        Some(text)
    } else {
        None
    }
}

/// Reads the offset from UTC that ends an OCPP timestamp, in seconds; none means UTC.
fn offset(text: &[u8]) -> Option<i64>
    ensures value { result ≡ offset_in text.now }
    ensures bound { IfSome result (IsWithin 86_400) }
{
    match text {
        [] => Some(0),
        [b'Z' | b'z', rest @ ..] => zulu(rest),
        [b'+', rest @ ..] => ahead_of_utc(rest),
        [b'-', rest @ ..] => behind_utc(rest),
        _ => None,
    }
}

/// Returns the offset 0 of an OCPP timestamp that ends with `Z` or `z`, if no text follows.
fn zulu(text: &[u8]) -> Option<i64>
    ensures value { result ≡ zulu_in text.now }
    ensures zero { IfSome result (λ z. z ≡ pos 0) }
{
    if text.is_empty() { Some(0) } else { None }
}

/// Reads the `hh:mm` after the plus of an OCPP timestamp's offset, in seconds ahead of UTC.
fn ahead_of_utc(text: &[u8]) -> Option<i64>
    ensures value { result ≡ option_map pos (clock_in text.now) }
    ensures bound { IfSome result (IsWithin 86_400) }
{
    let seconds = clock(text)?;
    Some(seconds as i64)
}

/// Reads the `hh:mm` after the minus of an OCPP timestamp's offset, in negative seconds: behind
/// UTC.
fn behind_utc(text: &[u8]) -> Option<i64>
    ensures value { result ≡ option_map (λ n. neg_ℤ (pos n)) (clock_in text.now) }
    ensures bound { IfSome result (IsWithin 86_400) }
{
    let seconds = clock(text)?;
    Some(-(seconds as i64))
}

/// Reads the `hh:mm` of an offset from UTC that ends an OCPP timestamp, in seconds.
fn clock(text: &[u8]) -> Option<u32>
    ensures value { result ≡ clock_in text.now }
    ensures bound { IfSome result (λ n. n < 86_400) }
{
    let (minutes, rest) = split_minutes(text)?;
    if rest.is_empty() {
        Some(minutes * 60)
    } else {
        None
    }
}

/// Splits the four digits of the year off an OCPP timestamp. Returns their value and the rest of
/// the text.
fn split_four(text: &[u8]) -> Option<(u16, &[u8])>
    ensures value { option_map (λ x. (x.0, x.1.now)) result ≡ four_at text.now }
    ensures bound { IfSome result (λ x. x.0 ≤ 9999) }
{
    let (high, text) = split_two(text)?;
    let (low, text) = split_two(text)?;
    Some((high as u16 * 100 + low as u16, text))
}

/// Splits two digits, such as those of the month, off an OCPP timestamp. Returns their value and
/// the rest of the text.
fn split_two(text: &[u8]) -> Option<(u8, &[u8])>
    ensures value { option_map (λ x. (x.0, x.1.now)) result ≡ two_at text.now }
    ensures bound { IfSome result (λ x. x.0 ≤ 99) }
{
    let (high, text) = split_digit(text)?;
    let (low, text) = split_digit(text)?;
    Some((high * 10 + low, text))
}

/// Splits one digit off an OCPP timestamp. Returns its value and the rest of the text.
fn split_digit(text: &[u8]) -> Option<(u8, &[u8])>
    ensures value { option_map (λ x. (x.0, x.1.now)) result ≡ digit_at text.now }
    ensures bound { IfSome result (λ x. x.0 ≤ 9) }
{
    match text {
        [digit @ b'0'..=b'9', rest @ ..] => Some((*digit - b'0', rest)),
        _ => None,
    }
}

/// Skips the dash between year, month and day in an OCPP timestamp.
fn skip_dash(text: &[u8]) -> Option<&[u8]>
    ensures { option_map (λ x. x.now) result ≡ after_dash text.now }
{
    match text {
        [b'-', rest @ ..] => Some(rest),
        _ => None,
    }
}

/// Skips the colon between hours, minutes and seconds in an OCPP timestamp.
fn skip_colon(text: &[u8]) -> Option<&[u8]>
    ensures { option_map (λ x. x.now) result ≡ after_colon text.now }
{
    match text {
        [b':', rest @ ..] => Some(rest),
        _ => None,
    }
}

/// Skips the `T`, the `t` or the space between date and time of day in an OCPP timestamp.
fn skip_separator(text: &[u8]) -> Option<&[u8]>
    ensures { option_map (λ x. x.now) result ≡ after_separator text.now }
{
    match text {
        [b'T' | b't' | b' ', rest @ ..] => Some(rest),
        _ => None,
    }
}
