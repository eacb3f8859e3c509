//! Writing of instants and tenths.
ghost use Rattle.std.specs.Prelude.{◌≡◌, ℕ, ◌+◌, ◌*◌, ◌/◌, ◌%◌, ◌≤◌, ◌<◌, pos, Ok, IfOk, IsErrOf, IsOkUnless, string_bytes};
ghost use Rattle.jiff_core.specs.Date.{epoch_day};
ghost use Rattle.ocpp_scalars.specs.Appending.{Appends};
ghost use Rattle.ocpp_scalars.specs.CalendarDay.{calendar_day};
ghost use Rattle.ocpp_scalars.specs.Limits.{last_day, last_second};
ghost use Rattle.ocpp_scalars.specs.Writing.{in_digits, day_text, time_of_day_text, instant_text, tenths_text};

use crate::instant::Instant;
use crate::refusal::Refusal;
use itoa::Integer;
use jiff_core::civil::Date;
use std::alloc::{AllocError, Global};

/// Formats an instant as `YYYY-MM-DDThh:mm:ssZ`, or fails with `OutOfMemory`.
pub fn write_instant(alloc: Global, instant: Instant) -> Result<String, Refusal>
    ensures text { IfOk result (λ s. string_bytes s ≡ instant_text instant) }
    ensures memory { IsOkUnless result Refusal.OutOfMemory }
{
    let mut out = String::new(alloc);
    push_instant(&mut out, instant)?;
    Ok(out)
}

/// Appends an instant as `YYYY-MM-DDThh:mm:ssZ`.
pub fn push_instant(out: &mut String, instant: Instant) -> Result<(), AllocError>
    ensures { Appends result (string_bytes out.old) (string_bytes out.new) (instant_text instant) }
{
    push_seconds(out, instant.seconds())
}

/// Appends the OCPP timestamp of the instant that is `seconds` after 1970-01-01T00:00:00Z.
#[tactic(auto, unfolding(crate::specs::Writing::instant_text))]
fn push_seconds(out: &mut String, seconds: u64) -> Result<(), AllocError>
    requires { seconds ≤ last_second }
    ensures { Appends result (string_bytes out.old) (string_bytes out.new) (instant_text seconds) }
{
    push_day(out, seconds / 86_400)?;
    out.push('T')?;
    push_time(out, (seconds % 86_400) as u32)?;
    out.push('Z')?;
    Ok(())
}

/// Appends the date of an OCPP timestamp, `YYYY-MM-DD`, that is `day` days after 1 January 1970.
#[tactic(auto, unfolding(crate::specs::Writing::day_text))]
fn push_day(out: &mut String, day: u64) -> Result<(), AllocError>
    requires { day ≤ last_day }
    ensures { Appends result (string_bytes out.old) (string_bytes out.new)
        (day_text (calendar_day day)) }
{
    let (year, month, day) = civil_date(day);
    push_two(out, (year / 100) as u8)?;
    push_two(out, (year % 100) as u8)?;
    out.push('-')?;
    push_two(out, month)?;
    out.push('-')?;
    push_two(out, day)
}

/// Returns year, month and day of an OCPP timestamp's date, which is `day` days after 1 January
/// 1970.
fn civil_date(day: u64) -> (u16, u8, u8)
    requires { day ≤ last_day }
    ensures year { result.0 ≡ (calendar_day day).year }
    ensures month { result.1 ≡ (calendar_day day).month }
    ensures day { result.2 ≡ (calendar_day day).day }
    ensures bounds { (result.0 ≤ 9999) × (result.1 ≤ 12) × (result.2 ≤ 31) }
{
    // Only dates come from `jiff`: its `Timestamp` ends 26 hours before the last instant.
    let date = Date::from_unix_epoch_day(day as i64).unwrap();
    (date.year as u16, date.month, date.day)
}

/// Appends the time of day of an OCPP timestamp, `hh:mm:ss`.
#[tactic(auto, unfolding(crate::specs::Writing::time_of_day_text))]
fn push_time(out: &mut String, seconds: u32) -> Result<(), AllocError>
    requires { seconds < 86_400 }
    ensures { Appends result (string_bytes out.old) (string_bytes out.new)
        (time_of_day_text seconds) }
{
    push_two(out, (seconds / 3600) as u8)?;
    out.push(':')?;
    push_two(out, (seconds / 60 % 60) as u8)?;
    out.push(':')?;
    push_two(out, (seconds % 60) as u8)
}

/// Appends a number below 100 as two digits: a part of the date or of the time of day in the text of
/// an instant.
fn push_two(out: &mut String, number: u8) -> Result<(), AllocError>
    requires { number < 100 }
    ensures { Appends result (string_bytes out.old) (string_bytes out.new) (in_digits 2 number) }
{
    out.push((b'0' + number / 10) as char)?;
    out.push((b'0' + number % 10) as char)?;
    Ok(())
}

/// Formats tenths as a whole part, a point and one digit, or fails with `OutOfMemory`.
pub fn write_tenths(alloc: Global, tenths: u32) -> Result<String, Refusal>
    ensures text { IfOk result (λ s. string_bytes s ≡ tenths_text tenths) }
    ensures memory { IsOkUnless result Refusal.OutOfMemory }
{
    let mut out = String::new(alloc);
    push_tenths(&mut out, tenths)?;
    Ok(out)
}

/// Appends tenths as a whole part, a point and one digit.
#[tactic(auto, unfolding(crate::specs::Writing::tenths_text))]
pub fn push_tenths(out: &mut String, tenths: u32) -> Result<(), AllocError>
    ensures { Appends result (string_bytes out.old) (string_bytes out.new) (tenths_text tenths) }
{
    push_integer(out, tenths / 10)?;
    out.push('.')?;
    push_integer(out, tenths % 10)
}

/// Appends an integer in decimal.
pub fn push_integer<I: Integer>(out: &mut String, integer: I) -> Result<(), AllocError>
    ensures { Appends result (string_bytes out.old) (string_bytes out.new) (I.text integer) }
{
    // `write!` doesn't state the contents of the text after a failed allocation.
    let mut digits = itoa::Buffer::new();
    out.push_str(digits.format(integer))
}
