//! The duration of the explained schedule, read from the text of an option.

ghost use Rattle.std.specs.Prelude.{◌≡◌, ◌≤◌, ◌*◌, IfSome, option_map};
ghost use Rattle.meaning.specs.Limits.{max_duration};
ghost use Rattle.jobs.specs.Duration.{counted, duration_of, in_range, number_after, number_at, part_at, period, time_of_day, unit_of};

use meaning::MAX_DURATION;

const MINUTE: u64 = 60;

const HOUR: u64 = 3_600;

const DAY: u64 = 86_400;

/// Reads a duration from 1 to 2,678,400 seconds. Its text is a whole number of seconds, such as
/// `3600`; a number with a unit, `90m`, `12h` or `2d`; or a duration of ISO 8601, `PT1H30M` or
/// `P1DT12H`.
#[tactic(auto, unfolding(crate::specs::Duration::duration_of))]
pub fn read_duration(text: &str) -> Option<u32>
    ensures { result ≡ duration_of text.now }
{
    let seconds = match text.as_bytes() {
        [b'P', rest @ ..] => period(rest)?,
        [b'+', rest @ ..] => counted(rest)?,
        rest => counted(rest)?,
    };
    in_range(seconds)
}

/// Returns the seconds of the value of `explain`'s `--duration`, if they are from 1 to
/// MAX_DURATION.
fn in_range(seconds: u64) -> Option<u32>
    ensures { result ≡ in_range seconds }
{
    if seconds < 1 || seconds > MAX_DURATION as u64 {
        return None;
    }
    Some(seconds as u32)
}

/// Returns the seconds of a value of `explain`'s `--duration` that is a whole number and its unit,
/// such as `90m`.
fn counted(text: &[u8]) -> Option<u64>
    ensures { result ≡ counted text.now }
{
    let (number, unit) = split_number(text)?;
    let seconds = unit_of(unit)?;
    Some(number * seconds)
}

/// Returns the seconds of the unit in a value of `explain`'s `--duration`. The empty unit is the
/// second.
fn unit_of(unit: &[u8]) -> Option<u64>
    ensures value { result ≡ unit_of unit.now }
    ensures bound { IfSome result (λ seconds. seconds ≤ 86_400) }
{
    match unit {
        [] | [b's'] => Some(1),
        [b'm'] => Some(MINUTE),
        [b'h'] => Some(HOUR),
        [b'd'] => Some(DAY),
        _ => None,
    }
}

/// Returns the seconds of a value of `explain`'s `--duration` in the form of ISO 8601, from the
/// text after the P: days, and a time of day after a T.
fn period(text: &[u8]) -> Option<u64>
    ensures { result ≡ period text.now }
{
    let (days, rest) = split_part(b'D', DAY, text);
    match rest {
        // `P` alone comes to 0 seconds, which `in_range` refuses.
        [] => Some(days),
        [b'T', time @ ..] => Some(days + time_of_day(time)?),
        _ => None,
    }
}

/// Returns the seconds of the hours, minutes and seconds, at least one of these, in a value of
/// `explain`'s `--duration` in the form of ISO 8601.
fn time_of_day(text: &[u8]) -> Option<u64>
    ensures value { result ≡ time_of_day text.now }
    ensures bound { IfSome result (λ seconds. seconds ≤ 3_661 * max_duration) }
{
    let (hours, minutes) = split_part(b'H', HOUR, text);
    let (minutes, seconds) = split_part(b'M', MINUTE, minutes);
    let (seconds, rest) = split_part(b'S', 1, seconds);
    // In ISO 8601 at least one part follows the T.
    if text.is_empty() || !rest.is_empty() {
        return None;
    }
    Some(hours + minutes + seconds)
}

/// Returns the seconds of a part, such as `30M`, at the beginning of the rest of `explain`'s
/// `--duration`, and the text after its unit. If there is no number with this unit, returns 0 and
/// the whole text.
fn split_part(unit: u8, seconds: u64, text: &[u8]) -> (u64, &[u8])
    requires { seconds ≤ 86_400 }
    ensures value { (result.0, result.1.now) ≡ part_at unit seconds text.now }
    ensures bound { result.0 ≤ seconds * max_duration }
{
    match split_number(text) {
        Some((number, [first, rest @ ..])) if *first == unit => (number * seconds, rest),
        _ => (0, text),
    }
}

/// Splits off the number at the beginning of the rest of `explain`'s `--duration`, up to the
/// longest duration. Returns it with the text after its digits.
fn split_number(text: &[u8]) -> Option<(u64, &[u8])>
    ensures value { option_map (λ x. (x.0, x.1.now)) result ≡ number_at text.now }
    ensures bound { IfSome result (λ x. x.0 ≤ max_duration) }
{
    match text {
        [b'0'..=b'9', ..] => split_digits(text),
        _ => None,
    }
}

/// Splits off the number at the beginning of the rest of `explain`'s `--duration`, which begins
/// with a digit, up to the longest duration. Returns it with the text after its digits.
fn split_digits(text: &[u8]) -> Option<(u64, &[u8])>
    ensures value { option_map (λ x. (x.0, x.1.now)) result ≡ number_after 0 text.now }
    ensures bound { IfSome result (λ x. x.0 ≤ max_duration) }
{
    let mut number = 0u64;
    for (count, byte) in text.iter().enumerate() {
        if !byte.is_ascii_digit() {
            return Some((number, text.split_at(count).1));
        }
        number = number * 10 + (*byte - b'0') as u64;
        // Checked at each digit, so that no later sum or product can overflow.
        if number > MAX_DURATION as u64 {
            return None;
        }
    }
    Some((number, &[]))
}
