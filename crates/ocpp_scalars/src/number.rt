//! Reading of numbers as tenths and as whole numbers.
ghost use Rattle.std.specs.Prelude.{Some, ◌≡◌, ◌≢◌, ℕ, ◌+◌, ◌*◌, ◌^◌, ◌≤◌, ◌<◌, length, pos, neg_ℤ, ◌-ℤ◌, ◌≤ℤ◌, IfOk, IfSome, IfNone};
ghost use Rattle.ocpp_scalars.specs.Digits.{AreDigits, value_after};
ghost use Rattle.ocpp_scalars.specs.ByCases.Bounds.{IsWithin};
ghost use Rattle.ocpp_scalars.specs.Number.{with_sign};
ghost use Rattle.ocpp_scalars.specs.ByCases.Number.{number_in, times_power, at_most, tenths_of, whole_of};

use crate::number_text::number_parts;
use thiserror::Error;

/// The most bytes of a number's text.
const MAX_NUMBER_BYTES: usize = 32;

/// The most tenths that `read_tenths` returns.
const MAX_TENTHS: u32 = 1_000_000_000;

/// The largest whole number that `read_whole` returns.
const MAX_WHOLE: u32 = 2_147_483_647;

/// The absolute value of the smallest whole number that `read_whole` returns.
// OCPP's integers have 32 bits in two's complement, which has one number more below zero.
const MAX_NEGATIVE_WHOLE: u32 = 2_147_483_648;

/// The reason why a text isn't read as tenths or as a whole number.
#[derive(Clone, Copy, Debug, PartialEq, Eq, Error)]
pub enum NumberFault {
    /// The text doesn't have the form of a number (RFC 8259, section 6).
    #[error("not a number")]
    Form,
    /// The text has more bytes than the limit.
    #[error("a number of more than {MAX_NUMBER_BYTES} bytes")]
    TooLong,
    /// The value is out of bounds, or not a multiple of the unit.
    #[error("a number out of range")]
    Range,
}

/// A number as its sign, its digits as a whole number, and the power of ten that scales these.
// With 128 bits nothing saturates: digits and exponent of 32 bytes are below 10^32.
#[derive(Clone, Copy)]
pub(crate) struct Number {
    pub(crate) negative: bool,
    pub(crate) digits: u128,
    pub(crate) power: i128,
}

/// Reads a number as tenths, from 0 to 1,000,000,000. A text of more than 32 bytes is `TooLong`,
/// another without the form of a number is `Form`, and any other value is `Range`.
#[tactic(auto, unfolding(crate::specs::ByCases::Number::tenths_of))]
pub fn read_tenths(text: &str) -> Result<u32, NumberFault>
    ensures { result ≡ tenths_of text.now }
{
    let number = read_number(text)?;
    // A minus is fine before a zero: `-0` is 0.
    let most = if number.negative { 0 } else { MAX_TENTHS };
    match times_power_at_most(most, number.digits, number.power + 1) {
        Some(tenths) => Ok(tenths),
        None => Err(NumberFault::Range),
    }
}

/// Reads a whole number of 32 bits. A text of more than 32 bytes is `TooLong`, another without the
/// form of a number is `Form`, and any other value is `Range`.
#[tactic(auto, unfolding(crate::specs::ByCases::Number::whole_of))]
pub fn read_whole(text: &str) -> Result<i32, NumberFault>
    ensures { result ≡ whole_of text.now }
{
    let number = read_number(text)?;
    let most = if number.negative {
        MAX_NEGATIVE_WHOLE
    } else {
        MAX_WHOLE
    };
    match times_power_at_most(most, number.digits, number.power) {
        // Negated in 64 bits, since 2,147,483,648 isn't an `i32`.
        Some(value) if number.negative => Ok((-(value as i64)) as i32),
        Some(value) => Ok(value as i32),
        None => Err(NumberFault::Range),
    }
}

/// Reads a JSON number, to become tenths of A or W or a whole number of OCPP, as its sign, its
/// digits and a power of ten.
#[tactic(auto, unfolding(crate::specs::ByCases::Number::number_in))]
fn read_number(text: &str) -> Result<Number, NumberFault>
    ensures value { result ≡ number_in text.now }
    ensures digits { IfOk result (λ n. n.digits < 10 ^ 32) }
    ensures power { IfOk result (λ n. IsWithin (10 ^ 33) n.power) }
{
    if text.len() > MAX_NUMBER_BYTES {
        return Err(NumberFault::TooLong);
    }
    let Some(parts) = number_parts(text.as_bytes()) else {
        return Err(NumberFault::Form);
    };
    let whole = read_digits(0, parts.whole);
    let digits = read_digits(whole, parts.fraction);
    let exponent = read_digits(0, parts.exponent);
    Ok(Number {
        negative: parts.negative,
        digits,
        power: power(parts.negative_exponent, exponent, parts.fraction.len()),
    })
}

/// Returns the value of decimal digits of a JSON number (tenths or a whole number of OCPP) appended
/// to digits of the value `start`.
fn read_digits(start: u128, digits: &[u8]) -> u128
    requires digits { AreDigits digits.now }
    requires room { (start + 1) * 10 ^ length digits.now ≤ 10 ^ 32 }
    ensures value { result ≡ value_after start digits.now }
    ensures room { result + 1 ≤ (start + 1) * 10 ^ length digits.now }
{
    let mut value = start;
    for digit in digits {
        value = value * 10 + (*digit - b'0') as u128;
    }
    value
}

/// Returns the power of ten that scales the digits of a JSON number (tenths or a whole number of
/// OCPP). `places` of the digits are after the point.
fn power(negative: bool, exponent: u128, places: usize) -> i128
    requires exponent { exponent < 10 ^ 32 }
    requires places { places ≤ 32 }
    ensures value { result ≡ with_sign negative exponent -ℤ pos places }
    ensures bound { IsWithin (10 ^ 33) result }
{
    if negative {
        -(exponent as i128) - places as i128
    } else {
        exponent as i128 - places as i128
    }
}

/// Returns the digits of a JSON number (tenths or a whole number of OCPP) times its power of ten,
/// if that is whole and at most `most`.
#[tactic(auto, using(crate::proofs::Scaling::scaling))]
fn times_power_at_most(most: u32, digits: u128, power: i128) -> Option<u32>
    requires { IsWithin (10 ^ 34) power }
    ensures { result ≡ at_most most (times_power digits power) }
{
    // Zero neither exceeds `most` nor ends in another digit: a loop below would run through the
    // whole exponent, up to 10^30 steps.
    if digits == 0 {
        return Some(0);
    }
    let zeros = power.unsigned_abs();
    if power < 0 {
        value_at_most(most, without_zeros(digits, zeros)?)
    } else {
        value_at_most(most, with_zeros(most, digits, zeros)?)
    }
}

/// Returns the value of a JSON number (tenths or a whole number of OCPP), if it is at most `most`.
fn value_at_most(most: u32, value: u128) -> Option<u32>
    ensures { result ≡ at_most most (Some value) }
{
    if value <= most as u128 {
        Some(value as u32)
    } else {
        None
    }
}

/// Returns the digits of a JSON number (tenths or a whole number of OCPP) with `zeros` zeros
/// appended. `None` means that this exceeds `most`.
#[tactic(auto, using(crate::proofs::Scaling::scaling))]
fn with_zeros(most: u32, digits: u128, zeros: u128) -> Option<u128>
    requires { 0 < digits }
    ensures some { IfSome result (λ n. times_power digits (pos zeros) ≡ Some n) }
    ensures none { IfNone result (at_most most (times_power digits (pos zeros)) ≡ None) }
{
    let mut value = digits;
    for _ in 0..zeros {
        if value > most as u128 {
            return None;
        }
        value *= 10;
    }
    Some(value)
}

/// Returns the digits of a JSON number (tenths or a whole number of OCPP) without `zeros` zeros at
/// their end, or `None` if they end in fewer.
#[tactic(auto, using(crate::proofs::Scaling::scaling))]
fn without_zeros(digits: u128, zeros: u128) -> Option<u128>
    requires digits { 0 < digits }
    requires zeros { 0 < zeros }
    ensures { result ≡ times_power digits (neg_ℤ (pos zeros)) }
{
    let mut value = digits;
    for _ in 0..zeros {
        if value % 10 != 0 {
            return None;
        }
        value /= 10;
    }
    Some(value)
}
