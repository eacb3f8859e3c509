//! Splitting of a number's text into its parts.
ghost use Rattle.std.specs.Prelude.{◌≡◌, IfSome, length, option_map};
ghost use Rattle.ocpp_scalars.specs.ByCases.Digits.{digits_of, after_digits};
ghost use Rattle.ocpp_scalars.specs.ByCases.NumberText.{FitIn, parts_seen, sign_at, whole_at, digits_at, fraction_at, exponent_sign_at, exponent_in, parts_of, is_number_text};

/// The parts of a number's text (RFC 8259, section 6).
#[derive(Clone, Copy)]
pub(crate) struct NumberParts<'a> {
    /// The number has a minus.
    pub(crate) negative: bool,
    /// The digits before the point.
    pub(crate) whole: &'a [u8],
    /// The digits after the point; empty without a point.
    pub(crate) fraction: &'a [u8],
    /// The exponent has a minus.
    pub(crate) negative_exponent: bool,
    /// The digits of the exponent; empty without an exponent.
    pub(crate) exponent: &'a [u8],
}

/// Returns whether a text of any length has the form of a number (RFC 8259, section 6).
#[tactic(auto, unfolding(crate::specs::ByCases::NumberText::is_number_text))]
pub fn is_number_text(text: &str) -> bool
    ensures { result ≡ is_number_text text.now }
{
    number_parts(text.as_bytes()).is_some()
}

/// Splits the text of a JSON number into its parts (RFC 8259, section 6), or returns `None` if it
/// isn't a number.
#[tactic(auto, unfolding(crate::specs::ByCases::NumberText::parts_of))]
pub(crate) fn number_parts(text: &[u8]) -> Option<NumberParts<'_>>
    ensures parts { option_map parts_seen result ≡ parts_of text.now }
    ensures fits { IfSome result (λ p. FitIn (length text.now) (parts_seen p)) }
{
    let (negative, text) = split_sign(text);
    let (whole, text) = split_whole(text)?;
    let (fraction, text) = split_fraction(text)?;
    let (negative_exponent, exponent) = exponent(text)?;
    Some(NumberParts {
        negative,
        whole,
        fraction,
        negative_exponent,
        exponent,
    })
}

/// Splits the minus off the text of a JSON number. Returns whether there is one, and the rest.
fn split_sign(text: &[u8]) -> (bool, &[u8])
    ensures { (result.0, result.1.now) ≡ sign_at text.now }
{
    match text {
        [b'-', rest @ ..] => (true, rest),
        _ => (false, text),
    }
}

/// Splits the digits before the point off the text of a JSON number, which has no leading zeros.
/// Returns them and the rest.
fn split_whole(text: &[u8]) -> Option<(&[u8], &[u8])>
    ensures { option_map (λ x. (x.0.now, x.1.now)) result ≡ whole_at text.now }
{
    let (digits, rest) = split_digits(text);
    match digits {
        [] => None,
        // RFC 8259 allows no leading zeros.
        [b'0', _, ..] => None,
        _ => Some((digits, rest)),
    }
}

/// Splits the point and the digits after it off the text of a JSON number. Returns the digits, or
/// none without a point, and the rest.
fn split_fraction(text: &[u8]) -> Option<(&[u8], &[u8])>
    ensures { option_map (λ x. (x.0.now, x.1.now)) result ≡ fraction_at text.now }
{
    match text {
        [b'.', rest @ ..] => split_some_digits(rest),
        _ => Some((&[], text)),
    }
}

/// Reads the exponent that ends the text of a JSON number. Returns whether it has a minus, and its
/// digits, or none without an exponent.
fn exponent(text: &[u8]) -> Option<(bool, &[u8])>
    ensures { option_map (λ x. (x.0, x.1.now)) result ≡ exponent_in text.now }
{
    match text {
        [] => Some((false, text)),
        [b'e' | b'E', rest @ ..] => {
            let (negative_exponent, rest) = split_exponent_sign(rest);
            let (digits, rest) = split_some_digits(rest)?;
            if rest.is_empty() {
                Some((negative_exponent, digits))
            } else {
                None
            }
        }
        _ => None,
    }
}

/// Splits the sign off the exponent of a JSON number's text. Returns whether it is a minus, and the
/// rest.
fn split_exponent_sign(text: &[u8]) -> (bool, &[u8])
    ensures { (result.0, result.1.now) ≡ exponent_sign_at text.now }
{
    match text {
        [b'-', rest @ ..] => (true, rest),
        [b'+', rest @ ..] => (false, rest),
        _ => (false, text),
    }
}

/// Splits the digits, at least one, off the fraction or exponent of a JSON number's text. Returns
/// them and the rest.
fn split_some_digits(text: &[u8]) -> Option<(&[u8], &[u8])>
    ensures { option_map (λ x. (x.0.now, x.1.now)) result ≡ digits_at text.now }
{
    let (digits, rest) = split_digits(text);
    if digits.is_empty() {
        None
    } else {
        Some((digits, rest))
    }
}

/// Splits a text, of a JSON number or an OCPP timestamp, behind the digits at its beginning.
/// Returns these and the rest.
#[tactic(auto, using(crate::proofs::Texts::digit_steps))]
pub(crate) fn split_digits(text: &[u8]) -> (&[u8], &[u8])
    ensures digits { result.0.now ≡ digits_of text.now }
    ensures rest { result.1.now ≡ after_digits text.now }
{
    for (count, byte) in text.iter().enumerate() {
        if !byte.is_ascii_digit() {
            return text.split_at(count);
        }
    }
    (text, &[])
}
