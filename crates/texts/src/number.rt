//! Numbers from 1 on in a text, in decimal without leading zeros: those of requests, and of calls
//! after call 0.

ghost use Rattle.std.specs.Prelude.{◌≡◌, ◌↔◌, ℕ, Some};
ghost use Rattle.texts.specs.Number.{IsDecimalOf};
ghost use Rattle.texts.specs.ByCases.Number.{begins_above_zero, number_of};

use site_core::MAX_NUMBER;

/// Returns the number from 1 to 1,000,000,000,000 that a word is, in decimal without leading zeros.
pub fn number_of(word: &str) -> Option<u64>
    ensures value { result ≡ number_of word.now }
    ensures decimal { (number : ℕ)
        → ((number_of word.now ≡ Some number) ↔ IsDecimalOf word.now number) }
{
    // `parse` also accepts a plus and leading zeros.
    if !begins_above_zero(word) {
        return None;
    }
    let Ok(number) = word.parse::<u64>() else {
        return None;
    };
    if number > MAX_NUMBER {
        return None;
    }
    Some(number)
}

/// Returns whether a number begins above the digit 0, without a leading zero or sign. It is that of
/// a request or a call, in a script, the journal or a message id.
fn begins_above_zero(word: &str) -> bool
    ensures { result ≡ begins_above_zero word.now }
{
    match word.as_bytes().first() {
        Some(first) => *first > b'0',
        None => false,
    }
}
