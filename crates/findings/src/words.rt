//! Small texts in findings: excerpts, instants and limits.

use ocpp_scalars::{Instant, push_instant};
use std::alloc::{AllocError, Global};
use std::fmt;

/// The maximum number of characters of an excerpt.
const MAX_EXCERPT: usize = 60;

/// The first 60 characters of a text, and dots if there are more.
#[derive(Clone, Copy)]
pub struct Excerpt<'a>(pub &'a str);

impl fmt::Display for Excerpt<'_> {
    fn fmt<W: fmt::Write>(&self, f: &mut fmt::Formatter<W>) -> fmt::Result {
        for character in self.0.chars().take(MAX_EXCERPT) {
            // A finding is one line, which a line feed in the checked text would break.
            let shown = if character.is_control() {
                '\u{fffd}'
            } else {
                character
            };
            f.write_char(shown)?;
        }
        match self.0.chars().nth(MAX_EXCERPT) {
            Some(_) => f.write_str(".."),
            None => Ok(()),
        }
    }
}

/// Writes an instant, as `2025-01-31T18:00:00Z`.
pub fn instant_text(alloc: Global, instant: Instant) -> Result<String, AllocError> {
    let mut out = String::new(alloc);
    push_instant(&mut out, instant)?;
    Ok(out)
}

/// Writes a limit or a sum of limits, given in tenths, as `64.0`.
pub fn tenths_text(alloc: Global, tenths: u64) -> Result<String, AllocError> {
    let whole = tenths / 10;
    let tenth = tenths % 10;
    format!(in alloc; "{whole}.{tenth}")
}
