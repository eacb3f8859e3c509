//! Short texts: instants, limits, counts, lengths of time and shortened texts.

use ocpp_scalars::{Instant, push_instant, push_tenths};
use page_text::Page;
use std::alloc::{AllocError, Global};

/// Returns a copy of a text.
pub fn text(alloc: Global, text: &str) -> Result<String, AllocError> {
    String::from_str(alloc, text)
}

/// Formats an instant, such as `2025-01-31T18:00:00Z`.
pub fn instant_text(alloc: Global, instant: Instant) -> Result<String, AllocError> {
    let mut out = String::new(alloc);
    push_instant(&mut out, instant)?;
    Ok(out)
}

/// Formats a limit in tenths, such as `16.0`.
pub fn tenths_text(alloc: Global, tenths: u32) -> Result<String, AllocError> {
    let mut out = String::new(alloc);
    push_tenths(&mut out, tenths)?;
    Ok(out)
}

/// Appends a count: `1 call`, `2 calls`.
pub fn push_count(page: &mut Page, count: usize, one: &str) {
    write!(page, "{count} {one}");
    if count != 1 {
        page.push('s');
    }
}

/// Appends a number of seconds in the largest unit that is exact, such as `8 h`.
pub fn push_seconds(page: &mut Page, seconds: u32) {
    if seconds == 0 || seconds % 60 != 0 {
        return write!(page, "{seconds} s");
    }
    let minutes = seconds / 60;
    if minutes % 60 != 0 {
        return write!(page, "{minutes} min");
    }
    let hours = minutes / 60;
    if hours % 24 != 0 {
        return write!(page, "{hours} h");
    }
    let days = hours / 24;
    write!(page, "{days} d")
}

/// Returns the first characters of a text, with `..` after them if it has more.
pub fn cut(alloc: Global, text: &str, characters: usize) -> Result<String, AllocError> {
    let mut page = Page::new(alloc);
    for (place, character) in text.chars().enumerate() {
        if place == characters {
            page.push_str("..");
            break;
        }
        page.push(character);
    }
    page.finish()
}
