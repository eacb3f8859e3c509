//! Escaped texts in XML and in HTML.

use page_text::Page;
use std::alloc::AllocError;

/// Appends a number to a page of `explain`, after the text that comes before it.
pub(crate) fn push_number(out: &mut Page, before: &str, number: u64) {
    out.push_str(before);
    write!(out, "{number}");
}

/// Appends a text, escaped for XML and HTML within elements and quoted attributes. U+FFFE, U+FFFF
/// and control characters other than tab and line feed become U+FFFD.
pub fn push_escaped(out: &mut Page, text: &str) {
    for character in text.chars() {
        match character {
            '&' => out.push_str("&amp;"),
            '<' => out.push_str("&lt;"),
            '>' => out.push_str("&gt;"),
            '"' => out.push_str("&quot;"),
            '\'' => out.push_str("&#39;"),
            '\t' | '\n' => out.push(character),
            // An XML parser rejects the whole file for one character that XML 1.0 forbids.
            '\0'..='\u{1f}' | '\u{7f}'..='\u{9f}' | '\u{fffe}' | '\u{ffff}' => {
                out.push('\u{fffd}');
            }
            _ => out.push(character),
        }
    }
}

/// Appends a text that was made elsewhere, escaped.
pub fn push_made_escaped(out: &mut Page, made: Result<String, AllocError>) {
    match made {
        Ok(text) => push_escaped(out, text.as_str()),
        Err(AllocError) => out.push_made(Err(AllocError)),
    }
}

/// Appends `opening` as it is, `text` escaped, and `closing` as it is.
pub fn push_element(out: &mut Page, opening: &str, text: &str, closing: &str) {
    out.push_str(opening);
    push_escaped(out, text);
    out.push_str(closing);
}
