//! Describes the fault of a line of a script that can't be read, and the probable intention.

use crate::line_text::utf8_of;
use crate::report::Report;
use crate::sentences::line_sentence;
use findings::{Excerpt, is_similar, similar_name};
use ocpp_scalars::{InstantFault, read_instant};
use replay::ScriptLineFault;
use site_rules::Site;
use std::alloc::{AllocError, Global};

/// The words that may follow the instant.
const WORDS: [&str; 4] = ["operator", "point", "hold", "release"];

/// Describes, for `check`, the fault of a script's line that can't be played, with an excerpt of it
/// and the probable mistake.
pub(crate) fn mistake_message(
    report: &mut Report,
    site: &Site,
    line: &[u8],
    fault: ScriptLineFault,
) -> Result<String, AllocError> {
    let alloc = report.alloc;
    let (text, valid) = utf8_of(line);
    match fault {
        ScriptLineFault::TooLong => {
            let count = line.len();
            format!(in alloc; "{fault}: {count} bytes; at most 1048576 are allowed")
        }
        ScriptLineFault::BadText => {
            format!(in alloc; "{fault}: it isn't UTF-8 from its byte at offset {valid} on")
        }
        ScriptLineFault::BadLine => bad_line(alloc, text),
        ScriptLineFault::BadInstant => bad_instant(alloc, word_at(text, 0)),
        ScriptLineFault::UnknownPoint => unknown_point(report, site, word_at(text, 2)),
        ScriptLineFault::NotComposite | ScriptLineFault::UnknownRequest => {
            let why = line_sentence(fault);
            format!(in alloc; "{fault}: {why}")
        }
    }
}

/// Returns the word at an index in a line of a script, counted from 0, or an empty text, for a
/// fault of `check`.
fn word_at(line: &str, place: usize) -> &str {
    line.split(' ').nth(place).unwrap_or("")
}

/// Describes, for `check`, the fault of a script's line that has none of the forms of lines, with
/// the probable mistake.
fn bad_line(alloc: Global, text: &str) -> Result<String, AllocError> {
    let hint = form_hint(alloc, text)?;
    let fault = ScriptLineFault::BadLine;
    let rule = line_sentence(fault);
    let text = Excerpt(text);
    format!(in alloc; "{fault}: {hint}; {rule}: {text}")
}

/// Describes, for `check`, a point of a script that isn't in the site. Adds the identity that is
/// probably meant.
pub(crate) fn unknown_point(
    report: &mut Report,
    site: &Site,
    id: &str,
) -> Result<String, AllocError> {
    let hint = point_hint(report, site, id)?;
    let id = Excerpt(id);
    format!(in report.alloc; "UnknownPoint: the site has no point \"{id}\"{hint}")
}

/// Describes, for `check`, the fault of a script's line whose first word is no instant.
fn bad_instant(alloc: Global, word: &str) -> Result<String, AllocError> {
    let hint = match read_instant(word) {
        Ok(_) => "",
        Err(fault) => instant_hint(word, fault),
    };
    let fault = ScriptLineFault::BadInstant;
    let rule = line_sentence(fault);
    let word = Excerpt(word);
    format!(in alloc; "{fault}: \"{word}\" {hint}; {rule}")
}

/// Describes, for `check`, what is wrong with a line that has none of the forms of a script's
/// lines.
fn form_hint(alloc: Global, text: &str) -> Result<String, AllocError> {
    // This comes first, since two blanks would begin an empty word, and a tab would end none.
    if let Some(hint) = plain_hint(text) {
        return String::from_str(alloc, hint);
    }
    let Some((_, rest)) = text.split_once(' ') else {
        return String::from_str(alloc, "there is only one word");
    };
    let Some((word, _)) = rest.split_once(' ') else {
        return String::from_str(alloc, "there are too few words, or two blanks in a row");
    };
    if WORDS.contains(&word) {
        return String::from_str(alloc, words_hint(word));
    }
    let found = Excerpt(word);
    match similar_name(alloc, word, &WORDS)? {
        Some(meant) => {
            format!(in alloc; "the second word is \"{found}\"; \"{meant}\" is probably meant")
        }
        None => format!(in alloc; "the second word is \"{found}\""),
    }
}

/// Returns, for a fault of `check`, the mistake that the first characters of a script's line show,
/// such as a comment or a blank.
fn plain_hint(text: &str) -> Option<&'static str> {
    let start = text.trim_start();
    if start.starts_with('#') || start.starts_with("//") {
        return Some("scripts have no comments");
    }
    if text.starts_with('\u{feff}') {
        return Some("the line begins with a byte order mark; save the script without it");
    }
    if text.starts_with('>') || text.starts_with('*') || text.starts_with('!') {
        return Some("this is a line of a replay's output, and no line of a script");
    }
    if text.starts_with('[') {
        return Some("this is only a frame, without the words before it");
    }
    if text.starts_with(' ') {
        return Some("the line begins with a blank");
    }
    first_word_hint(text)
}

/// Returns, for a fault of `check`, the mistake in the first word of a script's line, or in the
/// blanks after it.
fn first_word_hint(text: &str) -> Option<&'static str> {
    let (first, rest) = text.split_once(' ').unwrap_or((text, ""));
    if first.contains('\t') || rest.starts_with('\t') {
        return Some("there is a tab in place of a blank");
    }
    if rest.starts_with(' ') {
        return Some("there are two blanks in place of one");
    }
    if is_date(first) {
        return Some("the date and the time are apart; a T joins them, as in 2025-01-31T18:00:00Z");
    }
    None
}

/// Returns whether a word in a script, where `check` wants an instant, looks like a date without a
/// time.
fn is_date(word: &str) -> bool {
    word.len() == 10 && has_shape(word, "dddd-dd-dd")
}

/// Returns whether a word in a script begins with characters of this shape of an instant, `d` for a
/// digit, for a hint of `check`.
fn has_shape(text: &str, shape: &str) -> bool {
    if text.len() < shape.len() {
        return false;
    }
    for (byte, wanted) in text.bytes().zip(shape.bytes()) {
        let fits = if wanted == b'd' {
            byte.is_ascii_digit()
        } else {
            byte == wanted
        };
        if !fits {
            return false;
        }
    }
    true
}

/// Describes, for a fault of `check`, the words that have to follow the right second word of a
/// script's line.
fn words_hint(word: &str) -> &'static str {
    match word {
        "release" => {
            "after release comes the number of a held request, from 1 to 1000000000000, without leading zeros and with nothing after it"
        }
        _ =>
            "after operator, point and hold come the identity of a point and a frame, with one blank between them",
    }
}

/// Describes, for a fault of `check`, the mistake in the instant at the beginning of a script's
/// line.
fn instant_hint(word: &str, fault: InstantFault) -> &'static str {
    if matches!(fault, InstantFault::Range) {
        return "lies before 1970 or after the year 9999";
    }
    if word.starts_with('\u{feff}') {
        return "begins with a byte order mark; save the script without it";
    }
    if has_shape(word, "dddd-dd-ddTdd:dd:dd") || has_shape(word, "dddd-dd-ddtdd:dd:dd") {
        return "names no day or time of day that there is, or ends in no zone such as Z or +01:00";
    }
    if has_shape(word, "dddd-dd-ddTdd:dd") {
        return "has no seconds";
    }
    if is_date(word) {
        return "has no time of day";
    }
    "is no instant"
}

/// Returns, for a fault of `check`, a hint at the site's point that an unknown identity in a script
/// probably means. Only the first 1,000 such identities get one.
fn point_hint(report: &mut Report, site: &Site, id: &str) -> Result<String, AllocError> {
    let alloc = report.alloc;
    if !report.takes_hint() {
        return Ok(String::new(alloc));
    }
    for place in 0..site.len() {
        if let Some(point) = site.point(place) {
            if is_similar(alloc, id, point.id)? {
                let meant = point.id;
                return format!(in alloc; " (\"{meant}\" is one)");
            }
        }
    }
    Ok(String::new(alloc))
}
