//! Texts wrapped into lines of at most a given number of columns.

use ocpp_scalars::character_count;
use page_text::Page;
use std::alloc::AllocError;

/// The margins of wrapped lines.
#[derive(Clone, Copy)]
pub(crate) struct Margins {
    /// The number of blanks before a line.
    pub(crate) indent: usize,
    /// The maximum width of a line in columns, if there is one.
    pub(crate) columns: Option<usize>,
}

/// Appends a character a number of times to `explain`'s text table, for its margins and its bars.
pub(crate) fn push_times(out: &mut Page, character: char, times: usize) {
    for _ in 0..times {
        out.push(character);
    }
}

/// Appends a text to `explain`'s text table as lines, broken at its blanks and each ended by a line
/// feed. A line after the first is indented by two more columns. A word wider than any line has a
/// line of its own.
pub(crate) fn push_lines(out: &mut Page, text: &str, margins: Margins) {
    push_times(out, ' ', margins.indent);
    let indent = margins.indent.saturating_add(2);
    let mut column = margins.indent;
    let mut is_first = true;
    for word in text.split(' ') {
        let width = character_count(word);
        if is_first {
            column = column.saturating_add(width);
        } else if fits(column, width, margins.columns) {
            out.push(' ');
            column = column.saturating_add(width).saturating_add(1);
        } else {
            out.push('\n');
            push_times(out, ' ', indent);
            column = indent.saturating_add(width);
        }
        out.push_str(word);
        is_first = false;
    }
    out.push('\n');
}

/// Appends a text that was made elsewhere to `explain`'s text table as wrapped lines, or fails with
/// the text's failed allocation.
pub(crate) fn push_made_lines(out: &mut Page, made: Result<String, AllocError>, margins: Margins) {
    match made {
        Ok(text) => push_lines(out, text.as_str(), margins),
        Err(AllocError) => out.push_made(Err(AllocError)),
    }
}

/// Returns whether a line of `explain`'s text table that is filled up to `column` has room for a
/// blank and a word.
fn fits(column: usize, width: usize, columns: Option<usize>) -> bool {
    columns.is_none_or(|columns| column.saturating_add(width) < columns)
}

/// Appends an ASCII text to `explain`'s text table, padded with blanks on its left to the width of
/// its column.
pub(crate) fn push_right(out: &mut Page, text: &str, width: usize) {
    push_times(out, ' ', width.saturating_sub(text.len()));
    out.push_str(text);
}

/// Appends an ASCII text to `explain`'s text table, padded with blanks on its right to the width of
/// its column.
pub(crate) fn push_left(out: &mut Page, text: &str, width: usize) {
    out.push_str(text);
    push_times(out, ' ', width.saturating_sub(text.len()));
}
