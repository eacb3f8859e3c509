//! The line and the column of an offset in a text.

use crate::finding::Location;

/// Returns the line and the column of the character at an offset in bytes, both counted from 1.
pub fn place_in_text(text: &str, offset: usize) -> Location {
    let mut line: u64 = 1;
    let mut column: u64 = 1;
    for (at, character) in text.char_indices() {
        if at >= offset {
            break;
        }
        if character == '\n' {
            line = line.saturating_add(1);
            column = 1;
        } else {
            column = column.saturating_add(1);
        }
    }
    Location::Character { line, column }
}
