//! Foreign texts within one line.

use std::alloc::AllocError;

/// Appends a foreign text, such as one from a client. A control character becomes a space, so the
/// text can't begin a new line. If memory runs out, a part of the text may have been appended.
pub fn push_without_controls(line: &mut String, text: &str) -> Result<(), AllocError> {
    for character in text.chars() {
        line.push(if character.is_control() {
            ' '
        } else {
            character
        })?;
    }
    Ok(())
}
