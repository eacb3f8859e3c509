//! Texts of at most a given number of characters.
ghost use Rattle.std.specs.Prelude.{◌≡◌, ◌↔◌, ◌<◌, ◌≤◌, if◌then◌else◌, IfErr, IfOk, IsOk, None, Some, length, nat_le, string_bytes};
ghost use Rattle.std.specs.Str.{chars};

use crate::characters::character_count;
use std::alloc::{AllocError, Global};
use std::marker::Model;

/// A text of 0 to `MAX` characters, counted as Unicode scalar values.
#[derive(Debug, Drop)]
pub struct BoundedText<const MAX: usize> {
    text: String,
}

// Clauses see the text's bytes.
impl<const MAX: usize> Model for BoundedText<MAX> {
    ghost use Rattle.std.specs.Prelude.{List, ℕ, ◌≤◌, length, string_bytes};
    ghost use Rattle.std.specs.Str.{chars};

    ghost Value = { List ℕ };

    ghost view = { λ bounded. string_bytes bounded.text };

    ghost invariant = { λ bounded. length (chars (string_bytes bounded.text)) ≤ MAX };
}

impl<const MAX: usize> BoundedText<MAX> {
    /// Wraps a text, or returns it as the error if it has more than `MAX` characters. Allocates
    /// nothing.
    pub fn try_new(text: String) -> Result<BoundedText<MAX>, String>
        ensures valid { IsOk result ↔ (length (chars (string_bytes text)) ≤ MAX) }
        ensures ok { IfOk result (λ bounded. bounded ≡ string_bytes text) }
        ensures err { IfErr result (λ s. s ≡ text) }
    {
        if character_count(text.as_str()) > MAX {
            return Err(text);
        }
        Ok(BoundedText { text })
    }

    /// Copies a text, or returns `None` without a copy if it has more than `MAX` characters.
    pub fn try_copy(alloc: Global, text: &str) -> Result<Option<BoundedText<MAX>>, AllocError>
        ensures copy { IfOk result (λ copy. copy
            ≡ (if nat_le (length (chars text.now)) MAX then Some text.now else None)) }
        ensures certain { MAX < length (chars text.now) → IsOk result }
    {
        // Counted first, so that a text that is too long is refused even if no memory is left.
        if character_count(text) > MAX {
            return Ok(None);
        }
        Ok(Some(BoundedText {
            text: String::from_str(alloc, text)?,
        }))
    }

    /// Returns the text.
    pub fn as_str(&self) -> &str
        ensures text { result.now ≡ self.now }
        ensures short { length (chars self.now) ≤ MAX }
    {
        self.text.as_str()
    }

    /// Returns a copy.
    pub fn copy(&self, alloc: Global) -> Result<BoundedText<MAX>, AllocError>
        ensures { IfOk result (λ copy. copy ≡ self.now) }
    {
        Ok(BoundedText {
            text: String::from_str(alloc, self.text.as_str())?,
        })
    }

    /// Returns the text itself.
    pub fn into_string(self) -> String
        ensures { string_bytes result ≡ self.entry }
    {
        let BoundedText { text } = self;
        text
    }
}
