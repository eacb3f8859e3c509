//! A line that is built before its number is known.

ghost use Rattle.std.specs.Prelude.{◌≡◌, string_bytes, IfOk};
ghost use Rattle.ocpp_scalars.specs.Appending.{Appends};
ghost use Rattle.journal.specs.Entry.{IsEntryOf, entry_text};

use crate::line::{Line, push_before_number, push_behind_number};
use ocpp_scalars::push_integer;
use std::alloc::{AllocError, Global};
use std::marker::Model;

/// A line of a journal that is built before the step that draws its number is made. So no line is
/// built while the book is locked.
#[derive(Drop)]
pub struct Entry {
    /// The part before the number that the step draws.
    before: String,
    /// Whether the step draws a number.
    is_numbered: bool,
    /// The part after the number, with the line feed.
    behind: String,
}

impl Model for Entry {
    ghost use Rattle.std.specs.Prelude.{string_bytes};
    ghost use Rattle.journal.specs.Entry.{EntryState};

    ghost Value = { EntryState };

    ghost view = { λ e. record {
      before = string_bytes e.before;
      is_numbered = e.is_numbered;
      behind = string_bytes e.behind;
    } };
}

impl Entry {
    /// Builds the entry of a line, whatever number the line has.
    pub fn new(alloc: Global, line: &Line<'_>) -> Result<Entry, AllocError>
        ensures { IfOk result (λ entry. IsEntryOf entry line.now) }
    {
        let mut before = String::new(alloc);
        push_before_number(&mut before, line)?;
        let mut behind = String::new(alloc);
        push_behind_number(&mut behind, line)?;
        Ok(Entry {
            before,
            is_numbered: line.noted.number().is_some(),
            behind,
        })
    }

    /// Appends the line with the number that its step drew. If the step draws none, `number` is
    /// ignored.
    pub fn push(&self, text: &mut String, number: u64) -> Result<(), AllocError>
        ensures { Appends result (string_bytes text.old) (string_bytes text.new)
            (entry_text self.now number) }
    {
        text.push_str(self.before.as_str())?;
        if self.is_numbered {
            push_integer(text, number)?;
        }
        text.push_str(self.behind.as_str())
    }
}
