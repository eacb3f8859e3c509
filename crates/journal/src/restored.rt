//! The restore of a book from the lines of a journal after its first one.

ghost use Rattle.std.specs.Prelude.{◌≡◌, false, IfErr, IfOk, OnOk};
ghost use Rattle.journal.specs.ByCases.Restore.{LeadsByLine};
ghost use Rattle.journal.specs.Journal.{IsRestored, IsUnrestored, restored_bytes};
ghost use Rattle.journal.specs.Restore.{IsFaultOf, KeepsPass, is_made};

use crate::lines::split_line;
use crate::reading::read_bytes;
use crate::restore_fault::RestoreFault;
use crate::restoring::restore_line;
use ghost_list::ListName;
use ocppj_frame::ReadingMemory;
use std::alloc::Global;
use std::sync::ledger::Ledger;
use thiserror::Error;
use version_store::{Book, Pass};

/// The number of the first line after the header.
const FIRST_LINE: u64 = 2;

/// The result of a restore.
#[derive(Clone, Copy, PartialEq, Eq)]
pub struct Restored {
    /// The number of lines of the journal, including the header.
    pub lines: u64,
}

/// The first line of a journal that can't be restored.
#[derive(Clone, Copy, Debug, PartialEq, Eq, Error)]
#[error("line {line}: {fault}")]
pub struct Unrestored {
    /// Its number, counted from 1 with the header.
    pub line: u64,
    pub fault: RestoreFault,
}

/// Restores a book from the lines of a journal after its header. The text after the last line feed
/// is torn, and isn't read. After an error the book must be discarded.
pub fn restore<C: Ledger, A: Ledger, N: ListName>(
    alloc: Global,
    book: &mut Book<C, A, N>,
    pass: &mut Pass<C, A>,
    text: &[u8],
) -> Result<Restored, Unrestored>
    ensures restored { IfOk result
        (λ restored. IsRestored book.old.present text.now restored book.new.present) }
    ensures fault { IfErr result
        (λ refused. IsUnrestored book.old.present text.now refused book.new.present) }
    ensures pass { KeepsPass pass.old pass.new }
{
    let mut memory = ReadingMemory::new(alloc);
    let mut number = FIRST_LINE;
    let mut rest = text;
    // A torn last line can be dropped: it was never acknowledged.
    while let Some((line, others)) = split_line(rest) {
        match restore_bytes(alloc, &mut memory, book, pass, line) {
            Ok(()) => number += 1,
            Err(fault) => {
                return Err(Unrestored {
                    line: number,
                    fault,
                });
            }
        }
        rest = others;
    }
    Ok(Restored { lines: number - 1 })
}

/// Restores a line of the journal, without its line feed, from bytes that may not be UTF-8: makes
/// its step on the book.
fn restore_bytes<C: Ledger, A: Ledger, N: ListName>(
    alloc: Global,
    memory: &mut ReadingMemory,
    book: &mut Book<C, A, N>,
    pass: &mut Pass<C, A>,
    bytes: &[u8],
) -> Result<(), RestoreFault>
    ensures restored { OnOk result
        (LeadsByLine book.old.present bytes.now book.new.present) }
    ensures fault { IfErr result (IsFaultOf (restored_bytes book.old.present bytes.now)) }
    ensures kept { IfErr result
        (λ fault. is_made fault ≡ false → book.new.present ≡ book.old.present) }
    ensures pass { KeepsPass pass.old pass.new }
{
    match read_bytes(bytes) {
        Ok(line) => restore_line(alloc, memory, book, pass, &line),
        Err(fault) => Err(RestoreFault::Line(fault)),
    }
}
