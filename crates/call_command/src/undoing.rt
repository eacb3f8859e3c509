//! Undoes a line of a journal, and prints notes on it.

use crate::journal_state::state_of_journal;
use command_io::ProgramFault;
use journal_file::FolderFault;
use journal_reader::EventReader;
use operator_calls::{Caller, GivenCall, LostProfile, UNDO, Undo, UndoReader, Visit};
use site_core::Machine;
use site_history::Event;
use site_rules::Site;
use std::alloc::{AllocError, AllocGlobal};
use std::fs::File;
use std::rt::{Clock, Files};

/// The greatest number of characters shown of the undone line.
const LONGEST_SHOWN: usize = 160;

/// A reader of a journal for the undo of one of its lines.
#[derive(Drop)]
struct UndoneJournal {
    reader: UndoReader,
}

impl EventReader for UndoneJournal {
    fn before(&mut self, machine: &Machine, line: u64, point: &str) -> Result<(), FolderFault> {
        self.reader.before(machine, line, point)?;
        Ok(())
    }

    fn read(&mut self, machine: &Machine, event: &Event<'_>) -> Result<(), FolderFault> {
        self.reader.read(machine, event)?;
        Ok(())
    }
}

/// Returns the calls that bring the point of a journal's line back to its profiles before that
/// line. Prints which profiles can't be restored, and whether nothing needs to be done.
pub fn undo_of<R: Files<File = File> + Clock + Eprint + AllocGlobal>(
    rt: &R,
    folder: &str,
    site: Site,
    number: u64,
) -> Result<Undo, ProgramFault> {
    let mut journal = UndoneJournal {
        reader: UndoReader::new(rt.alloc(), number),
    };
    let machine = state_of_journal(rt, folder, site, &mut journal)?;
    let Some(undo) = journal.reader.undo(&machine)? else {
        return Err(ProgramFault::NoUndoLine);
    };
    say_line(rt, number, undo.line.as_str())?;
    say_lost(rt, undo.lost.as_slice());
    if undo.calls.is_empty() {
        let point = &undo.point;
        let _ = eprintln!(rt;
            "undo: {point} has the profiles that it had before line {number}, as far as they can be there"
        );
    }
    Ok(undo)
}

/// Leaves out of visits the calls that would also take back later changes, unless that is forced.
/// Prints these changes.
pub fn hold_undo<R: Print + Eprint + AllocGlobal>(
    caller: &mut Caller<'_, R>,
    undo: &Undo,
    calls: &[GivenCall],
    visits: &mut Vec<Visit>,
) -> Result<(), ProgramFault> {
    for visit in visits {
        if !caller.passes_undo(visit.label(), undo.later.as_slice())? {
            visit.leave_out(UNDO, calls);
        }
    }
    Ok(())
}

/// Prints to standard error the beginning of the journal's line that the command `call --undo` is
/// to revert.
fn say_line<R: Eprint + AllocGlobal>(rt: &R, number: u64, line: &str) -> Result<(), AllocError> {
    let mut shown = String::new(rt.alloc());
    for character in line.chars().take(LONGEST_SHOWN) {
        shown.push(character)?;
    }
    let _ = eprintln!(rt; "undo: line {number} is {shown}");
    Ok(())
}

/// Prints to standard error which charging profiles the command `call --undo` can't restore.
fn say_lost<R: Eprint>(rt: &R, lost: &[LostProfile]) {
    for LostProfile { id, connector } in lost {
        let _ = eprintln!(rt;
            "undo: TxProfile {id} at connector {connector} can't be set again: its transaction has ended"
        );
    }
}
