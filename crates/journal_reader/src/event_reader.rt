//! Readers of the events of a journal.

use journal_file::FolderFault;
use site_core::Machine;
use site_history::{Event, SiteCalls};

/// A reader of the events of a journal, in their order.
pub trait EventReader {
    /// Is called by the reader of the journal with the state before a line, the number of its line
    /// in the journal's script, and its point. It does nothing, unless a command wants that state.
    fn before(&mut self, _machine: &Machine, _line: u64, _point: &str) -> Result<(), FolderFault> {
        Ok(())
    }

    /// Reads the event of that line, given the state after it.
    fn read(&mut self, machine: &Machine, event: &Event<'_>) -> Result<(), FolderFault>;

    /// Does what can wait for many events, such as printing.
    fn end_part(&mut self) -> Result<(), FolderFault> {
        Ok(())
    }

    /// Returns whether to look again, given the state at the end of the journal: a running site may
    /// have written more. Waits before that.
    fn waits(&mut self, _machine: &Machine) -> bool {
        false
    }
}

/// A reader that doesn't look at any event, for the state alone.
#[derive(Clone, Copy)]
pub struct NoReader;

impl EventReader for NoReader {
    /// Ignores the event, since only the state at the end is wanted.
    fn read(&mut self, _machine: &Machine, _event: &Event<'_>) -> Result<(), FolderFault> {
        Ok(())
    }
}

impl EventReader for SiteCalls {
    fn read(&mut self, machine: &Machine, event: &Event<'_>) -> Result<(), FolderFault> {
        self.follow(machine, event)?;
        Ok(())
    }
}
