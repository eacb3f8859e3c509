//! Journals that report their state.

use crate::journal_report::JournalReport;

/// A journal that reports its state.
pub trait WatchedJournal {
    /// Returns the journal's current state for the status port. Waits for no file and no device.
    fn report(&self) -> JournalReport;
}
