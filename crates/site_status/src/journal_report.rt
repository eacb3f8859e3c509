//! A report on a site's journal.

/// Whether a journal takes new entries.
#[derive(Clone, Copy, PartialEq, Eq)]
pub enum JournalState {
    Open,
    /// The device is full.
    Full,
    /// The content of the file is unknown, or an entry is missing.
    Broken,
}

/// A report on a site's journal.
#[derive(Clone, Copy, PartialEq, Eq)]
pub struct JournalReport {
    pub state: JournalState,
    /// The number of its bytes that are on the disk.
    pub bytes: u64,
    /// The number of times that lines were written and synced since the program began.
    pub syncs: u64,
    /// The total time that this took, in microseconds.
    pub sync_microseconds: u64,
}
