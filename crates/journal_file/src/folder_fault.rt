//! The errors of a folder's journal.

use journal::{HeaderFault, Unrestored};
use std::alloc::{AllocError, AllocFailed};

/// An error of a folder's journal, with the message that a program prints.
#[derive(Debug, Drop, thiserror::Error)]
pub enum FolderFault {
    /// Another process runs on the folder.
    #[error("command line: another process runs on the folder of --data")]
    InUse,
    /// The journal can't be read.
    #[error("device: read")]
    Read,
    /// The journal can't be written.
    #[error("device: write")]
    Write,
    /// Standard output can't be written.
    #[error("device: write")]
    Print,
    /// The clock can't be read.
    #[error("device: clock")]
    Clock,
    /// A line that has to name a site file, as the first line does, is malformed.
    #[error("journal: line {line}: {fault}")]
    Header { line: u64, fault: HeaderFault },
    /// A line of the journal is malformed, or its step can't be repeated as it was made.
    #[error("journal: {0}")]
    Unrestored(Unrestored),
    /// A line of the journal is too long.
    #[error("journal: a line has more than 4194304 bytes")]
    LineTooLong,
    /// The script made from the journal is too long.
    #[error("script: ScriptTooLong")]
    ScriptTooLong,
    /// Memory ran out.
    #[error("OutOfMemory")]
    OutOfMemory,
}

impl<T: Drop> From<AllocFailed<T>> for FolderFault {
    fn from(_failed: AllocFailed<T>) -> FolderFault {
        FolderFault::OutOfMemory
    }
}

impl From<AllocError> for FolderFault {
    fn from(_: AllocError) -> FolderFault {
        FolderFault::OutOfMemory
    }
}
