//! The journal of a folder after its lines are restored.

use crate::folder_fault::FolderFault;
use crate::journal_lines::JournalLines;
use crate::named_file::{NamedFile, report_error};
use crate::opening::OpenJournal;
use crate::reserve_file::ReserveFile;
use append_log::{Log, SystemFile};
use std::alloc::AllocGlobal;

/// A journal that continues after the restored lines, which are on disk.
#[derive(Drop)]
pub struct RestoredJournal {
    pub log: Log<SystemFile>,
    /// The file's name, for messages about it.
    pub path: String,
    pub reserve: ReserveFile,
}

impl RestoredJournal {
    /// Cuts a torn last line off the file. The rest is on disk afterwards: a process killed before
    /// its sync may have written it.
    pub fn cut_torn<R: Eprint + AllocGlobal>(
        rt: &R,
        opened: OpenJournal,
        lines: &JournalLines,
    ) -> Result<RestoredJournal, FolderFault> {
        let OpenJournal {
            lines: NamedFile { file, path },
            reserve,
            ..
        } = opened;
        let end = lines.length();
        let opened = match Log::open(rt.alloc(), SystemFile::new(file, end), end) {
            Ok(log) => Ok(log),
            Err((error, file)) => {
                drop(file);
                Err(error)
            }
        };
        let log = report_error(rt, path.as_str(), opened, FolderFault::Write)?;
        let torn = lines.torn();
        if torn > 0 {
            let _ = eprintln!(rt;
                "central: {path}: its last line is torn, and was cut: {torn} bytes"
            );
        }
        Ok(RestoredJournal { log, path, reserve })
    }
}
