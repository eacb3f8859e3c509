//! The folder of a running site. One process at a time owns its journal.

use crate::earlier_boots::BOOTS;
use crate::folder_fault::FolderFault;
use crate::named_file::{NamedFile, report_error};
use crate::reserve_file::ReserveFile;
use std::alloc::{AllocError, AllocGlobal, Global};
use std::fs::{DirBuilder, File, OpenOptions, TryLockError};
use std::io;
use std::io::ErrorKind;
use std::os::unix::fs::{DirBuilderExt, OpenOptionsExt};
use std::rt::Files;

/// The mode of a new file: it has idTags, so only its owner may read and write it.
pub const OWN_FILE: u32 = 0o600;

/// The mode of a new folder.
const OWN_FOLDER: u32 = 0o700;

/// The journal of a folder, open and locked, so that no other process runs on it.
#[derive(Drop)]
pub struct OpenJournal {
    pub lines: NamedFile,
    pub reserve: ReserveFile,
    /// The path of the file in which earlier versions kept boots.
    pub boots: String,
}

/// Opens the journal of a folder for this process alone. Creates the folder and files that are
/// missing.
pub fn open_journal<R: Files<File = File> + Eprint + AllocGlobal>(
    rt: &R,
    folder: &str,
) -> Result<OpenJournal, FolderFault> {
    make_folder(rt, folder)?;
    let path = journal_path(rt.alloc(), folder)?;
    let mut options = OpenOptions::new();
    let opened = options
        .read(true)
        .append(true)
        .create(true)
        .mode(OWN_FILE)
        .open(rt, path.as_str());
    let file = report_error(rt, path.as_str(), opened, FolderFault::Write)?;
    lock_journal(rt, &file, path.as_str())?;
    // Without this a power cut can lose a new file's entry in the folder.
    let synced = sync_folder(rt, folder);
    report_error(rt, folder, synced, FolderFault::Write)?;
    let reserve = path_in(rt.alloc(), folder, "reserve")?;
    Ok(OpenJournal {
        lines: NamedFile { file, path },
        reserve: ReserveFile::make(rt, reserve.as_str()),
        boots: path_in(rt.alloc(), folder, BOOTS)?,
    })
}

/// Locks the journal file at this path for this process of `run` alone.
fn lock_journal<R: Eprint>(rt: &R, file: &File, path: &str) -> Result<(), FolderFault> {
    // The kernel releases this lock when the process ends, so a killed one leaves none behind.
    match file.try_lock() {
        Ok(()) => Ok(()),
        Err(TryLockError::WouldBlock) => Err(FolderFault::InUse),
        Err(TryLockError::Error(error)) => report_error(rt, path, Err(error), FolderFault::Write),
    }
}

/// Creates the folder for `run`'s journal file if needed. Syncs the folder above it, so that a
/// power cut can't lose the new one.
fn make_folder<R: Files<File = File> + Eprint + AllocGlobal>(
    rt: &R,
    folder: &str,
) -> Result<(), FolderFault> {
    match DirBuilder::new().mode(OWN_FOLDER).create(rt, folder) {
        Ok(()) => {}
        Err(error) if error.kind() == ErrorKind::AlreadyExists => return Ok(()),
        Err(error) => return report_error(rt, folder, Err(error), FolderFault::Write),
    }
    let above = path_in(rt.alloc(), folder, "..")?;
    let synced = sync_folder(rt, above.as_str());
    report_error(rt, above.as_str(), synced, FolderFault::Write)
}

/// Opens the journal of a folder for reading. A running central system may write to it meanwhile.
pub fn open_to_read<R: Files<File = File> + Eprint + AllocGlobal>(
    rt: &R,
    folder: &str,
) -> Result<NamedFile, FolderFault> {
    let path = journal_path(rt.alloc(), folder)?;
    let opened = File::open(rt, path.as_str());
    let file = report_error(rt, path.as_str(), opened, FolderFault::Read)?;
    Ok(NamedFile { file, path })
}

/// Returns the path of the journal file in the folder of a site.
fn journal_path(alloc: Global, folder: &str) -> Result<String, AllocError> {
    path_in(alloc, folder, "journal")
}

/// Returns the path of a file in a folder.
pub fn path_in(alloc: Global, folder: &str, name: &str) -> Result<String, AllocError> {
    let mut path = String::from_str(alloc, folder)?;
    if !folder.ends_with('/') {
        path.push_str("/")?;
    }
    path.push_str(name)?;
    Ok(path)
}

/// Syncs a folder, so that a power cut can't lose the entry of a new journal file or folder in it.
fn sync_folder<R: Files<File = File>>(rt: &R, folder: &str) -> io::Result<()> {
    File::open(rt, folder)?.sync_all()
}
