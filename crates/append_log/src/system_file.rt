//! A file of the operating system. Each method makes its system call, and then notes it with its
//! outcome.

ghost use Rattle.std.specs.Prelude.{◌≡◌, false, length, IfOk};
ghost use Rattle.append_log.specs.AppendedFile.{TakesSome};
ghost use Rattle.append_log.specs.Contents.{file_of};
ghost use Rattle.append_log.specs.Lines.{whole_lines};

use crate::record::Record;
use crate::{AppendedFile, WriteFault};
use std::fs::File;
use std::io;
use std::io::{ErrorKind, Write};

// The numbers by which calls are noted: those of `specs/Recorded.antt`.
const OPENED: u64 = 0;

const APPENDED: u64 = 1;

const REFUSED: u64 = 2;

const FAILED: u64 = 3;

const SYNCED: u64 = 4;

const SYNC_FAILED: u64 = 5;

const CUT: u64 = 6;

const CUT_FAILED: u64 = 7;

/// An open file that only this process writes, and only at its end.
#[derive(Drop)]
pub struct SystemFile {
    file: File,
    /// The number of bytes on disk, and of those appended since.
    synced: u64,
    appended: u64,
    calls: Record,
}

impl SystemFile {
    /// Takes a file that was opened to append and was read: its whole lines have `end` bytes.
    pub fn new(file: File, end: u64) -> SystemFile
        ensures usable { result.calls.history.now.has_failed ≡ false }
        ensures end { end ≡ length (whole_lines (file_of result.calls.history.now)) }
    {
        let mut calls = Record::new();
        calls.note(&[OPENED, end], &[]);
        SystemFile {
            file,
            synced: 0,
            appended: 0,
            calls,
        }
    }

    /// Returns the number of bytes on disk, once the file was cut.
    pub fn synced_bytes(&self) -> u64 {
        self.synced
    }
}

impl AppendedFile for SystemFile {
    ghost history = { λ file. file.calls.history };

    fn append(&mut self, bytes: &[u8]) -> Result<usize, WriteFault> {
        let answer = write_some(&mut self.file, bytes);
        match answer {
            Ok(count) => {
                self.appended = self.appended.saturating_add(count as u64);
                self.calls.note(&[APPENDED, count as u64], bytes);
            }
            Err(WriteFault::Full(_)) => self.calls.note(&[REFUSED, 0], &[]),
            Err(WriteFault::Failed(_)) => self.calls.note(&[FAILED, 0], &[]),
        }
        answer
    }

    fn sync(&mut self) -> io::Result<()> {
        let answer = self.file.sync_data();
        match answer {
            Ok(()) => {
                self.synced = self.synced.saturating_add(self.appended);
                self.appended = 0;
                self.calls.note(&[SYNCED, 0], &[]);
            }
            Err(_) => self.calls.note(&[SYNC_FAILED, 0], &[]),
        }
        answer
    }

    fn cut(&mut self, end: u64) -> io::Result<()> {
        let answer = cut_and_sync(&self.file, end);
        match answer {
            Ok(()) => {
                self.synced = end;
                self.appended = 0;
                self.calls.note(&[CUT, end], &[]);
            }
            Err(_) => self.calls.note(&[CUT_FAILED, end], &[]),
        }
        answer
    }

    fn cut_unsynced(&mut self) {
        // Best effort: the log has failed already, and this can only spare the next start bytes
        // that were never acknowledged.
        let _ = self.file.set_len(self.synced);
    }
}

/// Cuts an append-only log's file on the system's disk to a length, and syncs that.
// Synced, since until then a crash may still leave the bytes that were cut off.
fn cut_and_sync(file: &File, end: u64) -> io::Result<()> {
    file.set_len(end)?;
    file.sync_data()
}

/// Writes some of the bytes to an append-only log's file on the system's disk, and retries after a
/// signal.
fn write_some(file: &mut File, bytes: &[u8]) -> Result<usize, WriteFault>
    ensures { IfOk result (TakesSome bytes.now) }
{
    if bytes.is_empty() {
        return Ok(0);
    }
    // The bound is never reached; each function is proved to return.
    for _write in 0..u64::MAX {
        match file.write(bytes) {
            Ok(0) => return Err(WriteFault::Full(io::Error::from(ErrorKind::WriteZero))),
            Ok(count) => return Ok(count),
            Err(error) if error.kind() == ErrorKind::Interrupted => {}
            Err(error) => return Err(fault_of(error)),
        }
    }
    Err(WriteFault::Full(io::Error::from(ErrorKind::Interrupted)))
}

/// Separates errors of a full device, where a write to an append-only log's file took nothing, from
/// others, where it may have taken any bytes.
fn fault_of(error: io::Error) -> WriteFault {
    match error.kind() {
        ErrorKind::StorageFull | ErrorKind::QuotaExceeded | ErrorKind::FileTooLarge => {
            WriteFault::Full(error)
        }
        _ => WriteFault::Failed(error),
    }
}
