//! A file in memory that can fail and crash, for tests.

ghost use Rattle.std.specs.Prelude.{◌≡◌, ◌≤◌, ◌++◌, false, drop, length, take, IfOk, OnErr};
ghost use Rattle.append_log.specs.AppendedFile.{TakesSome};
ghost use Rattle.append_log.specs.Contents.{MayLeave, only_synced};

use crate::record::Record;
use crate::{AppendedFile, WriteFault};
use std::alloc::{AllocError, Global};
use std::io;
use std::io::ErrorKind;

// The numbers by which calls are noted: those of `specs/Recorded.antt`.
const APPENDED: u64 = 1;

const REFUSED: u64 = 2;

const FAILED: u64 = 3;

const SYNCED: u64 = 4;

const SYNC_FAILED: u64 = 5;

const CUT: u64 = 6;

const CUT_FAILED: u64 = 7;

const IN_MEMORY: u64 = 8;

/// The planned outcome of a call.
#[derive(Clone, Copy)]
pub enum FileAnswer {
    /// The whole call succeeds.
    Made,
    /// A write takes at most this many bytes, but at least one. Other calls succeed.
    Part(usize),
    /// A write finds a full device. Other calls succeed.
    Full,
    Failed,
}

/// A file in memory. Each call takes the last of the given answers as its outcome; once none is
/// left, all calls succeed.
#[derive(Drop)]
pub struct MemoryFile {
    bytes: Vec<u8>,
    /// The number of these bytes that are on its disk.
    synced: usize,
    has_failed: bool,
    answers: Vec<FileAnswer>,
    calls: Record,
    ghost within: { synced ≤ length bytes.items },
    ghost on_disk: { calls.history.now.synced ≡ take synced bytes.items },
    ghost appended: { has_failed ≡ false → calls.history.now.appended ≡ drop synced bytes.items },
    ghost failed: { has_failed ≡ calls.history.now.has_failed },
}

impl MemoryFile {
    /// Makes a file with these bytes, all of them on its disk.
    pub fn new(bytes: Vec<u8>, answers: Vec<FileAnswer>) -> MemoryFile
        ensures { result.calls.history.now ≡ only_synced bytes.items }
    {
        let mut calls = Record::new();
        calls.note(&[IN_MEMORY, 0], bytes.as_slice());
        MemoryFile {
            synced: bytes.len(),
            bytes,
            has_failed: false,
            answers,
            calls,
        }
    }

    /// Returns the bytes that a crash leaves: those on disk, and at most `behind` of those after
    /// them.
    pub fn crash(&self, alloc: Global, behind: usize) -> Result<Vec<u8>, AllocError>
        ensures { IfOk result (λ left. MayLeave self.now.calls.history.now left.items) }
    {
        let end = self.synced + behind.min(self.bytes.len() - self.synced);
        let mut left = Vec::with_capacity(alloc, end)?;
        left.extend_from_slice(&self.bytes[..end])?;
        Ok(left)
    }
}

impl AppendedFile for MemoryFile {
    ghost history = { λ file. file.calls.history };

    /// Appends as many of the bytes as the next planned answer allows.
    fn append(&mut self, bytes: &[u8]) -> Result<usize, WriteFault> {
        let planned = self.answers.pop().unwrap_or(FileAnswer::Made);
        let answer = append_some(&mut self.bytes, planned, bytes);
        match answer {
            Ok(count) => self.calls.note(&[APPENDED, count as u64], bytes),
            Err(WriteFault::Full(_)) => self.calls.note(&[REFUSED, 0], &[]),
            Err(WriteFault::Failed(_)) => {
                self.has_failed = true;
                self.calls.note(&[FAILED, 0], &[]);
            }
        }
        answer
    }

    /// Counts all bytes in memory as synced, unless the next planned answer is a failure.
    fn sync(&mut self) -> io::Result<()> {
        if let Some(FileAnswer::Failed) = self.answers.pop() {
            self.has_failed = true;
            self.calls.note(&[SYNC_FAILED, 0], &[]);
            return Err(io::Error::from(ErrorKind::Other));
        }
        self.synced = self.bytes.len();
        self.calls.note(&[SYNCED, 0], &[]);
        Ok(())
    }

    /// Cuts the bytes in memory, unless the next planned answer is a failure.
    fn cut(&mut self, end: u64) -> io::Result<()> {
        if let Some(FileAnswer::Failed) = self.answers.pop() {
            self.has_failed = true;
            self.synced = self.synced.min(end as usize);
            self.calls.note(&[CUT_FAILED, end], &[]);
            return Err(io::Error::from(ErrorKind::Other));
        }
        self.bytes.truncate(end as usize);
        self.synced = end as usize;
        self.calls.note(&[CUT, end], &[]);
        Ok(())
    }

    fn cut_unsynced(&mut self) {
        self.bytes.truncate(self.synced);
    }
}

/// Appends to an append-only log's file in memory, made for tests, as many of the bytes as the
/// planned answer allows.
fn append_some(file: &mut Vec<u8>, answer: FileAnswer, bytes: &[u8]) -> Result<usize, WriteFault>
    ensures count { IfOk result (TakesSome bytes.now) }
    ensures ok { IfOk result (λ count. file.new.items ≡ file.old.items ++ take count bytes.now) }
    ensures err { OnErr result (file.new.items ≡ file.old.items) }
{
    let count = match answer {
        FileAnswer::Made => bytes.len(),
        FileAnswer::Part(most) => bytes.len().min(most.max(1)),
        FileAnswer::Full => return Err(WriteFault::Full(io::Error::from(ErrorKind::StorageFull))),
        FileAnswer::Failed => return Err(WriteFault::Failed(io::Error::from(ErrorKind::Other))),
    };
    match file.extend_from_slice(&bytes[..count]) {
        Ok(()) => Ok(count),
        Err(_) => Err(WriteFault::Failed(io::Error::from(ErrorKind::OutOfMemory))),
    }
}
