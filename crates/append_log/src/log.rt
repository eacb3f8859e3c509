//! The log: bytes are added, written and synced.

ghost use Rattle.std.specs.Prelude.{◌≡◌, ◌<◌, ◌≤◌, true, false, [], length, take, IfOk, IfErr, OnOk, OnErr, IsErrOf, ◌↔◌};
ghost use Rattle.append_log.specs.Contents.{MayLeave, file_of, only_synced, with_added};
ghost use Rattle.append_log.specs.History.{AtEachMoment};
ghost use Rattle.append_log.specs.Lines.{HasLinesBetween, HasLinesOf, whole_lines};
ghost use Rattle.append_log.specs.Writing.{WasFull, whether_failed, with_first};

use crate::{AppendedFile, LogFault, WriteFault};
use std::alloc::{AllocError, Global};
use std::io;

/// The largest capacity, in bytes, of a buffer that is kept for the next bytes.
// A larger one is freed, or a single burst would hold its memory for good.
const LONGEST_KEPT: usize = 1_048_576;

/// A log in a file: acknowledged bytes are on disk, and bytes added since are pending.
#[derive(Drop)]
pub struct Log<F: AppendedFile> {
    file: F,
    pending: Vec<u8>,
    /// The number of pending bytes that are already appended to the file.
    in_file: usize,
    has_failed: bool,
    ghost within: { in_file ≤ length pending.items },
    ghost failed: { has_failed ≡ (F.AppendedFile.history file).now.has_failed },
    ghost in_step: { has_failed ≡ false
        → (F.AppendedFile.history file).now.appended ≡ take in_file pending.items },
}

impl<F: AppendedFile> Log<F> {
    ghost use Rattle.append_log.specs.Log.{IsFull, after_trial, contents, history};

    /// Opens a file whose whole lines have `end` bytes: cuts it behind them, and syncs it. An `Err`
    /// returns the file.
    pub fn open(alloc: Global, file: F, end: u64) -> Result<Log<F>, (io::Error, F)>
        requires usable { (F.AppendedFile.history file).now.has_failed ≡ false }
        requires end { end ≡ length (whole_lines (file_of (F.AppendedFile.history file).now)) }
        ensures acknowledged { IfOk result (λ log. contents log
            ≡ only_synced (whole_lines (file_of (F.AppendedFile.history file).now))) }
        // A crash at any moment of the call leaves the lines that were on the disk, and no others
        // than the file had.
        ensures any_moment { IfOk result (λ log. AtEachMoment
            (HasLinesBetween (F.AppendedFile.history file).now.synced (file_of (F.AppendedFile.history file).now))
            (F.AppendedFile.history file) (history log)) }
        ensures any_moment_err { IfErr result (λ error. AtEachMoment
            (HasLinesOf (F.AppendedFile.history file).now.synced)
            (F.AppendedFile.history file) (F.AppendedFile.history error.1)) }
    {
        let mut file = file;
        match file.cut(end) {
            Ok(()) => Ok(Log {
                file,
                pending: Vec::new(alloc),
                in_file: 0,
                has_failed: false,
            }),
            Err(error) => Err((error, file)),
        }
    }

    /// Returns the file, which only the log appends to.
    pub fn file(&self) -> &F
        ensures { result.now ≡ self.now.file }
    {
        &self.file
    }

    /// Adds bytes to the pending ones.
    pub fn add(&mut self, bytes: &[u8]) -> Result<(), AllocError>
        ensures ok { OnOk result (contents self.new ≡ with_added (contents self.old) bytes.now) }
        ensures err { OnErr result (contents self.new ≡ contents self.old) }
        ensures history { history self.new ≡ history self.old }
    {
        self.pending.extend_from_slice(bytes)
    }

    /// Writes the pending bytes and syncs the file. `Ok` acknowledges all of them.
    pub fn write_and_sync(&mut self) -> Result<(), LogFault>
        ensures acknowledged { contents self.new ≡ after_trial (contents self.old) result }
        // A crash at any moment of the call leaves the bytes acknowledged before. They are followed
        // by a first part of the pending ones, or by any bytes if the call failed.
        ensures any_moment { AtEachMoment (MayLeave (record (contents self.old) {
          has_failed = (contents self.new).has_failed;
        }))
            (history self.old) (history self.new) }
        // It reports a full device only if the file did.
        ensures full { IsFull result
            → (history self.old).refusals < (history self.new).refusals }
        ensures failed_before { IsErrOf result LogFault.FailedBefore
            ↔ ((contents self.old).has_failed ≡ true) }
        ensures untouched { IsErrOf result LogFault.FailedBefore
            → history self.new ≡ history self.old }
    {
        if self.has_failed {
            return Err(LogFault::FailedBefore);
        }
        if self.pending.is_empty() {
            return Ok(());
        }
        let pending = self.pending.as_slice();
        match write_then_sync(&mut self.file, pending, &mut self.in_file) {
            Ok(()) => {
                self.in_file = 0;
                clear(&mut self.pending);
                Ok(())
            }
            // A full device takes nothing of a write, so the next call can go on at `in_file`.
            Err(WriteFault::Full(error)) => Err(LogFault::Full(error)),
            // A system may drop the pages of a failed write and then report a successful sync, so
            // another try could acknowledge lost bytes.
            Err(WriteFault::Failed(error)) => {
                self.has_failed = true;
                self.file.cut_unsynced();
                Err(LogFault::Failed(error))
            }
        }
    }
}

/// Empties the buffer of an append-only log's pending bytes after they are written and synced, and
/// frees one that grew large.
fn clear(bytes: &mut Vec<u8>)
    ensures { bytes.new.items ≡ [] }
{
    if bytes.capacity() > LONGEST_KEPT {
        *bytes = Vec::new(*bytes.allocator());
    } else {
        bytes.clear();
    }
}

/// Appends the pending bytes of an append-only log that its file doesn't have, from the
/// `in_file`-th on, and syncs the file.
fn write_then_sync<F: AppendedFile>(
    file: &mut F,
    bytes: &[u8],
    in_file: &mut usize,
) -> Result<(), WriteFault>
    requires within { in_file.old ≤ length bytes.now }
    requires begun { (F.AppendedFile.history file.old).now
        ≡ with_first (F.AppendedFile.history file.old).now bytes.now in_file.old false }
    ensures within { in_file.new ≤ length bytes.now }
    ensures ok { OnOk result ((F.AppendedFile.history file.new).now
        ≡ only_synced (file_of (with_first (F.AppendedFile.history file.old).now bytes.now (length bytes.now) false))) }
    ensures err { OnErr result ((F.AppendedFile.history file.new).now
        ≡ with_first (F.AppendedFile.history file.old).now bytes.now in_file.new (whether_failed result)) }
    ensures full { WasFull result → (F.AppendedFile.history file.old).refusals
        < (F.AppendedFile.history file.new).refusals }
    ensures any_moment { AtEachMoment
        (MayLeave (with_first (F.AppendedFile.history file.old).now bytes.now (length bytes.now) (whether_failed result)))
        (F.AppendedFile.history file.old) (F.AppendedFile.history file.new) }
{
    write_rest(file, bytes, in_file)?;
    match file.sync() {
        Ok(()) => Ok(()),
        Err(error) => Err(WriteFault::Failed(error)),
    }
}

/// Appends the pending bytes of an append-only log that its file doesn't have, from the
/// `in_file`-th on.
fn write_rest<F: AppendedFile>(
    file: &mut F,
    bytes: &[u8],
    in_file: &mut usize,
) -> Result<(), WriteFault>
    requires within { in_file.old ≤ length bytes.now }
    requires begun { (F.AppendedFile.history file.old).now
        ≡ with_first (F.AppendedFile.history file.old).now bytes.now in_file.old false }
    ensures within { in_file.new ≤ length bytes.now }
    ensures all { OnOk result (in_file.new ≡ length bytes.now) }
    ensures refusals { OnOk result ((F.AppendedFile.history file.new).refusals
        ≡ (F.AppendedFile.history file.old).refusals) }
    ensures now { (F.AppendedFile.history file.new).now
        ≡ with_first (F.AppendedFile.history file.old).now bytes.now in_file.new (whether_failed result) }
    ensures full { WasFull result → (F.AppendedFile.history file.old).refusals
        < (F.AppendedFile.history file.new).refusals }
    ensures any_moment { AtEachMoment
        (MayLeave (with_first (F.AppendedFile.history file.old).now bytes.now (length bytes.now) (whether_failed result)))
        (F.AppendedFile.history file.old) (F.AppendedFile.history file.new) }
{
    while *in_file < bytes.len() {
        *in_file += file.append(&bytes[*in_file..])?;
    }
    Ok(())
}
