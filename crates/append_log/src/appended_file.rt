//! A file that is only appended to, as a log sees it.

ghost use Rattle.std.specs.Prelude.{◌≡◌, ◌≤◌, true, false, length, is_ok, IfOk};
ghost use Rattle.append_log.specs.AppendedFile.{TakesSome, after_append, after_cut, after_sync};
ghost use Rattle.append_log.specs.Contents.{file_of};
ghost use Rattle.append_log.specs.History.{History};

use crate::WriteFault;
use std::io;

/// A file that is only appended to. After a call fails for another reason than a full device, no
/// call writes or syncs the file again: a later sync wouldn't show that earlier writes are on disk.
pub trait AppendedFile {
    /// The contents of the file, now and before.
    ghost history: { Self → History };

    /// Appends a first part of a log's bytes to its file, and returns its length: at least 1,
    /// unless there are no bytes.
    fn append(&mut self, bytes: &[u8]) -> Result<usize, WriteFault>
        requires { (history self.old).now.has_failed ≡ false }
        ensures count { IfOk result (TakesSome bytes.now) }
        ensures history { history self.new ≡ after_append (history self.old) bytes.now result };

    /// Syncs to the disk all bytes that a log appended to its file.
    fn sync(&mut self) -> io::Result<()>
        requires { (history self.old).now.has_failed ≡ false }
        ensures { history self.new ≡ after_sync (history self.old) (is_ok result) };

    /// Cuts a log's file to a length, and syncs that to the disk.
    fn cut(&mut self, end: u64) -> io::Result<()>
        requires usable { (history self.old).now.has_failed ≡ false }
        requires within { end ≤ length (file_of (history self.old).now) }
        ensures { history self.new ≡ after_cut (history self.old) end (is_ok result) };

    /// Tries to cut off a log's bytes that aren't on disk: they may be in the system's memory only,
    /// and a restart shouldn't read them. A crash leaves the same as before the call.
    fn cut_unsynced(&mut self)
        requires { (history self.old).now.has_failed ≡ true }
        ensures { history self.new ≡ history self.old };
}
