//! The last line of the program, which says why it stops.

use command_io::ProgramFault;
use journal_file::FolderFault;
use std::alloc::AllocGlobal;
use std::marker::{Send, Sync};
use std::rt::Clock;
use std::sync::{Arc, Condvar, Mutex, Wait};
use std::thread;
use std::thread::Threads;
use std::time::Duration;

/// The longest time, in seconds, that a program with a broken journal waits for its last line to be
/// written.
const LONGEST_WAIT: u64 = 2;

/// Whether the line is written.
#[derive(Drop)]
struct LastLine {
    is_written: Mutex<bool>,
    /// The program waits here until it is written.
    written: Condvar,
}

impl LastLine {
    /// Writes the program's last line, that its journal is broken, to standard error if it can be
    /// written.
    fn write<R: Eprint + Wait>(&self, rt: &R) {
        let _ = rt.eprintln(&ProgramFault::Folder(FolderFault::Write));
        *self.is_written.lock(rt) = true;
        self.written.notify_all();
    }
}

/// Writes to standard error why the program stops. If that is a pipe that no process reads, a
/// program with a broken journal ends without the line, so that its supervisor can restart it.
pub fn say_fault<
    R: Eprint + AllocGlobal + Clock + Threads + Wait + Copy + Send + Sync + Drop + 'static,
>(rt: &R, fault: &ProgramFault) {
    let is_said = match fault {
        ProgramFault::Folder(FolderFault::Write) => say_in_time(rt).is_some(),
        _ => false,
    };
    if !is_said {
        let _ = rt.eprintln(fault);
    }
}

/// Writes to standard error on a thread of its own that the journal of `run` is broken, for at most
/// LONGEST_WAIT seconds. Returns None if no thread can be made.
fn say_in_time<
    R: Eprint + AllocGlobal + Clock + Threads + Wait + Copy + Send + Sync + Drop + 'static,
>(rt: &R) -> Option<()> {
    let line = LastLine {
        is_written: Mutex::new(false),
        written: Condvar::new(),
    };
    let line = Arc::new(rt.alloc(), line).ok()?;
    let (own, own_rt) = (Arc::try_clone(&line).ok()?, *rt);
    // A write to a full pipe could block this thread forever.
    let writer = thread::Builder::new().spawn(rt, move || own.write(&own_rt));
    writer.ok()?;
    let is_written = line.is_written.lock(rt);
    let longest = Duration::from_secs(LONGEST_WAIT);
    let _ = line
        .written
        .wait_timeout_while(rt, is_written, longest, |is_written| !*is_written);
    Some(())
}
