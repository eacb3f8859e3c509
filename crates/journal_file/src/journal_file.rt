//! The journal file of a running site: writes and syncs the entries that sessions note.

ghost use Rattle.std.specs.Prelude.{◌≡◌, IfOk, IfSome};
ghost use Rattle.journal.specs.Account.{Covers};
ghost use Rattle.journal.specs.MadeStep.{IsOfMadeStep};
ghost use Rattle.version_store.specs.Recording.{IsAt};

use crate::log_lines::LogLines;
use crate::reserve_file::ReserveFile;
use crate::restored_journal::RestoredJournal;
use append_log::{LogFault, SystemFile};
use ghost_list::{ListName, Unnamed};
use journal::{
    Entry, Journal, JournalFault, Line, MadeStep, Noted, NotedSteps, Receipt, WrittenSteps,
};
use ocpp_scalars::{Instant as Moment, Moments, SystemClock, write_instant};
use site_status::{JournalReport, JournalState, WatchedJournal};
use std::alloc::{AllocError, AllocGlobal, Global};
use std::fmt::Display;
use std::io;
use std::rt::Clock;
use std::sync::atomic::{AtomicBool, Ordering};
use std::sync::{Condvar, Mutex, Wait};
use std::time::{Duration, Instant};
use version_store::RecordedStates;

/// The number of free places kept for entries: more than all sessions together can have prepared
/// but not noted. So the entry of a made step is always noted.
const FREE_ENTRIES: usize = 2_048;

/// The interval in seconds between attempts to write while the device is full.
const RETRY_SECONDS: u64 = 1;

/// A journal that sessions share. A session notes a change while it holds the book. A session that
/// waits for the disk writes and syncs for all that wait. While the device is full, nothing more is
/// noted, and writing is retried until there is room. If the contents of the file become unknown,
/// the journal is broken for good. The ghost list N records the states that its lines have to
/// account for.
#[derive(Drop)]
pub struct JournalFile<R, N: ListName> {
    rt: R,
    alloc: Global,
    /// The file's name, for messages about it.
    path: String,
    noted: Mutex<NotedEntries<N>>,
    /// Whether everything noted is on disk and the journal isn't broken. It is set under the lock
    /// of `noted`, and read without it: most messages change nothing.
    is_kept: AtomicBool,
    written: Mutex<WrittenLines<N>>,
    /// Sessions wait here while another one writes.
    writer_done: Condvar,
    /// `until_broken` waits here until the journal is broken.
    broken: Condvar,
    said: LogLines,
}

/// The entries noted but not yet taken for writing, and the state of the file.
#[derive(Drop)]
struct NotedEntries<N: ListName> {
    steps: NotedSteps<N>,
    /// The receipt of the last sync, which shows which lines are on disk.
    receipt: Option<Receipt<N>>,
    /// Whether a session writes and syncs for all that wait.
    has_writer: bool,
    state: JournalState,
    /// The number of the file's bytes on disk, the number of syncs, and the total time of writing
    /// and syncing.
    bytes: u64,
    syncs: u64,
    sync_time: Duration,
}

/// The entries taken for writing, and how far they are written.
#[derive(Drop)]
struct WrittenLines<N: ListName> {
    steps: WrittenSteps<SystemFile, N>,
    reserve: ReserveFile,
}

/// The outcome of an attempt that put every noted entry on disk.
#[derive(Drop)]
enum SyncOutcome {
    All,
    /// The device has room again.
    AllAndRoom,
    /// The lines took the space of the reserve: the device is full.
    AllButFull(io::Error),
}

/// Why lines aren't on disk.
#[derive(Drop)]
enum SyncError {
    Log(LogFault),
    OutOfMemory,
    /// The noted entries don't continue from the written ones. This never happens.
    StepMissing,
}

/// The message about a journal in which a step is missing.
const STEP_MISSING: &str = "a step was made that wasn't noted";

impl From<LogFault> for SyncError {
    fn from(fault: LogFault) -> SyncError {
        SyncError::Log(fault)
    }
}

impl From<AllocError> for SyncError {
    fn from(_: AllocError) -> SyncError {
        SyncError::OutOfMemory
    }
}

impl<R: Wait + Clock + Eprint + AllocGlobal + Drop, N: ListName> JournalFile<R, N> {
    /// Makes the journal that continues a restored one, and adds these lines to it. They lead to
    /// the last of these states. The name `syncs` is that of the list of its contents at each sync.
    pub fn make(
        rt: R,
        restored: RestoredJournal,
        lines: &str,
        states: RecordedStates<N>,
        syncs: Unnamed,
    ) -> Result<JournalFile<R, N>, AllocError>
        requires { syncs.name ≡ N.companion }
    {
        let alloc = rt.alloc();
        let RestoredJournal {
            mut log,
            path,
            reserve,
        } = restored;
        log.add(lines.as_bytes())?;
        let noted = NotedEntries {
            steps: NotedSteps::new(alloc, states.copy(), FREE_ENTRIES)?,
            receipt: None,
            has_writer: false,
            state: JournalState::Open,
            bytes: log.file().synced_bytes(),
            syncs: 0,
            sync_time: Duration::ZERO,
        };
        let written = WrittenLines {
            steps: WrittenSteps::new(alloc, log, states, FREE_ENTRIES, syncs)?,
            reserve,
        };
        Ok(JournalFile {
            rt,
            alloc,
            path,
            noted: Mutex::new(noted),
            is_kept: AtomicBool::new(true),
            written: Mutex::new(written),
            writer_done: Condvar::new(),
            broken: Condvar::new(),
            said: LogLines::new(alloc),
        })
    }

    /// Writes and syncs everything noted by now.
    pub fn keep_all(&self) -> Result<(), JournalFault> {
        self.keep_with(&mut self.written.lock(&self.rt))
    }

    /// Waits until the journal's file has on disk all lines that lead to these states of the book.
    /// One session writes and syncs for all that wait. When it is done, the sessions whose entries
    /// it wrote continue, and one of the others writes.
    fn sync_up_to(&self, recorded: &RecordedStates<N>) -> Result<Receipt<N>, JournalFault>
        ensures { IfOk result (λ receipt. Covers N.is_recorded receipt recorded.now) }
    {
        let noted = self.noted.lock(&self.rt);
        let mut noted = self.writer_done.wait_while(&self.rt, noted, |noted| {
            noted.has_writer && !noted.has_kept(recorded)
        });
        if let Some(receipt) = noted.receipt_for(recorded) {
            return Ok(receipt);
        }
        if noted.state == JournalState::Broken {
            return Err(JournalFault::Unwritable);
        }
        noted.has_writer = true;
        drop(noted);
        let kept = self.keep_all();
        let mut noted = self.noted.lock(&self.rt);
        noted.has_writer = false;
        let receipt = noted.receipt_for(recorded);
        drop(noted);
        self.writer_done.notify_all();
        kept?;
        receipt.ok_or(JournalFault::Unwritable)
    }

    /// Returns once the journal is broken. Until then it regularly retries writing while the device
    /// is full.
    pub fn until_broken(&self) {
        for _ in self.rt.forever() {
            let noted = self.noted.lock(&self.rt);
            let (noted, _) = self.broken.wait_timeout_while(
                &self.rt,
                noted,
                Duration::from_secs(RETRY_SECONDS),
                |noted| noted.state != JournalState::Broken,
            );
            let state = noted.state;
            drop(noted);
            match state {
                JournalState::Broken => {
                    // The program ends next: without the wait it could end before the reason is
                    // printed.
                    self.said.settle(&self.rt);
                    return;
                }
                JournalState::Full => {
                    let _ = self.keep_all();
                }
                JournalState::Open => {}
            }
        }
    }

    /// Writes to the journal's file, and syncs, everything noted by now, for all sessions that
    /// wait. Sets the new state of the journal before another thread can get the file.
    fn keep_with(&self, written: &mut WrittenLines<N>) -> Result<(), JournalFault> {
        match self.try_to_keep(written) {
            Ok(SyncOutcome::All) => Ok(()),
            Ok(SyncOutcome::AllAndRoom) => {
                self.set_state(JournalState::Open, &"there is room again");
                Ok(())
            }
            Ok(SyncOutcome::AllButFull(error)) => {
                self.set_state(JournalState::Full, &error);
                Ok(())
            }
            Err(error) => Err(self.set_state_after(error)),
        }
    }

    /// Sets the state of `run`'s journal after a failed attempt to write its lines to its file and
    /// sync it. Returns the fault of the attempt.
    fn set_state_after(&self, error: SyncError) -> JournalFault {
        match error {
            SyncError::OutOfMemory => return JournalFault::OutOfMemory,
            SyncError::Log(LogFault::FailedBefore) => {}
            SyncError::Log(LogFault::Full(error)) => self.set_state(JournalState::Full, &error),
            // A failed write or sync leaves the contents of the file unknown, so it is never
            // retried.
            SyncError::Log(LogFault::Failed(error)) => self.set_state(JournalState::Broken, &error),
            SyncError::StepMissing => self.set_state(JournalState::Broken, &STEP_MISSING),
        }
        JournalFault::Unwritable
    }

    /// Writes the entries that sessions noted by now to the journal's file, and syncs it. Returns
    /// whether the device became full or has room again.
    fn try_to_keep(&self, written: &mut WrittenLines<N>) -> Result<SyncOutcome, SyncError> {
        // Entries whose lines failed for lack of memory come first.
        written.steps.add_lines(FREE_ENTRIES)?;
        self.take_noted(written)?;
        written.steps.add_lines(FREE_ENTRIES)?;
        let before = (written.synced(), Instant::now(&self.rt).ok());
        let (receipt, kept) = written.write_and_sync()?;
        let synced = written.synced();
        let mut noted = self.noted.lock(&self.rt);
        // Entries noted during the sync aren't on disk yet: the flag then stays false.
        if receipt.covers(noted.steps.last()) && noted.state != JournalState::Broken {
            self.is_kept.store(true, Ordering::SeqCst);
        }
        noted.receipt = Some(receipt);
        if synced != before.0 {
            noted.count_sync(synced, self.time_since(before.1));
        }
        let was_full = noted.state == JournalState::Full;
        drop(noted);
        // While the device is full, no entry is noted, so there is time to fill the reserve.
        if was_full && matches!(kept, SyncOutcome::All) && written.reserve.fill() {
            return Ok(SyncOutcome::AllAndRoom);
        }
        Ok(kept)
    }

    /// Returns the time that a sync of the journal's file has taken since this moment, or zero if
    /// the clock can't be read.
    fn time_since(&self, moment: Option<Instant>) -> Duration {
        let (Some(moment), Ok(now)) = (moment, Instant::now(&self.rt)) else {
            return Duration::ZERO;
        };
        now.checked_duration_since(moment).unwrap_or_default()
    }

    /// Takes the entries that sessions noted by now, for their lines to be written to the journal's
    /// file. Those taken before already have their lines.
    fn take_noted(&self, written: &mut WrittenLines<N>) -> Result<(), SyncError> {
        let mut noted = self.noted.lock(&self.rt);
        if written.steps.take(&mut noted.steps) {
            Ok(())
        } else {
            Err(SyncError::StepMissing)
        }
    }

    /// Sets the state of `run`'s journal file, and reports the reason on standard error if the
    /// state is new.
    fn set_state<W: Display>(&self, state: JournalState, why: &W) {
        self.set_state_locked(&mut self.noted.lock(&self.rt), state, why);
    }

    /// Sets the state of `run`'s journal file, with `noted` already locked, and reports the reason
    /// if the state is new. A broken journal stays broken. The reason is among the lines to print
    /// before `until_broken` wakes.
    fn set_state_locked<W: Display>(
        &self,
        noted: &mut NotedEntries<N>,
        state: JournalState,
        why: &W,
    ) {
        if noted.state != state && noted.state != JournalState::Broken {
            noted.state = state;
            if let Ok(line) = self.line_of(why) {
                self.said.add(&self.rt, line);
            }
        }
        if noted.state == JournalState::Broken {
            self.is_kept.store(false, Ordering::SeqCst);
            self.broken.notify_all();
        }
    }

    /// Builds a line with the time about `run`'s journal file, for standard error.
    fn line_of<W: Display>(&self, what: &W) -> Result<String, AllocError> {
        let path = self.path.as_str();
        let moment = match (SystemClock { rt: &self.rt }).now() {
            Some(now) => write_instant(self.alloc, now).ok(),
            None => None,
        };
        match moment {
            Some(moment) => format!(in self.alloc; "central: {moment} {path}: {what}"),
            None => format!(in self.alloc; "central: {path}: {what}"),
        }
    }

    /// Writes the lines about the journal to standard error, forever. No other thread waits for the
    /// reader of standard error.
    pub fn write_lines(&self) {
        self.said.write_all(&self.rt);
    }

    /// Writes the lines about `run`'s journal file that wait by now to standard error.
    pub(crate) fn write_log_lines(&self) {
        self.said.write_waiting(&self.rt);
    }
}

impl<N: ListName> NotedEntries<N> {
    /// Returns whether the journal's file has on disk all lines that lead to these states of the
    /// book.
    fn has_kept(&self, recorded: &RecordedStates<N>) -> bool {
        match &self.receipt {
            Some(receipt) => receipt.covers(recorded),
            None => false,
        }
    }

    /// Returns a receipt that covers these states of the book, if the journal's file has on disk
    /// the lines that lead to them.
    fn receipt_for(&self, recorded: &RecordedStates<N>) -> Option<Receipt<N>>
        ensures { IfSome result (λ receipt. Covers N.is_recorded receipt recorded.now) }
    {
        let receipt = self.receipt.as_ref()?;
        if receipt.covers(recorded) {
            return Some(receipt.copy());
        }
        None
    }

    /// Counts, for the status port, a write and sync of the journal's file that took this time and
    /// left this many bytes on disk.
    fn count_sync(&mut self, bytes: u64, time: Duration) {
        self.bytes = bytes;
        self.syncs = self.syncs.saturating_add(1);
        self.sync_time = self.sync_time.checked_add(time).unwrap_or(self.sync_time);
    }
}

impl<N: ListName> WrittenLines<N> {
    /// Returns how many bytes of the journal's file are on disk.
    fn synced(&self) -> u64 {
        self.steps.file().synced_bytes()
    }

    /// Writes the lines that the journal's file lacks, and syncs it. If the device is full, gives
    /// up the disk space reserved for them.
    fn write_and_sync(&mut self) -> Result<(Receipt<N>, SyncOutcome), SyncError> {
        match self.steps.write_and_sync() {
            Ok(receipt) => Ok((receipt, SyncOutcome::All)),
            Err(LogFault::Full(error)) if self.reserve.give_up() => {
                let receipt = self.steps.write_and_sync()?;
                Ok((receipt, SyncOutcome::AllButFull(error)))
            }
            Err(fault) => Err(SyncError::Log(fault)),
        }
    }
}

impl<R: Wait + Clock + Eprint + AllocGlobal + Drop, N: ListName> Journal<N> for JournalFile<R, N> {
    fn prepare(
        &self,
        moment: Moment,
        point: &str,
        noted: Noted<'_>,
    ) -> Result<Option<Entry>, JournalFault> {
        let line = Line {
            moment,
            point,
            noted,
        };
        let entry = Entry::new(self.alloc, &line)?;
        let mut noted = self.noted.lock(&self.rt);
        if noted.state != JournalState::Open {
            return Err(JournalFault::Unwritable);
        }
        // Room is made before the step: once the step is made, noting its entry can't fail.
        noted.steps.reserve(FREE_ENTRIES)?;
        Ok(Some(entry))
    }

    fn note(&self, entry: Entry, number: u64, before: &RecordedStates<N>, after: &RecordedStates<N>)
        requires { IsOfMadeStep entry number
            (IsAt N.is_recorded before.now) (IsAt N.is_recorded after.now) }
    {
        let step = MadeStep {
            entry,
            number,
            before: before.copy(),
            after: after.copy(),
        };
        let mut noted = self.noted.lock(&self.rt);
        // The step's lock on the book is still held: a session that sees its state sees this too.
        self.is_kept.store(false, Ordering::SeqCst);
        if !noted.steps.note(step) {
            self.set_state_locked(&mut noted, JournalState::Broken, &STEP_MISSING);
        }
    }

    fn receipt(&self, recorded: &RecordedStates<N>) -> Result<Receipt<N>, JournalFault> {
        let noted = self.noted.lock(&self.rt);
        if noted.state == JournalState::Broken {
            return Err(JournalFault::Unwritable);
        }
        if let Some(receipt) = noted.receipt_for(recorded) {
            return Ok(receipt);
        }
        drop(noted);
        self.sync_up_to(recorded)
    }

    fn write_out(&self) -> Result<(), JournalFault> {
        if self.is_kept.load(Ordering::SeqCst) {
            return Ok(());
        }
        let recorded = self.noted.lock(&self.rt).steps.last().copy();
        self.receipt(&recorded)?;
        Ok(())
    }
}

impl<R: Wait, N: ListName> WatchedJournal for JournalFile<R, N> {
    fn report(&self) -> JournalReport {
        let noted = self.noted.lock(&self.rt);
        JournalReport {
            state: noted.state,
            bytes: noted.bytes,
            syncs: noted.syncs,
            // Saturates.
            sync_microseconds: u64::try_from(noted.sync_time.as_micros()).unwrap_or(u64::MAX),
        }
    }
}
