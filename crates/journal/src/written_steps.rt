//! The file of a journal, and the steps that are written to it.

ghost use Rattle.std.specs.Prelude.{◌≡◌, [], true, false, IfOk, OnOk};
ghost use Rattle.append_log.specs.Contents.{IsFirstPart, MayLeave, file_of};
ghost use Rattle.append_log.specs.History.{AtEachMoment};
ghost use Rattle.append_log.specs.Log.{after_trial, contents, history};
ghost use Rattle.journal.specs.Account.{GoesOn};

use crate::noted_steps::NotedSteps;
use crate::receipt::Receipt;
use crate::synced_file::{AccountedLog, InFile, SyncedFile, Syncs};
use append_log::{AppendedFile, Log, LogFault};
use ghost_list::{Companion, ListName, Unnamed};
use std::alloc::{AllocError, Global};
use std::marker::Model;
use version_store::RecordedStates;

/// A log of the contents of its file at the start, followed by the lines of all steps up to some
/// recorded states. Steps that were taken wait for their lines.
#[derive(Drop)]
pub struct WrittenSteps<F: AppendedFile, N: ListName> {
    alloc: Global,
    accounted: AccountedLog<F, N>,
    taken: NotedSteps<N>,
    /// The contents of the file at the start, and at each sync.
    syncs: Syncs<N>,
}

impl<F: AppendedFile, N: ListName> Model for WrittenSteps<F, N> {
    ghost use Rattle.append_log.specs.Log.{contents, history};
    ghost use Rattle.journal.specs.Account.{WrittenState, IsWritten, written_of};

    ghost Value = { WrittenState };

    ghost view = { λ w. written_of (contents w.accounted.log) (history w.accounted.log)
        w.accounted.states w.taken w.syncs.entries };

    ghost invariant = { λ w. IsWritten
        (written_of (contents w.accounted.log) (history w.accounted.log)
        w.accounted.states w.taken w.syncs.entries)
        w.syncs.entries };
}

impl<F: AppendedFile + Drop, N: ListName> WrittenSteps<F, N> {
    /// Starts with a log that has its lines up to these states, and with room for `room` steps.
    /// From then on the contents at each sync are known under this name.
    pub fn new(
        alloc: Global,
        log: Log<F>,
        states: RecordedStates<N>,
        room: usize,
        syncs: Unnamed,
    ) -> Result<WrittenSteps<F, N>, AllocError>
        requires { syncs.name ≡ N.companion }
        ensures { IfOk result (λ written. written ≡ record {
          start = record { bytes = file_of (contents log); states = states };
          contents = contents log;
          history = history log;
          states = states;
          taken = record { first = states; entries = []; last = states };
        }) }
    {
        let taken = NotedSteps::new(alloc, states.copy(), room)?;
        let accounted = AccountedLog { log, states };
        let mut syncs: Syncs<N> = syncs.named::<SyncedFile<N>, Companion<N>>();
        syncs.add_from::<AccountedLog<F, N>, InFile>(&accounted);
        Ok(WrittenSteps {
            alloc,
            accounted,
            taken,
            syncs,
        })
    }

    /// Returns the file. Only the log appends to it.
    pub fn file(&self) -> &F {
        self.accounted.log.file()
    }

    /// Takes all noted steps, if those that were taken before have their lines. Returns false, and
    /// takes nothing, if they don't have them or the noted steps aren't the next ones.
    pub fn take(&mut self, noted: &mut NotedSteps<N>) -> bool
        ensures taken { result ≡ true → self.new ≡ record self.old { taken = noted.old } }
        ensures left { result ≡ true → noted.new ≡ record {
          first = noted.old.last;
          entries = [];
          last = noted.old.last;
        } }
        ensures kept { result ≡ false → (self.new ≡ self.old) × (noted.new ≡ noted.old) }
    {
        // After a failed allocation, earlier steps are still without their lines.
        if !self.taken.is_empty() {
            return false;
        }
        self.taken.take(noted)
    }

    /// Adds the lines of the taken steps to the log, but doesn't write them. Then makes room for
    /// `room` more steps. If memory runs out, no step is lost, and the call may be repeated.
    pub fn add_lines(&mut self, room: usize) -> Result<(), AllocError>
        ensures lines { OnOk result (self.new.states ≡ self.old.taken.last) }
        ensures taken { OnOk result (self.new.taken.entries ≡ []) }
        ensures start { self.new.start ≡ self.old.start }
        ensures history { self.new.history ≡ self.old.history }
    {
        // A text of their own, so that after a failed allocation the log has none of the lines.
        let mut lines = String::new(self.alloc);
        self.taken.push_lines(&mut lines)?;
        self.accounted.log.add(lines.as_bytes())?;
        self.accounted.states = self.taken.last().copy();
        self.taken.clear();
        self.taken.reserve(room)
    }

    /// Writes the lines that aren't in the file yet, and syncs it. Then all lines up to the states
    /// are on the disk, as the receipt shows.
    pub fn write_and_sync(&mut self) -> Result<Receipt<N>, LogFault>
        ensures contents { self.new ≡ record self.old {
          contents = after_trial self.old.contents result;
          history = self.new.history;
        } }
        // A crash at any moment of the call leaves the bytes that were on the disk before. They are
        // followed by a first part of the other lines, or by any bytes if the call failed.
        ensures any_moment { AtEachMoment (MayLeave (record self.old.contents {
          has_failed = self.new.contents.has_failed;
        }))
            self.old.history self.new.history }
        ensures synced { IfOk result (λ receipt. receipt ≡ record {
          start = self.new.start;
          synced = record { bytes = self.new.contents.synced; states = self.new.states };
        }) }
    {
        self.accounted.log.write_and_sync()?;
        self.syncs
            .add_from::<AccountedLog<F, N>, InFile>(&self.accounted);
        // Only now: a receipt shows lines that are synced.
        Ok(Receipt::new(self.accounted.states.copy(), self.syncs.front()))
    }

    /// Shows that the lines of a receipt are on the disk, whenever it was given. They lead from the
    /// start to its states.
    pub fn compare(&self, receipt: &Receipt<N>)
        ensures start { N.is_recorded ≡ true → receipt.now.start ≡ self.now.start }
        ensures goes_on { N.is_recorded ≡ true → GoesOn receipt.now.start receipt.now.synced }
        ensures stands { N.is_recorded ≡ true
            → IsFirstPart receipt.now.synced.bytes self.now.contents.synced }
    {
        receipt.compare(&self.syncs);
    }

    /// Returns the states recorded by the last line.
    pub fn states(&self) -> &RecordedStates<N>
        ensures { result.now ≡ self.now.states }
    {
        &self.accounted.states
    }
}
