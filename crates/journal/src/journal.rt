//! The trait by which sessions note the changes of their steps.

ghost use Rattle.std.specs.Prelude.{IfOk, IfSome};
ghost use Rattle.journal.specs.Account.{Covers};
ghost use Rattle.journal.specs.Entry.{IsEntryOf};
ghost use Rattle.journal.specs.Line.{noted_state};
ghost use Rattle.journal.specs.MadeStep.{IsOfMadeStep};
ghost use Rattle.journal.specs.NotedStep.{line_at};
ghost use Rattle.version_store.specs.Recording.{IsAt};

use crate::entry::Entry;
use crate::line::Noted;
use crate::receipt::Receipt;
use ghost_list::ListName;
use ocpp_scalars::Instant;
use std::alloc::AllocError;
use version_store::RecordedStates;

/// Notes the steps that change something, in the order in which they are made. A message leaves
/// only once the steps that it depends on are kept.
pub trait Journal<N: ListName> {
    /// Makes the journal's entry of a step that is about to be made, or none if nothing is noted.
    /// In `noted`, the number that the step draws is 0. No session holds the book: a long message
    /// takes its time here. On an error the step can't be noted, so it must not be made.
    fn prepare(
        &self,
        moment: Instant,
        point: &str,
        noted: Noted<'_>,
    ) -> Result<Option<Entry>, JournalFault>
        ensures { IfOk result (λ entry. IfSome entry
            (λ e. IsEntryOf e (line_at moment point.now (noted_state noted.entry)))) };

    /// Notes a step in the journal by its entry and its drawn number, between the recorded states
    /// of the book before it and with it. The caller has held the book since before the step, so
    /// this waits for nothing that takes long.
    fn note(&self, entry: Entry, number: u64, before: &RecordedStates<N>, after: &RecordedStates<N>)
        requires { IsOfMadeStep entry number
            (IsAt N.is_recorded before.now) (IsAt N.is_recorded after.now) };

    /// Waits until the journal has kept all steps that led to these recorded states of the book,
    /// whichever session noted them. The caller doesn't hold the book. On an error, no message that
    /// depends on any of them may leave.
    fn receipt(&self, recorded: &RecordedStates<N>) -> Result<Receipt<N>, JournalFault>
        ensures { IfOk result (λ receipt. Covers N.is_recorded receipt recorded.now) };

    /// Waits until the journal has kept all steps that are noted by now, whichever session noted
    /// them.
    fn write_out(&self) -> Result<(), JournalFault>;
}

/// The reason why a step can't be noted, or noted steps can't be kept.
#[derive(Clone, Copy, PartialEq, Eq)]
pub enum JournalFault {
    /// Nothing can be written at present.
    Unwritable,
    /// Memory ran out.
    OutOfMemory,
}

impl From<AllocError> for JournalFault {
    fn from(_: AllocError) -> JournalFault {
        JournalFault::OutOfMemory
    }
}

/// A journal that notes nothing.
#[derive(Clone, Copy, Default)]
pub struct NoJournal;

impl<N: ListName> Journal<N> for NoJournal {
    /// Returns none, since `NoJournal` notes nothing.
    fn prepare(
        &self,
        _moment: Instant,
        _point: &str,
        _noted: Noted<'_>,
    ) -> Result<Option<Entry>, JournalFault> {
        Ok(None)
    }

    /// Does nothing, since `NoJournal` notes nothing.
    fn note(
        &self,
        _entry: Entry,
        _number: u64,
        _before: &RecordedStates<N>,
        _after: &RecordedStates<N>,
    )
        requires { IsOfMadeStep _entry _number
            (IsAt N.is_recorded _before.now) (IsAt N.is_recorded _after.now) }
    {}

    /// Waits for nothing, since `serve` and other users of `NoJournal` keep no journal. Fails if
    /// the states are recorded: only a journal keeps those.
    fn receipt(&self, recorded: &RecordedStates<N>) -> Result<Receipt<N>, JournalFault> {
        Receipt::of_nothing(recorded).ok_or(JournalFault::Unwritable)
    }

    /// Waits for nothing, since nothing was noted.
    fn write_out(&self) -> Result<(), JournalFault> {
        Ok(())
    }
}
