//! Steps that were noted, and not written yet.

ghost use Rattle.std.specs.Prelude.{◌≡◌, ◌∷◌, ◌++◌, [], false, true, string_bytes, IfOk, IsTrue, OnOk};
ghost use Rattle.journal.specs.Account.{IsNoted, NotedState, texts_of};
ghost use Rattle.journal.specs.MadeStep.{IsOfMadeStep};
ghost use Rattle.version_store.specs.Recording.{IsAt};

use crate::made_step::MadeStep;
use crate::numbered_entry::NumberedEntry;
use ghost_list::ListName;
use std::alloc::{AllocError, Global};
use std::marker::Model;
use std::mem;
use version_store::RecordedStates;

/// Steps that were noted, and not written yet. Their entries lead from the states recorded before
/// the first of them to those recorded with the last one.
#[derive(Drop)]
pub struct NotedSteps<N: ListName> {
    first: RecordedStates<N>,
    entries: Vec<NumberedEntry>,
    last: RecordedStates<N>,
}

impl<N: ListName> Model for NotedSteps<N> {
    ghost use Rattle.journal.specs.Account.{NotedState, IsNoted};

    ghost Value = { NotedState };

    ghost view = { λ n. record { first = n.first; entries = n.entries.items; last = n.last } };

    ghost invariant = { λ n. IsNoted
        (record { first = n.first; entries = n.entries.items; last = n.last }) };
}

impl<N: ListName> NotedSteps<N> {
    /// Makes an empty list after these states, with room for `room` steps.
    pub fn new(
        alloc: Global,
        states: RecordedStates<N>,
        room: usize,
    ) -> Result<NotedSteps<N>, AllocError>
        ensures { IfOk result (λ noted.
            noted ≡ record { first = states; entries = []; last = states }) }
    {
        Ok(NotedSteps {
            first: states.copy(),
            entries: Vec::with_capacity(alloc, room)?,
            last: states,
        })
    }

    /// Returns whether there are no steps.
    pub fn is_empty(&self) -> bool
        ensures { IsTrue result → self.now.entries ≡ [] }
    {
        self.entries.is_empty()
    }

    /// Makes room for `room` more steps.
    pub fn reserve(&mut self, room: usize) -> Result<(), AllocError>
        ensures { self.new ≡ self.old }
    {
        self.entries.reserve(room)
    }

    /// Notes a step, if it is the next one: the states recorded before it are those of the last
    /// step, and it recorded one state more. Returns false, and notes nothing, if it isn't the next
    /// one or there is no room.
    pub fn note(&mut self, step: MadeStep<N>) -> bool
        requires { IsOfMadeStep step.entry step.number
            (IsAt N.is_recorded step.before) (IsAt N.is_recorded step.after) }
        ensures noted { result ≡ true → self.new ≡ record {
          first = self.old.first;
          entries = self.old.entries ++ (record { entry = step.entry; number = step.number }) ∷ [];
          last = step.after;
        } }
        ensures next { result ≡ true → self.old.last ≡ step.before }
        ensures kept { result ≡ false → self.new ≡ self.old }
    {
        let MadeStep {
            entry,
            number,
            before,
            after,
        } = step;
        // Without a step that wasn't noted, the lines wouldn't lead to the recorded states.
        if !self.last.is_same(&before) || !after.is_next_of(&before) {
            return false;
        }
        match self.entries.push(NumberedEntry { entry, number }) {
            Ok(()) => {
                self.last = after;
                true
            }
            // Never, if room was reserved before the step was made.
            Err(_) => false,
        }
    }

    /// Takes all steps of another list, and leaves none there. This list has to be empty. Returns
    /// false, and takes nothing, if these steps aren't the next ones.
    pub fn take(&mut self, noted: &mut NotedSteps<N>) -> bool
        requires { self.old.entries ≡ [] }
        ensures taken { result ≡ true → self.new ≡ noted.old }
        ensures next { result ≡ true → self.old.last ≡ noted.old.first }
        ensures first { self.new.first ≡ self.old.first }
        ensures left { result ≡ true → noted.new ≡ record {
          first = noted.old.last;
          entries = [];
          last = noted.old.last;
        } }
        ensures kept { result ≡ false → (self.new ≡ self.old) × (noted.new ≡ noted.old) }
    {
        if !self.last.is_same(&noted.first) {
            return false;
        }
        self.first = noted.first.copy();
        // A swap, so that the other list gets the room of this one, and need not allocate.
        mem::swap(&mut self.entries, &mut noted.entries);
        self.last = noted.last.copy();
        noted.first = noted.last.copy();
        true
    }

    /// Appends the journal's lines of all steps that were noted and not written yet. If memory runs
    /// out, some may be missing.
    pub(crate) fn push_lines(&self, text: &mut String) -> Result<(), AllocError>
        ensures lines { OnOk result
            (string_bytes text.new ≡ string_bytes text.old ++ texts_of self.now.entries) }
        ensures noted { IsNoted self.now }
    {
        for numbered in &self.entries {
            numbered.entry.push(text, numbered.number)?;
        }
        Ok(())
    }

    /// Removes all noted steps from this list, since the journal's append log has their lines.
    pub(crate) fn clear(&mut self)
        ensures { self.new ≡ record {
          first = self.old.last;
          entries = [];
          last = self.old.last;
        } }
    {
        self.first = self.last.copy();
        self.entries.clear();
    }

    /// Returns the states recorded with the last step.
    pub fn last(&self) -> &RecordedStates<N>
        ensures { result.now ≡ self.now.last }
    {
        &self.last
    }

    /// Returns the states recorded before the first step.
    pub fn first(&self) -> &RecordedStates<N>
        ensures { result.now ≡ self.now.first }
    {
        &self.first
    }
}
