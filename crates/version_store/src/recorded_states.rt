//! The states that a book had, for which its journal must account.

ghost use Rattle.std.specs.Prelude.{◌≡◌, true, false};
ghost use mathlib.Core.List.{IsPrefix};
ghost use Rattle.site_core.specs.State.{opening};
ghost use Rattle.version_store.specs.Recording.{IsAt, IsNextOf, forget, opening_states};

use ghost_list::{EntryFrom, Front, GhostList, ListName, Unnamed};
use site_core::Machine;
use site_rules::Site;
use std::marker::Model;

/// A name without a ghost list, for books whose states aren't recorded.
pub struct NoName;

impl ListName for NoName {
    ghost use Rattle.std.specs.Prelude.{false};

    ghost name = { 0 };

    ghost companion = { 0 };

    ghost is_recorded = { false };
}

/// The entry is a state without its requests for schedules.
struct Forgotten;

impl EntryFrom<Machine, Machine> for Forgotten {
    ghost entry = { forget };
}

/// The entry is the state of a site at its opening.
struct Opened;

impl EntryFrom<Site, Machine> for Opened {
    ghost entry = { λ site. forget (opening site) };
}

/// The recorder of a book's states in the ghost list N: the first one, and that after each change.
/// At run time it counts them. It may also record nothing.
#[derive(Drop)]
pub(crate) struct StateRecorder<N: ListName> {
    states: Option<GhostList<Machine, N>>,
    // Entries take no memory, so at run time two lists can only be compared by their lengths.
    count: u64,
}

impl<N: ListName> Model for StateRecorder<N> {
    ghost use Rattle.std.specs.Prelude.{◌≡◌, List, is_some, option_map};
    ghost use Rattle.site_core.specs.State.{MachineState};
    ghost use Rattle.version_store.specs.Recording.{IsCountOf, or_none};

    ghost Value = { List MachineState };

    ghost view = { λ r. or_none (option_map (λ c. c.entries) r.states) };

    ghost invariant = { λ r. (is_some r.states ≡ N.is_recorded)
        × IsCountOf (or_none (option_map (λ c. c.entries) r.states)) r.count };
}

/// The states of a book that were recorded by some moment.
#[derive(Drop)]
pub struct RecordedStates<N: ListName> {
    states: Option<Front<Machine, N>>,
    count: u64,
}

impl<N: ListName> Model for RecordedStates<N> {
    ghost use Rattle.std.specs.Prelude.{◌≡◌, List, is_some, option_map};
    ghost use Rattle.site_core.specs.State.{MachineState};
    ghost use Rattle.version_store.specs.Recording.{IsCountOf, or_none};

    ghost Value = { List MachineState };

    ghost view = { λ r. or_none (option_map (λ f. f.entries) r.states) };

    ghost invariant = { λ r. (is_some r.states ≡ N.is_recorded)
        × IsCountOf (or_none (option_map (λ f. f.entries) r.states)) r.count };
}

impl<N: ListName> StateRecorder<N> {
    /// Makes a recorder of the states of the central system's book that records nothing, for a book
    /// without a ghost list.
    pub(crate) fn nothing() -> StateRecorder<N>
        requires { N.is_recorded ≡ false }
    {
        StateRecorder {
            states: None,
            count: 0,
        }
    }

    /// Makes the recorder of the book's states, for which the journal must account, with the state
    /// of a site at its opening.
    pub(crate) fn new(unnamed: Unnamed, site: &Site) -> StateRecorder<N>
        requires name { unnamed.name ≡ N.name }
        requires recorded { N.is_recorded ≡ true }
        ensures { result ≡ opening_states site.now }
    {
        let mut states = unnamed.named();
        states.add_from::<Site, Opened>(site);
        StateRecorder {
            states: Some(states),
            count: 1,
        }
    }

    /// Records the state of the central system's book that a change led to, for which its journal
    /// must account.
    pub(crate) fn record(&mut self, present: &Machine)
        ensures { IsAt N.is_recorded self.new present.now }
    {
        if let Some(states) = &mut self.states {
            states.add_from::<Machine, Forgotten>(present);
            // Saturates: at the largest count every comparison is false, and none is wrong.
            self.count = self.count.saturating_add(1);
        }
    }

    /// Returns the states of the central system's book that were recorded by now, for which its
    /// journal must account.
    pub(crate) fn recorded(&self) -> RecordedStates<N>
        ensures { result ≡ self.now }
    {
        match &self.states {
            Some(states) => RecordedStates {
                states: Some(states.front()),
                count: self.count,
            },
            None => RecordedStates {
                states: None,
                count: self.count,
            },
        }
    }
}

impl<N: ListName> RecordedStates<N> {
    /// Whether states are recorded.
    pub fn is_recorded(&self) -> bool
        ensures { result ≡ N.is_recorded }
    {
        self.states.is_some()
    }

    /// Copies the recorded states.
    pub fn copy(&self) -> RecordedStates<N>
        ensures { result ≡ self.now }
    {
        match &self.states {
            Some(states) => RecordedStates {
                states: Some(states.copy()),
                count: self.count,
            },
            None => RecordedStates {
                states: None,
                count: self.count,
            },
        }
    }

    /// Whether states are recorded, and these begin with the other ones. False at the largest
    /// count.
    pub fn is_at_least(&self, other: &RecordedStates<N>) -> bool
        ensures { result ≡ true → IsPrefix other.now self.now }
    {
        let (Some(states), Some(others)) = (&self.states, &other.states) else {
            return false;
        };
        states.compare(others);
        other.count <= self.count && self.count < u64::MAX
    }

    /// Whether states are recorded, and these are the other ones and one more. False at the largest
    /// count.
    pub fn is_next_of(&self, other: &RecordedStates<N>) -> bool
        ensures next { result ≡ true → IsNextOf other.now self.now }
        ensures recorded { result ≡ true → N.is_recorded ≡ true }
    {
        let (Some(states), Some(others)) = (&self.states, &other.states) else {
            return false;
        };
        states.compare(others);
        other.count < self.count && self.count - other.count == 1 && self.count < u64::MAX
    }

    /// Whether states are recorded, and these are the other ones. False at the largest count.
    pub fn is_same(&self, other: &RecordedStates<N>) -> bool
        ensures same { result ≡ true → self.now ≡ other.now }
        ensures recorded { result ≡ true → N.is_recorded ≡ true }
    {
        let (Some(states), Some(others)) = (&self.states, &other.states) else {
            return false;
        };
        states.compare(others);
        self.count == other.count && self.count < u64::MAX
    }
}
