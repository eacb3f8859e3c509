//! The remains of a fold, and the memory of events that is kept from fold to fold.

ghost use Rattle.std.specs.Prelude.{◌≡◌, ◌≤◌, [], IfOk, vec_capacity};
ghost use Rattle.version_store.specs.Limits.{room};

use crate::stored_event::StoredEvent;
use site_core::Machine;
use std::alloc::{AllocError, Global};
use std::marker::Model;

/// The number of events for which there is memory from the beginning.
// The rest above `FOLD_FROM` is for posts, collects and the finish, which add events without
// folding: at most two for each kept request, and one.
pub(crate) const ROOM: usize = 4_096;

/// The memory of as many events as can be stored, with none in it.
#[derive(Drop)]
pub struct EventRoom {
    events: Vec<StoredEvent>,
}

// Clauses see nothing of it.
impl Model for EventRoom {
    ghost use Rattle.std.specs.Prelude.{◌≡◌, ◌≤◌, [], vec_capacity};
    ghost use Rattle.version_store.specs.Limits.{room};

    ghost Value = { Unit };

    ghost view = { λ _. tt };

    ghost invariant = { λ r. (r.events.items ≡ []) × (room ≤ vec_capacity r.events) };
}

impl EventRoom {
    /// Allocates the room for the events of the history that the central system's book keeps.
    pub(crate) fn new(alloc: Global) -> Result<EventRoom, AllocError> {
        Ok(EventRoom {
            events: Vec::with_capacity(alloc, ROOM)?,
        })
    }

    /// Takes the room for the events of the book's history that an earlier fold gave back, or
    /// allocates it.
    pub(crate) fn take(
        given: &mut Option<EventRoom>,
        alloc: Global,
    ) -> Result<EventRoom, AllocError> {
        match given.take() {
            Some(room) => Ok(room),
            None => EventRoom::new(alloc),
        }
    }

    /// Returns the room as an empty list for the events of the book's history.
    pub(crate) fn into_events(self) -> Vec<StoredEvent>
        ensures events { result.items ≡ [] }
        ensures room { room ≤ vec_capacity result }
    {
        self.events
    }
}

/// The remains of a fold: the old base and the events since. Nothing reads them any more, but
/// dropping them takes longer than the fold, since most points' books have changed since.
#[derive(Drop)]
pub struct Folded {
    base: Machine,
    events: Vec<StoredEvent>,
}

// Clauses see nothing of it.
impl Model for Folded {
    ghost use Rattle.std.specs.Prelude.{◌≤◌, vec_capacity};
    ghost use Rattle.version_store.specs.Limits.{room};

    ghost Value = { Unit };

    ghost view = { λ _. tt };

    ghost invariant = { λ f. room ≤ vec_capacity f.events };
}

impl Folded {
    /// Keeps the old base and the events of the book's folded history, to be dropped while the book
    /// isn't locked.
    pub(crate) fn new(base: Machine, events: Vec<StoredEvent>) -> Folded
        requires { room ≤ vec_capacity events }
    {
        Folded { base, events }
    }

    /// Drops the old base and the events, and returns the memory of the events for a later fold.
    pub fn into_room(self) -> EventRoom {
        let Folded { base, mut events } = self;
        drop(base);
        events.clear();
        EventRoom { events }
    }
}
