//! Since when each profile of a point is in its state there.

use crate::event::{Event, EventKind};
use crate::row_changes::name_of;
use meaning::PrevailingProfile;
use ocpp_scalars::Instant;
use profile::Row;
use site_core::{Machine, ProfileState};
use std::alloc::{AllocError, Global};

/// The state of a profile at its point.
#[derive(Clone, Copy)]
pub struct KnownState {
    profile: PrevailingProfile,
    /// The moment of its install. A newer install begins a new state.
    installed: Instant,
    pub state: ProfileState,
    /// The moment of the event by which it came into this state.
    pub since: Instant,
    /// The number of the call to which the point replied then, if that event was its reply.
    pub by_call: Option<u64>,
}

/// The states of a point's profiles, event after event.
#[derive(Drop)]
pub struct ProfileStates<'a> {
    alloc: Global,
    /// The identity of the point.
    point: &'a str,
    states: Vec<KnownState>,
}

impl<'a> ProfileStates<'a> {
    /// Returns those of the point of this identity before the first event: none.
    pub fn new(alloc: Global, point: &'a str) -> ProfileStates<'a> {
        ProfileStates {
            alloc,
            point,
            states: Vec::new(alloc),
        }
    }

    /// Reads an event, given the state after it.
    pub fn read(&mut self, machine: &Machine, event: &Event<'_>) -> Result<(), AllocError> {
        let (true, Some(book)) = (event.point == self.point, machine.book_of(event.point)) else {
            return Ok(());
        };
        let rows = book.view().rows;
        let mut states = Vec::with_capacity(self.alloc, rows.len())?;
        for row in rows {
            let state = machine.profile_state_of(event.point, row);
            states.push(match self.of(row) {
                Some(known) if known.state == state && known.installed == row.moment => known,
                _ => KnownState {
                    profile: name_of(row),
                    installed: row.moment,
                    state,
                    since: event.moment,
                    by_call: replied_call(machine, event),
                },
            })?;
        }
        self.states = states;
        Ok(())
    }

    /// Returns the state of this profile of the point, if it has it.
    pub fn of(&self, row: &Row) -> Option<KnownState> {
        let name = name_of(row);
        self.states
            .iter()
            .find(|known| known.profile == name)
            .copied()
    }
}

/// Returns the number of the call to which a point replied by this event in its site's history, for
/// `explain`. Returns none if the event is no reply.
fn replied_call(machine: &Machine, event: &Event<'_>) -> Option<u64> {
    let EventKind::Reply { .. } = event.kind else {
        return None;
    };
    machine
        .outbox_of(event.point)?
        .first_number()
        .checked_sub(1)
}
