//! Follows the remote starts that wait at each point, event by event. The machine forgets a start
//! when it ends, so this module keeps the fields that its finding needs.

use messages::ActionKind;
use ocpp_scalars::IdTag;
use point_book::PointBook;
use profile::Purpose;
use site_core::Machine;
use site_history::{Event, EventKind};
use std::alloc::{AllocError, Global};

/// A remote start that waits for its transaction.
#[derive(Drop)]
struct PendingRemoteStart {
    connector: u32,
    /// The id of the transaction at its connector.
    active: Option<i32>,
    /// The number of its call.
    call: u64,
    id_tag: IdTag,
    /// The id of its profile.
    profile: Option<i32>,
}

/// The remote starts of a point.
#[derive(Drop)]
struct PointStarts {
    /// The action of the call in flight.
    asked: Option<ActionKind>,
    waiting: Vec<PendingRemoteStart>,
}

/// A remote start that ended with a transaction, but without its profile.
#[derive(Drop)]
pub(crate) struct EndedStart {
    pub id_tag: IdTag,
    /// The profile's id.
    pub profile: i32,
    /// Whether the transaction has its idTag.
    pub is_same_tag: bool,
}

/// The effect of an event on the remote starts of its point.
#[derive(Drop)]
pub(crate) struct StartsChange {
    /// The action of the call that it confirmed.
    pub replies_to: Option<ActionKind>,
    pub ended: Option<EndedStart>,
}

/// The remote starts that wait at the points.
#[derive(Drop)]
pub(crate) struct PendingRemoteStarts {
    alloc: Global,
    /// The points of the site file, in its order, up to the last one with a message so far.
    points: Vec<PointStarts>,
}

impl PendingRemoteStarts {
    /// Begins before the first event of a script or a journal that `check` or `call` checks, with
    /// no remote start that waits at a point.
    pub(crate) fn new(alloc: Global) -> PendingRemoteStarts {
        PendingRemoteStarts {
            alloc,
            points: Vec::new(alloc),
        }
    }

    /// Follows, for `check` of a script or `call`, how an event changes the remote starts at its
    /// point, given the state after it.
    pub(crate) fn follow(
        &mut self,
        machine: &Machine,
        event: &Event<'_>,
    ) -> Result<StartsChange, AllocError> {
        let Some(place) = machine.site().place_of(event.point) else {
            return Ok(StartsChange::none());
        };
        let alloc = self.alloc;
        let Some(known) = self.known(place)? else {
            return Ok(StartsChange::none());
        };
        known.follow(alloc, machine, event)
    }

    /// Returns the remote starts that wait at the point at this index of the site. `check` or
    /// `call` has followed the events of a script or a journal so far.
    fn known(&mut self, place: usize) -> Result<Option<&mut PointStarts>, AllocError> {
        for _place in self.points.len()..place.saturating_add(1) {
            self.points.push(PointStarts {
                asked: None,
                waiting: Vec::new(self.alloc),
            })?;
        }
        Ok(self.points.get_mut(place))
    }
}

impl StartsChange {
    /// Returns the change by an event without an effect on remote starts, for the findings of
    /// `check` in a script or of `call`.
    pub(crate) fn none() -> StartsChange {
        StartsChange {
            replies_to: None,
            ended: None,
        }
    }
}

impl PointStarts {
    /// Follows, for the findings of `check` in a script or of `call`, how an event changes the
    /// remote starts that wait at this point.
    fn follow(
        &mut self,
        alloc: Global,
        machine: &Machine,
        event: &Event<'_>,
    ) -> Result<StartsChange, AllocError> {
        let mut change = StartsChange::none();
        match event.kind {
            EventKind::Message { .. } => {
                change.ended = ended_start(alloc, self, machine, event.point)?;
                self.waiting = known_starts(alloc, machine, event.point)?;
            }
            EventKind::Reply { .. } => {
                change.replies_to = self.asked;
                // Without an `Accepted` the start is dropped, so the starts are read again.
                self.asked = None;
                self.waiting = known_starts(alloc, machine, event.point)?;
            }
            EventKind::Sent { call } => self.asked = Some(call.body.kind()),
            EventKind::Verdict => {}
        }
        Ok(change)
    }
}

/// Returns the remote starts that wait at a point in this state of a script or a journal. `check`
/// keeps them for a warning when one ends.
fn known_starts(
    alloc: Global,
    machine: &Machine,
    point: &str,
) -> Result<Vec<PendingRemoteStart>, AllocError> {
    let mut starts = Vec::new(alloc);
    for start in machine.waiting_of(point) {
        starts.push(PendingRemoteStart {
            connector: start.connector,
            active: active_at(machine, point, start.connector),
            call: start.call,
            id_tag: start.id_tag.copy(alloc)?,
            profile: start.profile.as_ref().map(|profile| profile.id),
        })?;
    }
    Ok(starts)
}

/// Returns the remote start that a transaction ended at its point without installing the start's
/// profile, if any, for `check` of a script or a journal.
fn ended_start(
    alloc: Global,
    known: &PointStarts,
    machine: &Machine,
    point: &str,
) -> Result<Option<EndedStart>, AllocError> {
    let waiting = machine.waiting_of(point);
    let gone = known.waiting.iter().find(|start| !waiting
        .iter()
        .any(|left| left.call == start.call));
    let (Some(start), Some(book)) = (gone, machine.book_of(point)) else {
        return Ok(None);
    };
    match (start.profile, book.transaction_at(start.connector)) {
        // Another remote start at the connector ends it too, and begins no transaction.
        (_, Some(active)) if start.active == Some(active.id) => Ok(None),
        (Some(profile), Some(active)) if !has_tx_profile(book, start.connector, profile) => {
            Ok(Some(EndedStart {
                id_tag: start.id_tag.copy(alloc)?,
                profile,
                is_same_tag: is_same_tag(&start.id_tag, &active.begin.id_tag),
            }))
        }
        _ => Ok(None),
    }
}

/// Returns the id of the active transaction at a connector. The findings of `check` about messages
/// compare it before and after each one: a new id may mean that a pending remote start was missed.
fn active_at(machine: &Machine, point: &str, connector: u32) -> Option<i32> {
    let active = machine.book_of(point)?.transaction_at(connector)?;
    Some(active.id)
}

/// Returns whether the idTags of a remote start and of the transaction after it are the same, for
/// `check` of a script or a journal.
// An idTag is a CiString, whose case doesn't count. Here that holds for ASCII letters.
fn is_same_tag(tag: &IdTag, other: &IdTag) -> bool {
    tag.as_str().eq_ignore_ascii_case(other.as_str())
}

/// Returns whether a connector has the TxProfile of this id, which came with a remote start. If
/// not, `check` of a script or a journal warns.
fn has_tx_profile(book: &PointBook, connector: u32, id: i32) -> bool {
    book.view().rows.iter().any(|row| {
        row.connector == connector
            && row.profile.purpose == Purpose::TxProfile
            && row.profile.id == id
    })
}
