//! The calls to points, according to the lines of a journal.

use journal::{Line, Noted, Sender, read_bytes};
use messages::{ActionKind, ReplyStatus, is_accepted};
use ocpp_scalars::Instant;
use ocppj_frame::{FrameFault, ReadingMemory, read_frame};
use site_core::{Machine, Outbox};
use site_status::{CallMoments, CallNumbers, RejectedCalls, Rejection, RestoredCalls};
use std::alloc::{AllocError, Global};
use texts::rejection_in;

/// The calls to the points of a site, according to the lines taken in.
#[derive(Drop)]
pub struct CallLines {
    alloc: Global,
    memory: ReadingMemory,
    /// The calls to each point, at its index in the site.
    points: Vec<PointLines>,
}

/// The calls to a point, according to the lines taken in.
#[derive(Drop)]
struct PointLines {
    /// The numbers of its unconfirmed calls, from call 0 on, which each point has from its opening.
    numbers: CallNumbers,
    calls: RestoredCalls,
}

impl CallLines {
    /// Returns the calls of this many points before the first line.
    pub fn new(alloc: Global, points: usize) -> Result<CallLines, AllocError> {
        let mut none = Vec::with_capacity(alloc, points)?;
        for _point in 0..points {
            none.push(PointLines {
                numbers: CallNumbers { first: 0, next: 1 },
                calls: RestoredCalls {
                    rejected: RejectedCalls::none(),
                    added: CallMoments::new(alloc),
                },
            })?;
        }
        Ok(CallLines {
            alloc,
            memory: ReadingMemory::new(alloc),
            points: none,
        })
    }

    /// Returns the calls of each point.
    pub fn into_points(self) -> Result<Vec<RestoredCalls>, AllocError> {
        let CallLines { alloc, points, .. } = self;
        let mut calls = Vec::with_capacity(alloc, points.len())?;
        for point in points {
            calls.push(point.calls)?;
        }
        Ok(calls)
    }

    /// Takes in a line, given a state of its site: the call that it adds, or the one that it
    /// confirms. Returns whether it is a point's reply that doesn't accept its call.
    pub fn take(&mut self, machine: &Machine, line: &[u8]) -> Result<bool, AllocError> {
        match read_bytes(line) {
            Ok(line) => self.take_line(machine, &line),
            Err(_) => Ok(false),
        }
    }

    /// Takes in a line of the journal, at the start of `run`. Returns whether it is a point's reply
    /// that doesn't accept its call.
    fn take_line(&mut self, machine: &Machine, line: &Line<'_>) -> Result<bool, AllocError> {
        if let Some(place) = machine.site().place_of(line.point) {
            if let Some(point) = self.points.get_mut(place) {
                point.take(line)?;
            }
        }
        let Some(frame) = reply_in(line) else {
            return Ok(false);
        };
        match read_frame(&mut self.memory, frame) {
            Ok(reply) => Ok(!is_accepted(&reply)),
            Err(FrameFault::OutOfMemory) => Err(AllocError),
            Err(_) => Ok(true),
        }
    }

    /// Takes in why a point rejected its call by the reply in a line, given the state of the site
    /// before that line.
    pub fn take_rejection(&mut self, machine: &Machine, line: &[u8]) -> Result<(), AllocError> {
        match read_bytes(line) {
            Ok(line) => self.take_reply(machine, &line),
            Err(_) => Ok(()),
        }
    }

    /// Records, at the start of `run`, the call that a point rejected by the reply in a line of the
    /// journal. The state is the one before the line.
    fn take_reply(&mut self, machine: &Machine, line: &Line<'_>) -> Result<(), AllocError> {
        let (Some(frame), Some(place), Some(outbox)) = (
            reply_in(line),
            machine.site().place_of(line.point),
            machine.outbox_of(line.point),
        ) else {
            return Ok(());
        };
        let action = first_action(self.alloc, outbox)?;
        let reason = rejection_in(self.alloc, frame)?;
        if is_done(action, reason.as_str()) {
            return Ok(());
        }
        if let Some(point) = self.points.get_mut(place) {
            point.calls.rejected.add(Rejection {
                call: outbox.first_number(),
                action,
                moment: line.moment,
                reason,
            });
        }
        Ok(())
    }
}

impl PointLines {
    /// Takes in a line of the journal about this point, at the start of `run`. The first one shows
    /// call 0. Each message of an operator in the journal added a call, and each reply confirmed
    /// the first one.
    fn take(&mut self, line: &Line<'_>) -> Result<(), AllocError> {
        self.calls.added.see(self.numbers, line.moment)?;
        match line.noted {
            Noted::Message {
                sender: Sender::Operator { .. },
                ..
            } => self.add(line.moment),
            Noted::Reply { .. } => {
                self.numbers.first = self.numbers.first.saturating_add(1);
                Ok(())
            }
            _ => Ok(()),
        }
    }

    /// Adds the next call to this point, at the start of `run`: a line of the journal of this
    /// moment added it.
    fn add(&mut self, moment: Instant) -> Result<(), AllocError> {
        self.numbers.next = self.numbers.next.saturating_add(1);
        self.calls.added.see(self.numbers, moment)
    }
}

/// Returns the reply by which a point confirmed its call, if a line of the journal file has one. In
/// these, `run` finds the rejected calls while it restores the file.
fn reply_in<'a>(line: &Line<'a>) -> Option<&'a str> {
    match line.noted {
        Noted::Reply { frame, .. } => Some(frame),
        _ => None,
    }
}

/// Returns the action of the first call in a point's outbox, which the next reply in the journal
/// confirms. The start of `run` records it for a rejected call.
fn first_action(alloc: Global, outbox: &Outbox) -> Result<Option<ActionKind>, AllocError> {
    match outbox.bodies(alloc)?.into_iter().next() {
        Some(body) => Ok(Some(body.kind())),
        None => Ok(None),
    }
}

/// Returns whether a rejection with this reason leaves nothing of the call undone. Then the start
/// of `run`, which restores from the journal, doesn't count it.
fn is_done(action: Option<ActionKind>, reason: &str) -> bool {
    match (action, ReplyStatus::named(reason)) {
        (Some(action), Some(status)) => status.is_done(action),
        _ => false,
    }
}
