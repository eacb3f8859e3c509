//! Finds the calls that restore the profiles that a point had before a line of a journal.

use crate::given_call::GivenCall;
use crate::kept::{InstalledProfile, contains_profile, installed_profiles, transaction_of};
use crate::later_changes::{LaterChange, PointFollower};
use client_lines::{clear_call, set_profile_call};
use messages::Side;
use ocpp_scalars::push_instant;
use profile::Purpose;
use profile_findings::takes_place_of;
use site_core::Machine;
use site_history::{Event, EventKind};
use std::alloc::{AllocError, Global};

/// The name of each call of an undo: that of its option.
pub const UNDO: &str = "undo";

/// The calls of an undo, and its further effects.
#[derive(Drop)]
pub struct Undo {
    /// The identity of the undone line's point.
    pub point: String,
    /// The undone line, as a script has it. Empty if only a call went out at it.
    pub line: String,
    /// The clears, and then the installs.
    pub calls: Vec<GivenCall>,
    /// The profiles that can't be installed again.
    pub lost: Vec<LostProfile>,
    /// The changes of later lines that are reverted too.
    pub later: Vec<LaterChange>,
}

/// A TxProfile whose transaction has ended.
#[derive(Clone, Copy)]
pub struct LostProfile {
    pub id: i32,
    pub connector: u32,
}

/// A reader of the events of a journal, of which a line is to be undone.
#[derive(Drop)]
pub struct UndoReader {
    alloc: Global,
    /// The number of that line.
    number: u64,
    line: Option<UndoneLine>,
}

/// The line to undo, and the changes behind it.
#[derive(Drop)]
struct UndoneLine {
    /// The identity of its point.
    point: String,
    /// The message of the line, as a script has it.
    text: String,
    /// The point's profiles before it.
    before: Vec<InstalledProfile>,
    /// The point's profiles after it, and their changes. None while it is read.
    follower: Option<PointFollower>,
}

impl UndoReader {
    /// Returns a reader before the first event, for the undo of the line of this number.
    pub fn new(alloc: Global, number: u64) -> UndoReader {
        UndoReader {
            alloc,
            number,
            line: None,
        }
    }

    /// Looks at the state before a line of this number, and this point.
    pub fn before(&mut self, machine: &Machine, line: u64, point: &str) -> Result<(), AllocError> {
        if line == self.number && self.line.is_none() {
            self.line = Some(UndoneLine {
                point: String::from_str(self.alloc, point)?,
                text: String::new(self.alloc),
                before: installed_profiles(self.alloc, machine, point)?,
                follower: None,
            });
        }
        Ok(())
    }

    /// Reads an event, given the state after it.
    pub fn read(&mut self, machine: &Machine, event: &Event<'_>) -> Result<(), AllocError> {
        let Some(line) = &mut self.line else {
            return Ok(());
        };
        if line.point.as_str() != event.point {
            return Ok(());
        }
        // The undone line's own changes aren't later ones.
        if event.line == self.number {
            line.follower = Some(PointFollower::begin(self.alloc, machine, event.point)?);
            return line.add_text(event);
        }
        match &mut line.follower {
            Some(follower) => follower.follow(machine, event),
            None => Ok(()),
        }
    }

    /// Returns the undo of the line, given the state at the end. None if there is no such line.
    pub fn undo(self, machine: &Machine) -> Result<Option<Undo>, AllocError> {
        let alloc = self.alloc;
        let Some(line) = self.line else {
            return Ok(None);
        };
        let UndoneLine {
            point,
            text,
            mut before,
            follower,
        } = line;
        let Some(follower) = follower else {
            return Ok(None);
        };
        let now = installed_profiles(alloc, machine, point.as_str())?;
        let lost = find_lost(alloc, machine, point.as_str(), &mut before, now.as_slice())?;
        let calls = calls_between(alloc, before.as_slice(), now.as_slice())?;
        let later = follower.taken_back(before.as_slice())?;
        Ok(Some(Undo {
            point,
            line: text,
            calls,
            lost,
            later,
        }))
    }
}

impl UndoneLine {
    /// Keeps the message of the line that `call --undo` reverts, to print it to the operator. It
    /// has the name of its sender if the journal has it.
    fn add_text(&mut self, event: &Event<'_>) -> Result<(), AllocError> {
        let (side, name, frame) = match event.kind {
            EventKind::Message {
                sender,
                name,
                frame,
            } => (sender, name, frame),
            EventKind::Reply { frame } => (Side::Point, None, frame),
            EventKind::Verdict | EventKind::Sent { .. } => return Ok(()),
        };
        push_instant(&mut self.text, event.moment)?;
        self.text.push_str(match side {
            Side::Operator => " operator",
            Side::Point => " point",
        })?;
        if let Some(name) = name {
            self.text.push_str(":")?;
            self.text.push_str(name)?;
        }
        self.text.push_str(" ")?;
        self.text.push_str(event.point)?;
        self.text.push_str(" ")?;
        self.text.push_str(frame)
    }
}

/// Marks the earlier profiles of the point of `call --undo` that it lacks now and may get again.
/// Returns those that can't come back, to report them to the operator.
fn find_lost(
    alloc: Global,
    machine: &Machine,
    point: &str,
    before: &mut Vec<InstalledProfile>,
    now: &[InstalledProfile],
) -> Result<Vec<LostProfile>, AllocError> {
    let mut lost = Vec::new(alloc);
    for kept in before {
        if contains_profile(kept, now) {
            continue;
        }
        kept.comes_back = may_come_back(machine, point, kept);
        if !kept.comes_back {
            lost.push(LostProfile {
                id: kept.name.id,
                connector: kept.name.connector,
            })?;
        }
    }
    Ok(lost)
}

/// Returns whether `call --undo` may install a profile again at its point: a TxProfile only in its
/// own transaction.
fn may_come_back(machine: &Machine, point: &str, kept: &InstalledProfile) -> bool {
    kept.name.purpose != Purpose::TxProfile
        || kept.transaction == transaction_of(machine, point, kept.name.connector)
}

/// Returns the calls by which `call --undo` leads from its point's present profiles to the earlier
/// ones.
fn calls_between(
    alloc: Global,
    before: &[InstalledProfile],
    now: &[InstalledProfile],
) -> Result<Vec<GivenCall>, AllocError> {
    let mut calls = Vec::new(alloc);
    for added in now {
        if !contains_profile(added, before) && !is_replaced(added, before) {
            let id = added.name.id;
            // Many points ignore the other criteria of a clear with an id.
            let criteria = format!(in alloc; "{{\"id\":{id}}}")?;
            calls.push(GivenCall::plain(UNDO, clear_call(alloc, criteria.as_str())?))?;
        }
    }
    for kept in before {
        if kept.comes_back {
            calls.push(GivenCall::plain(UNDO, set_profile_call(alloc, kept.payload.as_str())?))?;
        }
    }
    Ok(calls)
}

/// Returns whether a profile that `call --undo` installs again replaces this one, which then needs
/// no clear.
fn is_replaced(added: &InstalledProfile, before: &[InstalledProfile]) -> bool {
    let name = added.name;
    before
        .iter()
        .any(|kept| kept.comes_back && takes_place_of(kept.name, name))
}
