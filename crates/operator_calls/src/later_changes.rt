//! Finds the changes by later events at the point of an undo, and which of them it reverts.

use crate::kept::{InstalledProfile, contains_profile, installed_profiles};
use meaning::PrevailingProfile;
use messages::purpose_name;
use ocpp_scalars::{Instant, push_instant};
use site_core::Machine;
use site_history::{Event, EventKind};
use std::alloc::{AllocError, Global};

/// A profile that a line installed at its point, or removed from it.
#[derive(Clone, Copy, PartialEq, Eq)]
pub struct LaterChange {
    /// The line's number.
    pub line: u64,
    pub moment: Instant,
    pub profile: PrevailingProfile,
    /// Whether the line installed it.
    pub is_install: bool,
}

impl LaterChange {
    /// Describes the change for an operator whose undo reverts it too.
    pub fn sentence(&self, alloc: Global) -> Result<String, AllocError> {
        let line = self.line;
        let mut text = format!(in alloc; "undo takes back line {line} of ")?;
        push_instant(&mut text, self.moment)?;
        let purpose = purpose_name(self.profile.purpose);
        let id = self.profile.id;
        let clear = if self.is_install { "" } else { "the clear of " };
        text.push_str(format!(in alloc; " too: {clear}{purpose} {id}")?.as_str())?;
        Ok(text)
    }
}

/// A follower of the profiles of a point, event by event.
#[derive(Drop)]
pub(crate) struct PointFollower {
    alloc: Global,
    /// The profiles that the point has.
    kept: Vec<InstalledProfile>,
    changes: Vec<LaterChange>,
}

impl PointFollower {
    /// Begins to follow the journal after the line that `call --undo` reverts, to find later
    /// changes of its point's profiles. Begins with its profiles after that line.
    pub(crate) fn begin(
        alloc: Global,
        machine: &Machine,
        point: &str,
    ) -> Result<PointFollower, AllocError> {
        Ok(PointFollower {
            alloc,
            kept: installed_profiles(alloc, machine, point)?,
            changes: Vec::new(alloc),
        })
    }

    /// Records how an event after the line that `call --undo` reverts changed the profiles of its
    /// point, given the state after the event.
    pub(crate) fn follow(
        &mut self,
        machine: &Machine,
        event: &Event<'_>,
    ) -> Result<(), AllocError> {
        let EventKind::Message { .. } = event.kind else {
            return Ok(());
        };
        // The lists are compared since a message has more effects than it names: an install
        // replaces others, and a transaction ends TxProfiles.
        let now = installed_profiles(self.alloc, machine, event.point)?;
        let installed = without(self.alloc, now.as_slice(), self.kept.as_slice())?;
        self.add_changes(event, installed, true)?;
        let removed = without(self.alloc, self.kept.as_slice(), now.as_slice())?;
        self.add_changes(event, removed, false)?;
        self.kept = now;
        Ok(())
    }

    /// Records that an event after the line that `call --undo` reverts installed these profiles at
    /// its point, or removed them.
    fn add_changes(
        &mut self,
        event: &Event<'_>,
        profiles: Vec<PrevailingProfile>,
        is_install: bool,
    ) -> Result<(), AllocError> {
        for profile in profiles {
            self.changes.push(LaterChange {
                line: event.line,
                moment: event.moment,
                profile,
                is_install,
            })?;
        }
        Ok(())
    }

    /// Returns the later changes that `call --undo` reverts too, to warn the operator of them. Of
    /// several changes of one profile the last counts.
    pub(crate) fn taken_back(
        self,
        before: &[InstalledProfile],
    ) -> Result<Vec<LaterChange>, AllocError> {
        let cleared = without(self.alloc, self.kept.as_slice(), before)?;
        let mut back = Vec::new(self.alloc);
        for kept in before {
            if kept.comes_back {
                back.push(kept.name)?;
            }
        }
        let mut taken: Vec<LaterChange> = Vec::new(self.alloc);
        for change in &self.changes {
            let names = if change.is_install { &cleared } else { &back };
            if !names.contains(&change.profile) || self.is_outdated(change) {
                continue;
            }
            // An install that replaces a profile is one change for the operator, and no clear.
            let said = self.install_in(change.line).unwrap_or(*change);
            if !taken.contains(&said) {
                taken.push(said)?;
            }
        }
        Ok(taken)
    }

    /// Returns whether a line of the journal after this change installed or removed the same
    /// profile again. `call --undo` then doesn't warn of this change.
    fn is_outdated(&self, change: &LaterChange) -> bool {
        self.changes.iter().any(|other| {
            other.line > change.line
                && other.is_install == change.is_install
                && other.profile == change.profile
        })
    }

    /// Returns the install by the later line of this number at the point that `call --undo`
    /// restores, if the line has one.
    fn install_in(&self, line: u64) -> Option<LaterChange> {
        self.changes
            .iter()
            .find(|change| change.is_install && change.line == line)
            .copied()
    }
}

/// Returns the names of those profiles of the point that `call --undo` restores which aren't among
/// the others.
fn without(
    alloc: Global,
    profiles: &[InstalledProfile],
    others: &[InstalledProfile],
) -> Result<Vec<PrevailingProfile>, AllocError> {
    let mut names = Vec::new(alloc);
    for kept in profiles {
        if !contains_profile(kept, others) {
            names.push(kept.name)?;
        }
    }
    Ok(names)
}
