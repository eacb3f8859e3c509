//! Follows the fuse limits of the points of a site, event by event.

use findings::{Finding, name_point};
use profile_findings::{check_raise, check_unlimited, fuse_limit};
use site_core::Machine;
use site_history::{Event, EventKind};
use std::alloc::{AllocError, Global};

/// Returns the fuse limit of the point of this identity, which `call` compares before and after a
/// call: the highest limit of its ChargePointMaxProfiles, if any.
pub(crate) fn fuse_at(machine: &Machine, point: &str) -> Option<u32> {
    fuse_limit(machine.book_of(point)?)
}

/// The fuse limit of a point.
#[derive(Clone, Copy)]
struct MaxProfileLimit {
    limit: Option<u32>,
    /// The number of the point's profiles.
    profiles: usize,
}

/// The fuse limit of each point, in the order of the site file.
#[derive(Drop)]
pub(crate) struct MaxProfileLimits {
    fuses: Vec<MaxProfileLimit>,
}

impl MaxProfileLimits {
    /// Begins before the first event of a script or a journal for which `check` follows the fuse
    /// limits of all points. None has one (a ChargePointMaxProfile) yet.
    pub(crate) fn new(alloc: Global, points: usize) -> Result<MaxProfileLimits, AllocError> {
        let mut fuses = Vec::new(alloc);
        for _place in 0..points {
            fuses.push(MaxProfileLimit {
                limit: None,
                profiles: 0,
            })?;
        }
        Ok(MaxProfileLimits { fuses })
    }

    /// Follows, event by event for `check`, the fuse limit of the event's point, given the state
    /// after it. Returns a remark if a profile that replaces another one raised the limit.
    pub(crate) fn read(
        &mut self,
        alloc: Global,
        machine: &Machine,
        event: &Event<'_>,
    ) -> Result<Vec<Finding>, AllocError> {
        let mut raises = Vec::new(alloc);
        if let EventKind::Message { .. } = event.kind {
            if let Some(raise) = self.raise_by(alloc, machine, event)? {
                raises.push(raise)?;
                name_point(alloc, &mut raises, event.point)?;
            }
        }
        Ok(raises)
    }

    /// Follows, event by event for `check`, the fuse limit of the event's point. Returns a remark
    /// if the profile of a message raised the limit by replacing another one.
    fn raise_by(
        &mut self,
        alloc: Global,
        machine: &Machine,
        event: &Event<'_>,
    ) -> Result<Option<Finding>, AllocError> {
        let (Some(place), Some(book)) = (
            machine.site().place_of(event.point),
            machine.book_of(event.point),
        ) else {
            return Ok(None);
        };
        let Some(fuse) = self.fuses.get_mut(place) else {
            return Ok(None);
        };
        let before = *fuse;
        *fuse = MaxProfileLimit {
            limit: fuse_limit(book),
            profiles: book.view().rows.len(),
        };
        // A profile that doesn't replace another is checked at the end, with the one that it lifts.
        if fuse.profiles != before.profiles {
            return Ok(None);
        }
        let unit = machine.site().unit();
        check_raise(alloc, unit, event.line, before.limit, fuse.limit)
    }

    /// Goes through all points of the site at the end of a script or a journal, for `check`. Adds a
    /// remark on each without a fuse limit, if most points have one.
    pub(crate) fn find_unlimited(
        &self,
        alloc: Global,
        machine: &Machine,
        findings: &mut Vec<Finding>,
    ) -> Result<(), AllocError> {
        let mut limited = 0usize;
        for fuse in &self.fuses {
            if fuse.limit.is_some() {
                limited = limited.saturating_add(1);
            }
        }
        if limited <= self.fuses.len() / 2 {
            return Ok(());
        }
        for (place, fuse) in self.fuses.iter().enumerate() {
            if let (Some(point), None) = (machine.site().point(place), fuse.limit) {
                findings.push(check_unlimited(alloc, point.id)?)?;
            }
        }
        Ok(())
    }
}
