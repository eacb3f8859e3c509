//! The profiles that an event brought to a charge point, and those that it removed.

use crate::event::{Event, EventKind};
use meaning::PrevailingProfile;
use profile::Row;
use site_core::Machine;
use std::alloc::{AllocError, Global};

/// The change that an event made to the profiles of its point.
#[derive(Drop)]
pub struct RowChange {
    /// The profile that it brought, if any.
    pub came: Option<PrevailingProfile>,
    /// The profiles that it removed, except one that comes again in its own place.
    pub gone: Vec<PrevailingProfile>,
}

/// The profiles of each point of a site by name, event after event.
#[derive(Drop)]
pub struct SiteRows {
    alloc: Global,
    /// The profiles of each point, at its index in the site file.
    points: Vec<PointRows>,
}

/// The profiles of a charge point by name.
#[derive(Drop)]
struct PointRows {
    named: Vec<PrevailingProfile>,
}

impl SiteRows {
    /// Returns those of this many points without a profile.
    pub fn none(alloc: Global, points: usize) -> Result<SiteRows, AllocError> {
        let mut none = Vec::with_capacity(alloc, points)?;
        for _place in 0..points {
            none.push(PointRows {
                named: Vec::new(alloc),
            })?;
        }
        Ok(SiteRows {
            alloc,
            points: none,
        })
    }

    /// Returns those that the points have in this state.
    pub fn of(alloc: Global, machine: &Machine) -> Result<SiteRows, AllocError> {
        let site = machine.site();
        let mut points = Vec::with_capacity(alloc, site.len())?;
        for place in 0..site.len() {
            let named = match site
                .point(place)
                .and_then(|point| machine.book_of(point.id))
            {
                Some(book) => names_of(alloc, book.view().rows)?,
                None => Vec::new(alloc),
            };
            points.push(PointRows { named })?;
        }
        Ok(SiteRows { alloc, points })
    }

    /// Reads an event, given the state after it. Returns how it changed the profiles of its point,
    /// if it did.
    pub fn read(
        &mut self,
        machine: &Machine,
        event: &Event<'_>,
    ) -> Result<Option<RowChange>, AllocError> {
        let EventKind::Message { .. } = event.kind else {
            return Ok(None);
        };
        let (Some(place), Some(book)) = (
            machine.site().place_of(event.point),
            machine.book_of(event.point),
        ) else {
            return Ok(None);
        };
        match self.points.get_mut(place) {
            Some(rows) => rows.follow(self.alloc, book.view().rows),
            None => Ok(None),
        }
    }
}

impl PointRows {
    /// Records the charging profiles that the point has after an event in its site's history, for
    /// `check` and `call`. Returns which came and which are gone, if any.
    fn follow(&mut self, alloc: Global, rows: &[Row]) -> Result<Option<RowChange>, AllocError> {
        if self.are(rows) {
            return Ok(None);
        }
        let now = names_of(alloc, rows)?;
        let mut gone = Vec::new(alloc);
        for profile in &self.named {
            if !now.contains(profile) {
                gone.push(*profile)?;
            }
        }
        // An install puts its profile last, so only the last row can be new.
        let came = now
            .last()
            .copied()
            .filter(|last| !self.named.contains(last));
        self.named = now;
        Ok(Some(RowChange { came, gone }))
    }

    /// Returns whether a charge point's profiles have the names recorded after an earlier event in
    /// its site's history, in their order.
    fn are(&self, rows: &[Row]) -> bool {
        self.named.len() == rows.len()
            && self
                .named
                .iter()
                .zip(rows)
                .all(|(named, row)| *named == name_of(row))
    }
}

/// Returns the names of a point's charging profiles, in their order. `check` and `call` compare
/// them with those after a later event in the site's history.
fn names_of(alloc: Global, rows: &[Row]) -> Result<Vec<PrevailingProfile>, AllocError> {
    let mut names = Vec::with_capacity(alloc, rows.len())?;
    for row in rows {
        names.push(name_of(row))?;
    }
    Ok(names)
}

/// Returns the values that name a charging profile of a point: its id, purpose, stack level and
/// connector.
pub fn name_of(row: &Row) -> PrevailingProfile {
    PrevailingProfile {
        id: row.profile.id,
        purpose: row.profile.purpose,
        stack_level: row.profile.stack_level,
        connector: row.connector,
    }
}
