//! Checks all of a site's history: its lines or events, and the state at its end.

use crate::finding_lines::push_history_findings;
use crate::history_check::{HistoryCheck, find_at_point};
use crate::max_profile_limits::MaxProfileLimits;
use findings::{Finding, exit_status, joined_status, sort_by_line};
use message_findings::check_held;
use profile_findings::check_boot;
use replay::{Held, PlayedLine};
use site_core::Machine;
use site_history::{Event, HeldLines, PointCalls, SiteCalls, SiteRows, change_in};
use site_status::may_have_lost;
use std::alloc::{AllocError, Global};

/// A check of all of a site's history. Its findings are printed from time to time.
#[derive(Drop)]
pub struct SiteCheck {
    alloc: Global,
    history: HistoryCheck,
    fuses: MaxProfileLimits,
    calls: SiteCalls,
    /// The exit status by the findings printed so far.
    status: u8,
}

impl SiteCheck {
    /// Begins before the first line or event of a site with this many points.
    pub fn begin(alloc: Global, points: usize) -> Result<SiteCheck, AllocError> {
        Ok(SiteCheck {
            alloc,
            history: HistoryCheck::begin(alloc, SiteRows::none(alloc, points)?),
            fuses: MaxProfileLimits::new(alloc, points)?,
            calls: SiteCalls::new(alloc, points)?,
            status: 0,
        })
    }

    /// Checks the script's line played last, given the state after it.
    pub fn check_line(
        &mut self,
        machine: &Machine,
        played: &PlayedLine<'_>,
    ) -> Result<(), AllocError> {
        self.calls.follow_line(machine, played)?;
        self.history.check_line(machine, played)?;
        match change_in(played) {
            Some(event) => self.check_fuse(machine, &event),
            None => Ok(()),
        }
    }

    /// Checks an event of a journal, given the state after it.
    pub fn check_event(&mut self, machine: &Machine, event: &Event<'_>) -> Result<(), AllocError> {
        self.calls.follow(machine, event)?;
        self.history.check_event(machine, event)?;
        self.check_fuse(machine, event)
    }

    /// Adds to the findings that `check` collects, event by event, a remark if an event raised the
    /// fuse limit of its point.
    fn check_fuse(&mut self, machine: &Machine, event: &Event<'_>) -> Result<(), AllocError> {
        let raises = self.fuses.read(self.alloc, machine, event)?;
        self.history.add(raises)
    }

    /// Adds a remark on each line of a script that took a request which is still held.
    pub fn check_held(&mut self, held: &[Held], lines: &HeldLines) -> Result<(), AllocError> {
        self.history.add(check_held(self.alloc, held, lines)?)
    }

    /// Appends the findings in the lines or events since the last time.
    pub fn push_findings(&mut self, page: &mut String) -> Result<(), AllocError> {
        let mut findings = self.history.take_findings()?;
        sort_by_line(&mut findings)?;
        self.push(page, findings)
    }

    /// Appends the findings in the state at the end: points without a fuse limit, profiles that
    /// points have, and points that may have forgotten them.
    pub fn push_findings_at_end(
        &mut self,
        page: &mut String,
        machine: &Machine,
    ) -> Result<(), AllocError> {
        let mut findings = Vec::new(self.alloc);
        self.fuses
            .find_unlimited(self.alloc, machine, &mut findings)?;
        let site = machine.site();
        for place in 0..site.len() {
            if let Some(point) = site.point(place) {
                findings.append(&mut find_at_point(self.alloc, machine, point.id)?)?;
            }
        }
        find_in_boots(self.alloc, machine, &mut findings)?;
        self.push(page, findings)
    }

    /// Appends these findings in a script or a journal to the output of `check`, and counts them
    /// for its exit status.
    fn push(&mut self, page: &mut String, findings: Vec<Finding>) -> Result<(), AllocError> {
        self.status = joined_status(self.status, exit_status(findings.as_slice()));
        push_history_findings(page, findings.as_slice())
    }

    /// Returns the calls to each point, in the order of the site file.
    pub fn points(&self) -> &[PointCalls] {
        self.calls.points()
    }

    /// Returns the exit status by the findings so far.
    pub fn status(&self) -> u8 {
        self.status
    }
}

/// Goes through all points of the site at the end of a script or a journal, for `check`. Adds a
/// remark on each that booted and may have forgotten its profiles.
fn find_in_boots(
    alloc: Global,
    machine: &Machine,
    findings: &mut Vec<Finding>,
) -> Result<(), AllocError> {
    let site = machine.site();
    for place in 0..site.len() {
        let Some(point) = site.point(place) else {
            continue;
        };
        let Some(moment) = machine.booted_of(point.id) else {
            continue;
        };
        if may_forget(machine, point.id) {
            findings.push(check_boot(alloc, point.id, moment)?)?;
        }
    }
    Ok(())
}

/// Returns whether the point of this identity may have forgotten its profiles at the end of a
/// script or a journal. `check` collects a remark on each such point of the site.
fn may_forget(machine: &Machine, point: &str) -> bool {
    match machine.book_of(point) {
        Some(book) => may_have_lost(machine, point, book.view().rows),
        None => false,
    }
}
