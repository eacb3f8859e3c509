//! Checks calls before they are sent, each by the state of its point.

ghost use Rattle.std.specs.Prelude.{◌≤◌, length};
ghost use Rattle.replay.specs.Limits.{max_script_bytes};

use crate::history_check::{HistoryCheck, find_at_point};
use crate::max_profile_limits::fuse_at;
use findings::{Finding, Severity};
use message_findings::check_sent;
use profile_findings::check_fuse;
use replay::Playing;
use site_core::Machine;
use site_history::SiteRows;
use std::alloc::{AllocError, Global};

/// Calls that are played on a site, each as a line of a script.
#[derive(Drop)]
pub struct PlayedCalls<'a> {
    playing: Playing<'a>,
    check: HistoryCheck,
}

impl<'a> PlayedCalls<'a> {
    /// Makes these calls on a site in this state, before the first of them.
    pub fn begin(
        alloc: Global,
        machine: Machine,
        calls: &'a [u8],
    ) -> Result<PlayedCalls<'a>, AllocError>
        requires { length calls.now ≤ max_script_bytes }
    {
        let rows = SiteRows::of(alloc, &machine)?;
        Ok(PlayedCalls {
            playing: Playing::on(alloc, machine, calls),
            check: HistoryCheck::begin(alloc, rows),
        })
    }

    /// Plays the next line, which is a call to a point. Returns the findings in it, and those in
    /// the point's profiles that are new. Leaves out the findings in the call by itself.
    pub fn find_in_next(
        &mut self,
        alloc: Global,
        point: &str,
        frame: &str,
    ) -> Result<Vec<Finding>, AllocError> {
        let before = PointFindings::of(alloc, self.playing.machine(), point)?;
        let mut findings = self.find_in_line(alloc, frame)?;
        let machine = self.playing.machine();
        let after = PointFindings::of(alloc, machine, point)?;
        let (fuse_before, fuse_after) = (before.fuse, after.fuse);
        findings.append(&mut after.new_since(alloc, &before)?)?;
        let unit = machine.site().unit();
        if let Some(finding) = check_fuse(alloc, unit, point, fuse_before, fuse_after)? {
            findings.push(finding)?;
        }
        Ok(findings)
    }

    /// Plays the next call that `call` is to send. Returns its findings by the state of its point,
    /// without those that the call has by itself.
    fn find_in_line(&mut self, alloc: Global, frame: &str) -> Result<Vec<Finding>, AllocError> {
        if let Some(played) = self.playing.skim_next()? {
            self.check.check_line(self.playing.machine(), &played)?;
        }
        let found = self.check.take_findings()?;
        // `call` has reported these already, so they would be there twice.
        let by_itself = check_sent(alloc, frame)?;
        without(alloc, found, by_itself.findings.as_slice())
    }
}

/// The findings in the profiles of a point, and its fuse limit.
#[derive(Drop)]
struct PointFindings {
    findings: Vec<Finding>,
    fuse: Option<u32>,
}

impl PointFindings {
    /// Returns the findings of `call` in the profiles that a point has in this state, before or
    /// after a call is played.
    fn of(alloc: Global, machine: &Machine, point: &str) -> Result<PointFindings, AllocError> {
        Ok(PointFindings {
            findings: find_at_point(alloc, machine, point)?,
            fuse: fuse_at(machine, point),
        })
    }

    /// Returns the findings of `call` in a point's profiles that weren't there before the call was
    /// played.
    fn new_since(self, alloc: Global, before: &PointFindings) -> Result<Vec<Finding>, AllocError> {
        let is_same_fuse = self.fuse == before.fuse;
        let mut new = without(alloc, self.findings, before.findings.as_slice())?;
        // A remark on the ceilings has an instant that moves with each install. With the same fuse
        // limit it is no news.
        new.retain(|finding| finding.severity != Severity::Remark || !is_same_fuse);
        Ok(new)
    }
}

/// Returns the findings whose message none of the others has, so that `call` reports only those
/// that are new.
// Places aren't compared: a call by itself is line 0, and a line of the script here.
fn without(
    alloc: Global,
    findings: Vec<Finding>,
    others: &[Finding],
) -> Result<Vec<Finding>, AllocError> {
    let mut left = Vec::new(alloc);
    for finding in findings {
        let message = finding.message.as_str();
        if !others.iter().any(|other| other.message.as_str() == message) {
            left.push(finding)?;
        }
    }
    Ok(left)
}
