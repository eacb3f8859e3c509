//! The summary of a charge point that all texts are made of.

use crate::calls::{in_flight_calls, in_flight_since, waiting_calls};
use crate::point_activity::PointActivity;
use crate::site_report::SiteReport;
use crate::unsure::{may_have_lost, unheld_profiles};
use messages::AuditOutcome;
use ocpp_scalars::Instant;
use point_book::PointBook;
use profile::Row;
use site_core::{Machine, ProfileState};
use std::alloc::{AllocError, Global};

/// The summary of a charge point.
#[derive(Clone, Copy)]
pub(crate) struct PointSummary<'a> {
    pub(crate) id: &'a str,
    pub(crate) news: &'a PointActivity,
    pub(crate) machine: &'a Machine,
    pub(crate) book: &'a PointBook,
    pub(crate) calls: CallSummary,
}

impl PointSummary<'_> {
    /// Returns what the charge point is known to have of one of its installed profiles, for the
    /// texts of the status port.
    pub(crate) fn profile_state_of(&self, row: &Row) -> ProfileState {
        self.machine.profile_state_of(self.id, row)
    }

    /// Returns when the charge point last booted, for the texts of the status port.
    pub(crate) fn booted(&self) -> Option<Instant> {
        self.machine.booted_of(self.id)
    }
}

/// The summary of the calls to a charge point.
#[derive(Clone, Copy)]
pub(crate) struct CallSummary {
    /// The number of calls that it confirmed.
    pub(crate) confirmed: u64,
    pub(crate) waiting: usize,
    /// Since when the longest-waiting call waits.
    pub(crate) waiting_since: Option<Instant>,
    pub(crate) in_flight: usize,
    pub(crate) in_flight_since: Option<Instant>,
    pub(crate) audit: AuditOutcome,
    pub(crate) may_have_lost: bool,
    /// The number of installed profiles that it isn't known to have.
    pub(crate) unheld: u64,
}

/// Summarizes the calls to each charge point for the texts of the status port, in the order of the
/// site file.
pub(crate) fn calls_of_points(
    alloc: Global,
    report: &SiteReport<'_>,
) -> Result<Vec<CallSummary>, AllocError> {
    let mut all = Vec::new(alloc);
    for place in 0..report.points.len() {
        all.push(calls_at(report, place))?;
    }
    Ok(all)
}

/// Summarizes the calls to the point at this place of the site file for the texts of the status
/// port. There are no calls if the site has no point there.
fn calls_at(report: &SiteReport<'_>, place: usize) -> CallSummary {
    let machine = report.machine;
    let (Some(news), Some(point)) = (report.points.get(place), machine.site().point(place)) else {
        return no_calls();
    };
    let (Some(book), Some(outbox)) = (machine.book_of(point.id), machine.outbox_of(point.id)) else {
        return no_calls();
    };
    let audit = machine.audit_of(point.id);
    let rows = book.view().rows;
    CallSummary {
        confirmed: outbox.first_number(),
        waiting: waiting_calls(outbox),
        waiting_since: waiting_since_at(report, place),
        in_flight: in_flight_calls(outbox),
        in_flight_since: in_flight_since(outbox, news.sent),
        audit: audit.map_or(AuditOutcome::NoAudit, |audit| audit.outcome()),
        may_have_lost: may_have_lost(machine, point.id, rows),
        unheld: unheld_profiles(machine, point.id, rows),
    }
}

/// Returns since when a call to the point at this place of the site file waits, if one does. It is
/// for the texts of the status port.
fn waiting_since_at(report: &SiteReport<'_>, place: usize) -> Option<Instant> {
    match report.waiting_since.get(place) {
        Some(since) => *since,
        None => None,
    }
}

/// Returns the summary of calls for the texts of the status port at a place where the site file has
/// no charge point.
fn no_calls() -> CallSummary {
    CallSummary {
        confirmed: 0,
        waiting: 0,
        waiting_since: None,
        in_flight: 0,
        in_flight_since: None,
        audit: AuditOutcome::NoAudit,
        may_have_lost: false,
        unheld: 0,
    }
}

/// Summarizes the charge point at this place of the site file for the texts of the status port,
/// with its calls. Returns `None` if the site has no point there.
pub(crate) fn summary_at<'a>(
    report: &SiteReport<'a>,
    place: usize,
    calls: CallSummary,
) -> Option<PointSummary<'a>> {
    let machine = report.machine;
    let news = report.points.get(place)?;
    let id = machine.site().point(place)?.id;
    let book = machine.book_of(id)?;
    Some(PointSummary {
        id,
        news,
        machine,
        book,
        calls,
    })
}
