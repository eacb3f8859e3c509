//! The report on a site that all texts are made of.

use crate::journal_report::JournalReport;
use crate::point_activity::PointActivity;
use ocpp_scalars::Instant;
use site_core::Machine;

/// A report on a site: all texts are made of it.
#[derive(Clone, Copy)]
pub struct SiteReport<'a> {
    /// The moment of the report.
    pub moment: Instant,
    /// The state of the site at that moment.
    pub machine: &'a Machine,
    /// The observations of each point, in the order of the site file.
    pub points: &'a [PointActivity],
    /// Since when the longest-waiting call of each point waits, if one does, in the same order.
    pub waiting_since: &'a [Option<Instant>],
    pub counts: SiteCounts,
    pub journal: JournalReport,
}

/// The counts of a site.
#[derive(Clone, Copy, PartialEq, Eq)]
pub struct SiteCounts {
    /// The current sessions of points and of operators.
    pub point_sessions: u64,
    pub operator_sessions: u64,
    /// The number of connections served at a time, and how many more would be served now.
    pub seats: u64,
    pub free_seats: u64,
    /// The changes of points' profiles and transactions, and the answered requests for schedules,
    /// since the program began. The changes include the restored ones.
    pub changes: u64,
    pub answers: u64,
    /// The connections that weren't let in, and those for which there was no seat.
    pub refused_handshakes: u64,
    pub turned_away: u64,
}
