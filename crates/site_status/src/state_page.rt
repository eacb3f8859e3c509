//! The state of a site as JSON (RFC 8259).

use crate::health::Health;
use crate::point_activity::{PointActivity, RefusedMessage, Rejection};
use crate::point_summary::{PointSummary, calls_of_points, summary_at};
use crate::site_report::{SiteCounts, SiteReport};
use messages::purpose_name;
use page_text::JsonPage;
use point_book::PointBook;
use profile::Row;
use site_core::ProfileState;
use std::alloc::{AllocError, Global};
use transactions::Transaction;

/// Formats the state of a site as one line of JSON: `moment`, `health`, `sessions`, `seats`,
/// `journal`, and `points` in the order of the site file. Instants are strings (RFC 3339), or null
/// if nothing was observed.
pub fn state_json(alloc: Global, report: &SiteReport<'_>) -> Result<String, AllocError> {
    let mut page = JsonPage::new(alloc);
    page.begin_object();
    page.instant("moment", Some(report.moment));
    page.text("health", Health::of(Some(report.journal.state)).name());
    push_counts(&mut page, &report.counts);
    push_journal(&mut page, report);
    page.array("points");
    let calls = calls_of_points(alloc, report)?;
    for (place, calls) in calls.iter().enumerate() {
        if let Some(point) = summary_at(report, place, *calls) {
            push_point(&mut page, &point);
        }
    }
    page.end_array();
    page.end_object();
    page.finish_line()
}

/// Appends the counts of the site to the status port's JSON: its sessions, seats, changes, answers
/// and refused connections.
fn push_counts(page: &mut JsonPage, counts: &SiteCounts) {
    page.object("sessions");
    page.number("points", counts.point_sessions);
    page.number("operators", counts.operator_sessions);
    page.end_object();
    page.number("seats", counts.seats);
    page.number("freeSeats", counts.free_seats);
    page.number("changes", counts.changes);
    page.number("answers", counts.answers);
    page.number("refusedHandshakes", counts.refused_handshakes);
    page.number("turnedAway", counts.turned_away);
}

/// Appends the site's journal to the status port's JSON: its bytes, and how often and how long it
/// was synced.
fn push_journal(page: &mut JsonPage, report: &SiteReport<'_>) {
    page.object("journal");
    page.number("bytes", report.journal.bytes);
    page.number("syncs", report.journal.syncs);
    page.number("syncMicroseconds", report.journal.sync_microseconds);
    page.end_object();
}

/// Appends a charge point to the status port's JSON: its connection, calls, audit, transactions and
/// profiles.
fn push_point(page: &mut JsonPage, point: &PointSummary<'_>) {
    page.begin_object();
    page.text("id", point.id);
    push_news(page, point.news);
    page.instant("booted", point.booted());
    page.flag("mayHaveForgotten", point.calls.may_have_lost);
    page.number("unheld", point.calls.unheld);
    page.number("confirmed", point.calls.confirmed);
    page.number("inFlight", point.calls.in_flight as u64);
    page.instant("inFlightSince", point.calls.in_flight_since);
    page.number("waiting", point.calls.waiting as u64);
    page.instant("waitingSince", point.calls.waiting_since);
    push_rejected(page, point.news);
    push_refused(page, point.news);
    page.text("audit", point.calls.audit.name());
    push_transactions(page, point.book);
    push_profiles(page, point);
    page.end_object();
}

/// Appends the observations of a charge point's connection to the status port's JSON.
fn push_news(page: &mut JsonPage, news: &PointActivity) {
    page.instant("connectedSince", news.connection.since);
    page.instant("lastText", news.heard);
}

/// Appends the number of calls that a charge point rejected to the status port's JSON, and the last
/// of them.
fn push_rejected(page: &mut JsonPage, news: &PointActivity) {
    page.number("rejections", news.rejections);
    match &news.rejection {
        Some(rejection) => push_rejection(page, rejection),
        None => page.null("rejected"),
    }
}

/// Appends the last call that a charge point rejected to the status port's JSON, with the point's
/// reason.
fn push_rejection(page: &mut JsonPage, rejection: &Rejection) {
    page.object("rejected");
    page.number("call", rejection.call);
    if let Some(action) = rejection.action {
        page.text("action", action.name());
    }
    page.instant("moment", Some(rejection.moment));
    page.text("reason", rejection.reason.as_str());
    page.end_object();
}

/// Appends the number of a charge point's messages that were refused to the status port's JSON, and
/// the last of them.
fn push_refused(page: &mut JsonPage, news: &PointActivity) {
    page.number("refusals", news.refusals);
    let Some(RefusedMessage { fault, moment }) = news.refused else {
        return page.null("refused");
    };
    page.object("refused");
    page.instant("moment", Some(moment));
    page.text("errorCode", fault.code());
    page.text("errorDescription", fault.description());
    page.end_object();
}

/// Appends the active transactions of a charge point to the status port's JSON, without their
/// idTags.
fn push_transactions(page: &mut JsonPage, book: &PointBook) {
    page.array("transactions");
    for before in 0..book.connectors() {
        let connector = before + 1;
        if let Some(active) = book.transaction_at(connector) {
            push_transaction(page, connector, active);
        }
    }
    page.end_array();
}

/// Appends the active transaction at a connector to the status port's JSON, without its idTag.
fn push_transaction(page: &mut JsonPage, connector: u32, active: &Transaction) {
    page.begin_object();
    page.number("connectorId", u64::from(connector));
    // The idTag is left out: it is personal data, and this port has no passwords.
    page.integer("transactionId", active.id);
    page.instant("timestamp", Some(active.begin.timestamp));
    page.end_object();
}

/// Appends the charging profiles of a point to the status port's JSON.
fn push_profiles(page: &mut JsonPage, point: &PointSummary<'_>) {
    page.array("profiles");
    for row in point.book.view().rows {
        push_profile(page, row, point.profile_state_of(row));
    }
    page.end_array();
}

/// Appends an installed charging profile to the status port's JSON, without its schedule, with what
/// its point is known to have of it.
fn push_profile(page: &mut JsonPage, row: &Row, state: ProfileState) {
    page.begin_object();
    page.integer("chargingProfileId", row.profile.id);
    page.text("chargingProfilePurpose", purpose_name(row.profile.purpose));
    page.number("stackLevel", u64::from(row.profile.stack_level));
    page.number("connectorId", u64::from(row.connector));
    page.instant("installed", Some(row.moment));
    page.text("state", state.name());
    page.end_object();
}
