//! The state of each charge point, as tables for people.

use crate::call_of_point::{WaitingCall, state_name, state_of_call, waiting_calls};
use crate::profile_words::{from_text, kind_text, periods_text, until_text};
use crate::table::Table;
use crate::words::instant_text;
use messages::{CallBody, purpose_name, push_subject};
use ocpp_scalars::Instant;
use page_text::Page;
use point_book::PointBook;
use profile::Row;
use replay::Held;
use site_core::{Machine, Outbox, PointAudit, ProfileState, WaitingStart};
use site_history::{PointCalls, RejectedCall};
use std::alloc::{AllocError, Global};

/// The column headings of the table of profiles.
const PROFILE_HEADINGS: [&str; 9] = [
    "id",
    "connector",
    "purpose",
    "level",
    "kind",
    "from",
    "until",
    "periods",
    "state",
];

/// The column headings of the table of remote starts that wait.
const START_HEADINGS: [&str; 5] = ["connector", "idTag", "profile", "call", "its state"];

/// The column headings of the table of held requests.
const HELD_HEADINGS: [&str; 6] = ["number", "id", "point", "connector", "start", "seconds"];

/// The state of a site after the lines of a script or a journal.
#[derive(Clone, Copy)]
pub struct Standing<'a> {
    pub machine: &'a Machine,
    /// The progress of the calls to each point, in the order of the site file.
    pub points: &'a [PointCalls],
    /// The held requests.
    pub held: &'a [Held],
    /// The number of lines, and how many of them have a fault.
    pub lines: u64,
    pub faults: u64,
}

/// The profiles of a point.
#[derive(Clone, Copy)]
pub(crate) struct PointProfiles<'a> {
    pub(crate) machine: &'a Machine,
    pub(crate) point: &'a str,
}

impl PointProfiles<'_> {
    /// Returns the state of an installed profile at its point, for `show`'s page or its JSON.
    pub(crate) fn state_of(&self, row: &Row) -> ProfileState {
        self.machine.profile_state_of(self.point, row)
    }
}

/// Formats the state of each point, in the order of the site file, and the held requests. A point
/// has profiles, transactions, its audit, the remote starts and calls that wait, and the calls that
/// it rejected. A point with nothing takes one line.
pub fn standing_text(alloc: Global, standing: &Standing<'_>) -> Result<String, AllocError> {
    let machine = standing.machine;
    let mut page = Page::new(alloc);
    for (place, calls) in standing.points.iter().enumerate() {
        if let Some(point) = machine.site().point(place) {
            let profiles = PointProfiles {
                machine,
                point: point.id,
            };
            push_point(&mut page, profiles, &calls.rejected);
        }
    }
    push_held(&mut page, machine, standing.held);
    page.finish()
}

/// Appends the state of a charge point to `show`'s text page: its profiles, transactions, audit,
/// waiting starts and calls.
fn push_point(page: &mut Page, profiles: PointProfiles<'_>, rejected: &[RejectedCall]) {
    let (machine, id) = (profiles.machine, profiles.point);
    let (Some(book), Some(outbox)) = (machine.book_of(id), machine.outbox_of(id)) else {
        return;
    };
    let Ok(calls) = waiting_calls(page.allocator(), outbox) else {
        return page.fail();
    };
    let audit = machine.audit_of(id);
    let starts = machine.waiting_of(id);
    let has_nothing = book.view().rows.is_empty() && has_no_transaction(book) && audit.is_none();
    // Before its first message a point has only call 0, which fits into the one line.
    if has_nothing && starts.is_empty() && calls.len() <= 1 && rejected.is_empty() {
        return push_empty_point(page, id, outbox, &calls);
    }
    write!(page, "{id}\n");
    push_profiles(page, profiles, book);
    push_transactions(page, book);
    push_audit(page, audit);
    push_starts(page, outbox, starts);
    push_calls(page, outbox, &calls);
    push_rejected(page, rejected);
}

/// Returns whether no connector of the charge point has an active transaction, for `show`'s text
/// page.
fn has_no_transaction(book: &PointBook) -> bool {
    for before in 0..book.connectors() {
        if book.transaction_at(before + 1).is_some() {
            return false;
        }
    }
    true
}

/// Appends the table of a point's active transactions to `show`'s text page, or that there is none.
fn push_transactions(page: &mut Page, book: &PointBook) {
    if has_no_transaction(book) {
        return page.push_str("  no transaction\n");
    }
    let alloc = page.allocator();
    let mut table = Table::new(alloc, &["connector", "id", "idTag", "since"]);
    for before in 0..book.connectors() {
        let connector = before + 1;
        if let Some(active) = book.transaction_at(connector) {
            table.begin_row();
            table.cell(connector);
            table.cell(active.id);
            table.cell(active.begin.id_tag.as_str());
            table.made_cell(instant_text(alloc, active.begin.timestamp));
        }
    }
    page.push_str("  transactions\n");
    table.push_to(page, 4);
}

/// Appends to `show`'s text page the point's last audit, a GetCompositeSchedule that is compared,
/// and its outcome, or that there is none.
fn push_audit(page: &mut Page, audit: Option<&PointAudit>) {
    let Some(audit) = audit else {
        return page.push_str("  no audit\n");
    };
    let connector = audit.asked().connector();
    let seconds = audit.asked().duration();
    let call = audit.number();
    let outcome = audit.outcome().name();
    write!(
        page,
        "  audit: connector {connector} for {seconds} s, by call {call}: {outcome}\n"
    );
}

/// Appends the table of a point's remote starts that wait to `show`'s text page, if there are any.
fn push_starts(page: &mut Page, outbox: &Outbox, starts: &[WaitingStart]) {
    if starts.is_empty() {
        return;
    }
    let mut table = Table::new(page.allocator(), &START_HEADINGS);
    for start in starts {
        table.begin_row();
        table.cell(start.connector);
        table.cell(start.id_tag.as_str());
        match &start.profile {
            Some(profile) => table.cell(profile.id),
            None => table.cell("-"),
        }
        table.cell(start.call);
        table.cell(state_of_call(outbox, start.call));
    }
    page.push_str("  remote starts that wait\n");
    table.push_to(page, 4);
}

/// Appends the numbers of a point's calls to `show`'s text page, and a table of the unconfirmed
/// ones.
fn push_calls(page: &mut Page, outbox: &Outbox, calls: &[WaitingCall]) {
    page.push_str("  ");
    push_call_counts(page, outbox, calls.len());
    page.push('\n');
    if calls.is_empty() {
        return;
    }
    let alloc = page.allocator();
    let mut table = Table::new(alloc, &["number", "action", "subject", "state"]);
    for waiting in calls {
        table.begin_row();
        table.cell(waiting.call.number);
        table.cell(waiting.call.body.action());
        table.made_cell(subject_text(alloc, &waiting.call.body));
        table.cell(state_name(waiting.is_in_flight));
    }
    table.push_to(page, 4);
}

/// Appends to `show`'s text page the calls that the point replied to without doing them, if there
/// are any.
fn push_rejected(page: &mut Page, rejected: &[RejectedCall]) {
    if rejected.is_empty() {
        return;
    }
    let mut table = Table::new(page.allocator(), &["number", "call", "answered", "at line"]);
    for answered in rejected {
        table.begin_row();
        table.cell(answered.call.number);
        table.cell(answered.call.what.as_str());
        table.cell(answered.status.as_str());
        table.cell(answered.line);
    }
    page.push_str("  calls that the point rejected\n");
    table.push_to(page, 4);
}

/// Appends to `show`'s text page the single line of a point with neither profiles nor transactions,
/// and at most one waiting call.
fn push_empty_point(page: &mut Page, id: &str, outbox: &Outbox, calls: &[WaitingCall]) {
    write!(page, "{id}: no profile, no transaction; ");
    push_call_counts(page, outbox, calls.len());
    if let Some(waiting) = calls.first() {
        let number = waiting.call.number;
        let action = waiting.call.body.action();
        let state = state_name(waiting.is_in_flight);
        write!(page, " (call {number}, {action}, {state})");
    }
    page.push('\n');
}

/// Appends the table of a point's charging profiles to `show`'s text page, or that there is none.
fn push_profiles(page: &mut Page, profiles: PointProfiles<'_>, book: &PointBook) {
    let rows = book.view().rows;
    if rows.is_empty() {
        return page.push_str("  no profile\n");
    }
    let mut table = Table::new(page.allocator(), &PROFILE_HEADINGS);
    for row in rows {
        push_profile(&mut table, page.allocator(), book, row);
        table.cell(profiles.state_of(row).name());
    }
    page.push_str("  profiles\n");
    table.push_to(page, 4);
}

/// Appends the row of a charging profile to the table of a point's profiles in `show`'s text page.
fn push_profile(table: &mut Table, alloc: Global, book: &PointBook, row: &Row) {
    let profile = &row.profile;
    table.begin_row();
    table.cell(profile.id);
    table.cell(row.connector);
    table.cell(purpose_name(profile.purpose));
    table.cell(profile.stack_level);
    table.made_cell(kind_text(alloc, profile.kind));
    table.made_cell(from_text(alloc, row, started_at(book, row)));
    table.made_cell(until_text(alloc, row, started_at(book, row)));
    table.made_cell(periods_text(alloc, profile));
}

/// Returns the start of the active transaction at the connector of an installed profile, if there
/// is one, for `show`'s text page.
fn started_at(book: &PointBook, row: &Row) -> Option<Instant> {
    book.view().active_since(row.connector as usize)
}

/// Appends to `show`'s text page the numbers of a point's calls that are confirmed, in flight and
/// waiting.
fn push_call_counts(page: &mut Page, outbox: &Outbox, calls: usize) {
    let confirmed = outbox.first_number();
    let in_flight = usize::from(outbox.is_in_flight());
    let waiting = calls.saturating_sub(in_flight);
    let link = match outbox.link() {
        Some(_) => "",
        None => ", no link",
    };
    write!(
        page,
        "calls: {confirmed} confirmed, {in_flight} in flight, {waiting} waiting{link}"
    );
}

/// Returns the subject of a call in `show`'s text page: its profiles, the schedule that it
/// requests, or the idTag to start.
fn subject_text(alloc: Global, body: &CallBody) -> Result<String, AllocError> {
    let mut out = String::new(alloc);
    push_subject(&mut out, body)?;
    Ok(out)
}

/// Appends the table of the held requests for schedules to `show`'s text page, if there are any.
fn push_held(page: &mut Page, machine: &Machine, requests: &[Held]) {
    if requests.is_empty() {
        return;
    }
    let alloc = page.allocator();
    let mut table = Table::new(alloc, &HELD_HEADINGS);
    for held in requests {
        if let Some((place, ask)) = machine.request_asked(held.number) {
            let point = machine.site().point(place).map_or("-", |point| point.id);
            table.begin_row();
            table.cell(held.number);
            table.cell(held.id.as_str());
            table.cell(point);
            table.cell(ask.connector);
            table.made_cell(instant_text(alloc, ask.start));
            table.cell(ask.duration);
        }
    }
    page.push_str("held requests\n");
    table.push_to(page, 2);
}
