//! The state of each charge point as JSON, with OCPP's field names.

use crate::call_of_point::{WaitingCall, state_name, state_of_call, waiting_calls};
use crate::standing::{PointProfiles, Standing};
use messages::{CallBody, push_payload_fields, push_profile};
use page_text::JsonPage;
use point_book::PointBook;
use profile::{Profile, Row};
use replay::Held;
use site_core::{Machine, Outbox, PointAudit, ProfileState, WaitingStart};
use site_history::RejectedCall;
use std::alloc::{AllocError, Global};
use transactions::Transaction;

/// Formats the state of each point in the order of the site file, the held requests, and the number
/// of lines with a fault.
pub fn standing_json(alloc: Global, standing: &Standing<'_>) -> Result<String, AllocError> {
    let machine = standing.machine;
    let mut page = JsonPage::new(alloc);
    page.begin_object();
    page.number("lines", standing.lines);
    page.number("faults", standing.faults);
    page.array("points");
    for (place, calls) in standing.points.iter().enumerate() {
        if let Some(point) = machine.site().point(place) {
            let profiles = PointProfiles {
                machine,
                point: point.id,
            };
            push_point(&mut page, profiles, &calls.rejected);
        }
    }
    page.end_array();
    push_held(&mut page, machine, standing.held);
    page.end_object();
    page.finish()
}

/// Appends the state of a charge point to `show`'s JSON: its profiles, transactions, audit, waiting
/// starts and calls.
fn push_point(page: &mut JsonPage, profiles: PointProfiles<'_>, rejected: &[RejectedCall]) {
    let (machine, id) = (profiles.machine, profiles.point);
    let (Some(book), Some(outbox)) = (machine.book_of(id), machine.outbox_of(id)) else {
        return;
    };
    page.begin_object();
    page.text("id", id);
    push_profiles(page, profiles, book);
    push_transactions(page, book);
    push_audit(page, machine.audit_of(id));
    push_starts(page, outbox, machine.waiting_of(id));
    push_calls(page, outbox);
    push_rejected(page, rejected);
    page.end_object();
}

/// Appends the charging profiles of a point to `show`'s JSON.
fn push_profiles(page: &mut JsonPage, profiles: PointProfiles<'_>, book: &PointBook) {
    page.array("profiles");
    for row in book.view().rows {
        push_row(page, row, profiles.state_of(row));
    }
    page.end_array();
}

/// Appends an installed charging profile to `show`'s JSON, with its connector and the moment of the
/// install.
fn push_row(page: &mut JsonPage, row: &Row, state: ProfileState) {
    let profile = profile_json(page.allocator(), &row.profile);
    page.begin_object();
    page.number("connectorId", u64::from(row.connector));
    page.instant("installed", Some(row.moment));
    page.text("state", state.name());
    page.made("csChargingProfiles", profile);
    page.end_object();
}

/// Returns a charging profile as OCPP's JSON, for `show`'s JSON.
fn profile_json(alloc: Global, profile: &Profile) -> Result<String, AllocError> {
    let mut text = String::new(alloc);
    push_profile(&mut text, profile)?;
    Ok(text)
}

/// Appends the active transactions of a point to `show`'s JSON.
fn push_transactions(page: &mut JsonPage, book: &PointBook) {
    page.array("transactions");
    for before in 0..book.connectors() {
        let connector = before + 1;
        if let Some(active) = book.transaction_at(connector) {
            push_transaction(page, connector, active);
        }
    }
    page.end_array();
}

/// Appends the active transaction at a connector to `show`'s JSON.
fn push_transaction(page: &mut JsonPage, connector: u32, active: &Transaction) {
    page.begin_object();
    page.number("connectorId", u64::from(connector));
    page.integer("transactionId", active.id);
    page.text("idTag", active.begin.id_tag.as_str());
    page.integer("meterStart", active.begin.meter_start);
    page.instant("timestamp", Some(active.begin.timestamp));
    page.end_object();
}

/// Appends to `show`'s JSON the point's last audit, a GetCompositeSchedule that is compared, and
/// its outcome, or null if there was none.
fn push_audit(page: &mut JsonPage, audit: Option<&PointAudit>) {
    let Some(audit) = audit else {
        return page.null("audit");
    };
    page.object("audit");
    page.text("outcome", audit.outcome().name());
    page.number("call", audit.number());
    page.number("connectorId", u64::from(audit.asked().connector()));
    page.number("duration", u64::from(audit.asked().duration()));
    page.end_object();
}

/// Appends the remote starts of a point that wait to `show`'s JSON.
fn push_starts(page: &mut JsonPage, outbox: &Outbox, starts: &[WaitingStart]) {
    page.array("waitingStarts");
    for start in starts {
        push_start(page, outbox, start);
    }
    page.end_array();
}

/// Appends a waiting remote start to `show`'s JSON, with the progress of its call.
fn push_start(page: &mut JsonPage, outbox: &Outbox, start: &WaitingStart) {
    page.begin_object();
    page.number("connectorId", u64::from(start.connector));
    page.text("idTag", start.id_tag.as_str());
    page.number("call", start.call);
    page.text("state", state_of_call(outbox, start.call));
    if let Some(profile) = &start.profile {
        let profile = profile_json(page.allocator(), profile);
        page.made("chargingProfile", profile);
    }
    page.end_object();
}

/// Appends to `show`'s JSON whether a point is linked, how many calls it confirmed, and the calls
/// that aren't confirmed.
fn push_calls(page: &mut JsonPage, outbox: &Outbox) {
    page.flag("linked", outbox.link().is_some());
    page.number("confirmed", outbox.first_number());
    page.array("calls");
    match waiting_calls(page.allocator(), outbox) {
        Ok(calls) => {
            for waiting in &calls {
                push_call(page, waiting);
            }
        }
        Err(AllocError) => page.fail(),
    }
    page.end_array();
}

/// Appends an unconfirmed call to a point to `show`'s JSON, with the fields of its payload.
fn push_call(page: &mut JsonPage, waiting: &WaitingCall) {
    let fields = payload_fields(page.allocator(), &waiting.call.body);
    page.begin_object();
    page.number("number", waiting.call.number);
    page.text("state", state_name(waiting.is_in_flight));
    page.text("action", waiting.call.body.action());
    page.made_fields(fields);
    page.end_object();
}

/// Returns the fields of a call's payload as JSON with commas between them, for `show`'s JSON.
fn payload_fields(alloc: Global, body: &CallBody) -> Result<String, AllocError> {
    let mut fields = String::new(alloc);
    push_payload_fields(&mut fields, body)?;
    Ok(fields)
}

/// Appends to `show`'s JSON the calls that the point replied to without doing them.
fn push_rejected(page: &mut JsonPage, rejected: &[RejectedCall]) {
    page.array("rejected");
    for answered in rejected {
        page.begin_object();
        page.number("number", answered.call.number);
        page.text("status", answered.status.as_str());
        page.number("line", answered.line);
        page.text("action", answered.call.action.name());
        page.fields(answered.call.fields.as_str());
        page.end_object();
    }
    page.end_array();
}

/// Appends the held requests for schedules to `show`'s JSON.
fn push_held(page: &mut JsonPage, machine: &Machine, requests: &[Held]) {
    page.array("held");
    for held in requests {
        push_request(page, machine, held);
    }
    page.end_array();
}

/// Appends a held request for a schedule to `show`'s JSON.
fn push_request(page: &mut JsonPage, machine: &Machine, held: &Held) {
    page.begin_object();
    page.number("number", held.number);
    page.text("messageId", held.id.as_str());
    if let Some((place, ask)) = machine.request_asked(held.number) {
        if let Some(point) = machine.site().point(place) {
            page.text("point", point.id);
        }
        page.number("connectorId", u64::from(ask.connector));
        page.instant("start", Some(ask.start));
        page.number("duration", u64::from(ask.duration));
    }
    page.end_object();
}
