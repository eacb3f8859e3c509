//! Checks a CALL in a line of a script.

use crate::field_fault::field_fault_message;
use crate::line_hints::unknown_point;
use crate::line_text::{LineMessage, Sender};
use crate::payload_fields::{PayloadFields, UnknownField, payload_fields};
use crate::payload_objects::names_of;
use crate::printed_check::depends_on_state;
use crate::profile_check::check_install;
use crate::remote_start_check::check_remote_start;
use crate::report::Report;
use crate::sentences::sentence;
use crate::text_check::not_composite;
use crate::zone_check::remark_unzoned;
use findings::{Excerpt, similar_name};
use messages::{Action, ActionKind, CallFault, Side, fields_of, read_fields};
use ocpp_scalars::Refusal;
use ocppj_frame::Node;
use profile::{Criteria, Unit};
use profile_findings::has_no_criterion;
use site_rules::{Site, SitePoint};
use std::alloc::{AllocError, Global};

/// A CALL in a line.
#[derive(Clone, Copy)]
pub(crate) struct LineCall<'a, 'node, 'memory> {
    pub text: &'a LineMessage<'a>,
    pub action: &'a str,
    pub payload: Node<'node, 'memory>,
}

/// Checks, for `check` or `call`, a CALL in a line of a script or a journal: whether its sender has
/// the action, then its payload.
pub(crate) fn check_call(report: &mut Report, call: &LineCall<'_, '_, '_>) {
    let kind = ActionKind::named(call.action);
    if call.text.sender == Sender::Hold && kind != Some(ActionKind::GetCompositeSchedule) {
        return not_composite(report, call.text, "it is a CALL of another action");
    }
    let sender = call.text.sender.side();
    match ActionKind::of_sender(sender, call.action) {
        Some(kind) => check_action(report, call, kind),
        None => refuse_action(report, sender, call.action),
    }
}

/// Reports, for `check` of a script or `call`, a CALL with an action that its sender doesn't have.
/// Adds the action that was probably meant.
pub(crate) fn refuse_action(report: &mut Report, sender: Side, name: &str) {
    report.fault(unknown_action_message(report.alloc, sender, name));
}

/// Describes, for `check` of a script or `call`, a CALL's action that its sender doesn't have. Adds
/// the action that was probably meant.
fn unknown_action_message(alloc: Global, sender: Side, name: &str) -> Result<String, AllocError> {
    let actions = actions_of(alloc, sender)?;
    let sender = match sender {
        Side::Operator => "an operator",
        Side::Point => "a point",
    };
    let action = Excerpt(name);
    match similar_name(alloc, name, actions.as_slice())? {
        Some(meant) => format!(in alloc;
            "NotImplemented: \"{action}\" is no action of {sender} (\"{meant}\" is one)"
        ),
        None if ActionKind::named(name).is_some() => format!(in alloc;
            "NotImplemented: \"{action}\" is an action of the other side, not of {sender}"
        ),
        None => format!(in alloc;
            "NotImplemented: \"{action}\" is no action of {sender} that is known here"
        ),
    }
}

/// Returns the names of the actions that an operator or a point may send. `check` of a script or
/// `call` suggests one of them for a misspelled action.
fn actions_of(alloc: Global, side: Side) -> Result<Vec<&'static str>, AllocError> {
    let mut names = Vec::new(alloc);
    for kind in ActionKind::all() {
        if kind.side().is_same(side) {
            names.push(kind.name())?;
        }
    }
    Ok(names)
}

/// Checks, for `check` or `call`, the payload of a CALL in a line of a script or a journal: its
/// fields, then its request.
fn check_action(report: &mut Report, call: &LineCall<'_, '_, '_>, kind: ActionKind) {
    let alloc = report.alloc;
    let Ok(fields) = payload_fields(alloc, call.text.frame, kind) else {
        return report.fail();
    };
    warn_repeated(report, &fields);
    match read_fields(alloc, kind, call.payload) {
        Ok(Action::ClearChargingProfile(criteria)) => check_clear(report, call, &criteria, &fields),
        Ok(action) => {
            warn_unknown(report, kind, &fields);
            remark_unzoned(report, kind, call.payload);
            check_asked(report, call, action);
        }
        Err(CallFault::Refused(Refusal::OutOfMemory)) => report.fail(),
        Err(fault) => {
            report.fault(field_fault_message(alloc, call.payload, kind, fault));
            warn_unknown(report, kind, &fields);
        }
    }
}

/// Checks, for `check` or `call`, the request of a CALL in a line of a script or a journal by its
/// action. The CALL's fields are valid.
fn check_asked(report: &mut Report, call: &LineCall<'_, '_, '_>, action: Action) {
    match action {
        Action::SetChargingProfile { connector, profile } => {
            check_install(report, call.text, connector, profile)
        }
        Action::GetCompositeSchedule(request) => {
            check_ask(report, call.text, request.connector, request.duration)
        }
        Action::RemoteStartTransaction(start) => check_remote_start(report, call.text, start),
        // An audit asks the point for a schedule in the site's unit, so the same checks apply.
        Action::AuditPoint {
            connector,
            duration,
        } => check_ask(report, call.text, connector, duration),
        Action::StartTransaction(start) => check_start(report, call.text, start.connector),
        _ => check_refused(report, call.text),
    }
}

/// Reports, for `check` or `call`, the refusal of a CALL in a script that no other check covers,
/// unless it depends on the point's state.
fn check_refused(report: &mut Report, text: &LineMessage<'_>) {
    match text.refusal() {
        Some(Refusal::UnknownPoint) => refuse_point(report, text),
        Some(refusal) if !depends_on_state(refusal) => reject(report, refusal, None),
        _ => {}
    }
}

/// Warns, for `check` of a script or `call`, of duplicate fields of an operator's CALL.
pub(crate) fn warn_repeated(report: &mut Report, fields: &PayloadFields) {
    for name in &fields.repeated {
        report.warn(format!(in report.alloc;
            "\"{name}\" is a duplicate field, and the last one counts"
        ));
    }
}

/// Warns, for `check` of a script or `call`, of unknown fields of an operator's CALL.
pub(crate) fn warn_unknown(report: &mut Report, kind: ActionKind, fields: &PayloadFields) {
    // OCPP doesn't have these two actions, so it doesn't define their fields.
    let whose = match kind {
        ActionKind::AuditPoint | ActionKind::PointStatus => "",
        _ => " of OCPP",
    };
    for field in &fields.unknown {
        report.warn(unknown_field_message(report.alloc, field, whose));
    }
}

/// Describes, for a warning of `check` on a script or of `call`, an unknown field of an operator's
/// CALL. Adds the field that was probably meant.
fn unknown_field_message(
    alloc: Global,
    field: &UnknownField,
    whose: &str,
) -> Result<String, AllocError> {
    let name = Excerpt(field.name.as_str());
    let known = names_of(alloc, field.known)?;
    match similar_name(alloc, field.name.as_str(), known.as_slice())? {
        Some(meant) => format!(in alloc;
            "\"{name}\" is no field{whose} there and has no effect (\"{meant}\" is one)"
        ),
        None => format!(in alloc; "\"{name}\" is no field{whose} there and has no effect"),
    }
}

/// Checks, for `check` or `call`, a ClearChargingProfile in a line of a script or a journal:
/// whether the site has its point, and its fields that are no criteria.
// An unknown field of a clear has a warning of its own: it may clear more than is meant.
fn check_clear(
    report: &mut Report,
    call: &LineCall<'_, '_, '_>,
    criteria: &Criteria,
    fields: &PayloadFields,
) {
    if call.text.site.place_of(call.text.point).is_none() {
        refuse_point(report, call.text);
    }
    warn_of_clear(report, call.payload, criteria, fields);
}

/// Warns, for `check` of a script or `call`, of a ClearChargingProfile that clears more than it
/// seems to. It has no criterion, or has fields that are no criteria.
// Unknown fields are ignored, so a clear whose only criterion is misspelled clears everything.
pub(crate) fn warn_of_clear(
    report: &mut Report,
    payload: Node<'_, '_>,
    criteria: &Criteria,
    fields: &PayloadFields,
) {
    if has_no_criterion(criteria) {
        return report.warn(clears_all_message(report.alloc, payload, fields));
    }
    for field in &fields.unknown {
        let name = Excerpt(field.name.as_str());
        report.warn(format!(in report.alloc;
            "\"{name}\" is no criterion and has no effect, so more may be CLEARED than is meant: id, connectorId, chargingProfilePurpose and stackLevel are the criteria"
        ));
    }
}

/// Returns whether an operator's ClearChargingProfile without a criterion has fields, unknown or
/// null. `call` then takes it for a mistake and doesn't send it.
pub(crate) fn has_fields(payload: Node<'_, '_>, fields: &PayloadFields) -> bool {
    for row in fields_of(ActionKind::ClearChargingProfile) {
        if payload.field(row.name().text()).is_some() {
            return true;
        }
    }
    !fields.unknown.is_empty()
}

/// Describes, for a warning of `check` on a script or of `call`, a ClearChargingProfile without a
/// criterion, and the criteria that were probably meant.
fn clears_all_message(
    alloc: Global,
    payload: Node<'_, '_>,
    fields: &PayloadFields,
) -> Result<String, AllocError> {
    let mut message = String::from_str(
        alloc,
        "a clear without a criterion clears EVERYTHING that the point has, a fuse limit (ChargePointMaxProfile) too",
    )?;
    for field in &fields.unknown {
        let name = Excerpt(field.name.as_str());
        match criterion_meant(alloc, field.name.as_str())? {
            Some(meant) => write!(message, "; \"{name}\" isn't one (\"{meant}\" is)")?,
            None => write!(message, "; \"{name}\" isn't one")?,
        }
    }
    for row in fields_of(ActionKind::ClearChargingProfile) {
        let name = row.name().text();
        if payload.field(name).is_some() {
            write!(message, "; \"{name}\" is null, which is none")?;
        }
    }
    Ok(message)
}

/// Returns, for `check` of a script or `call`, the criterion of a ClearChargingProfile that an
/// unknown field of this name probably means.
// These names are from other messages or OCPP 2.0.1, and not similar enough for `similar_name`.
fn criterion_meant(alloc: Global, name: &str) -> Result<Option<&'static str>, AllocError> {
    match name {
        "chargingProfileId" | "profileId" | "chargingProfileID" => Ok(Some("id")),
        "connector" | "evseId" => Ok(Some("connectorId")),
        "purpose" => Ok(Some("chargingProfilePurpose")),
        "level" => Ok(Some("stackLevel")),
        _ => {
            let criteria = names_of(alloc, fields_of(ActionKind::ClearChargingProfile))?;
            similar_name(alloc, name, criteria.as_slice())
        }
    }
}

/// Reports, for `check`, that the site lacks the point of a message in a script. Adds the identity
/// that is probably meant.
pub(crate) fn refuse_point(report: &mut Report, text: &LineMessage<'_>) {
    let message = unknown_point(report, text.site, text.point);
    report.fault(message);
}

/// Returns the site's point that a line of a script names, if there is one. The findings of `check`
/// or `call` about the line's message need it.
pub(crate) fn point_of<'a>(text: &LineMessage<'a>) -> Option<SitePoint<'a>> {
    text.site.point(text.site.place_of(text.point)?)
}

/// Checks, for `check` or `call`, a GetCompositeSchedule or an AuditPoint in a script by its
/// answer. Reports a refusal unless it depends on the point's state.
fn check_ask(report: &mut Report, text: &LineMessage<'_>, connector: u32, duration: u32) {
    match text.rejection() {
        None => {}
        Some(refusal) if depends_on_state(refusal) => {}
        Some(Refusal::UnknownPoint) => refuse_point(report, text),
        Some(refusal) => {
            let found = match refusal {
                Refusal::BadDuration | Refusal::PastCalendar => {
                    format!(in report.alloc; "duration is {duration}")
                }
                _ => place_found(report.alloc, text, connector, refusal),
            };
            reject_found(report, refusal, found);
        }
    }
}

/// Describes, for a fault of `check` or `call`, the connector or the unit for which the site
/// refuses an operator's CALL in a script.
pub(crate) fn place_found(
    alloc: Global,
    text: &LineMessage<'_>,
    connector: u32,
    refusal: Refusal,
) -> Result<String, AllocError> {
    match (refusal, point_of(text)) {
        (Refusal::UnknownConnector, Some(point)) => {
            let count = point.ceilings.len();
            format!(in alloc; "connectorId is {connector}, and {count} is the last one")
        }
        (Refusal::WrongUnit, _) => String::from_str(alloc, unit_found(text.site)),
        _ => format!(in alloc; "connectorId is {connector}"),
    }
}

/// Describes the unit of the site file, for a fault of `check` in a script or of `call`: an
/// operator's CALL has the other chargingRateUnit.
pub(crate) fn unit_found(site: &Site) -> &'static str {
    match site.unit() {
        Unit::A => "the site's is \"A\"",
        Unit::W => "the site's is \"W\"",
    }
}

/// Reports, for `check` or `call`, the refusal of a CALL in a script or one to be sent. Adds its
/// sentence, and the value found if that is known.
pub(crate) fn reject(report: &mut Report, refusal: Refusal, found: Option<&str>) {
    let name = refusal.name();
    let why = sentence(refusal);
    match found {
        Some(found) => report.fault(format!(in report.alloc; "{name}: {why}: {found}")),
        None => report.fault(format!(in report.alloc; "{name}: {why}")),
    }
}

/// Reports, for `check` or `call`, the refusal of a CALL in a script or one to be sent. Adds its
/// sentence and the value found, unless an allocation for that value failed.
pub(crate) fn reject_found(
    report: &mut Report,
    refusal: Refusal,
    found: Result<String, AllocError>,
) {
    match found {
        Ok(found) => reject(report, refusal, Some(found.as_str())),
        Err(AllocError) => report.fail(),
    }
}

/// Checks, for `check`, a point's StartTransaction in a line of a script or a journal. Reports a
/// connector that the point lacks.
fn check_start(report: &mut Report, text: &LineMessage<'_>, connector: u32) {
    let Some(point) = point_of(text) else {
        return;
    };
    let count = point.ceilings.len();
    if connector >= 1 && connector as usize <= count {
        return;
    }
    report.fault(format!(in report.alloc;
        "UnknownConnector: a transaction is started at connector {connector}; the point has connectors 1 to {count}"
    ));
}
