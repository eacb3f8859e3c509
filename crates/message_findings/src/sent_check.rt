//! Checks an operator's message by itself, before it is sent.

ghost use Rattle.std.specs.Prelude.{◌≡◌, ◌↔◌, IfOk, IsSome, None};
ghost use Rattle.ocppj_frame.specs.Read.{tree_of_text};

use crate::call_check::{has_fields, refuse_action, warn_of_clear, warn_repeated, warn_unknown};
use crate::field_fault::field_fault_message;
use crate::payload_fields::payload_fields;
use crate::profile_check::check_sent_profile;
use crate::remote_start_check::check_sent_start;
use crate::report::Report;
use crate::text_check::why_dropped;
use findings::{Finding, break_of, place_in_text};
use messages::{Action, ActionKind, CallFault, Side, read_fields};
use ocpp_scalars::Refusal;
use ocppj_frame::{Frame, FrameFault, Node, ReadingMemory, read_frame};
use profile_findings::has_no_criterion;
use std::alloc::{AllocError, Global};

/// The result of the check of an operator's message.
#[derive(Drop)]
pub struct SentCheck {
    /// The reason why it is no CALL, if it isn't one.
    pub no_call: Option<String>,
    /// Faults of its action, its fields and its profile by themselves, and warnings of fields
    /// without an effect, duplicate fields, and a clear that clears more than it seems to.
    pub findings: Vec<Finding>,
    /// Whether it is a ClearChargingProfile that would clear everything by mistake: its payload has
    /// fields, and none of them is a criterion, since they are unknown or null.
    pub clears_by_mistake: bool,
}

/// Checks an operator's message by itself, without the site or the point's state. A message that is
/// no CALL has no findings.
pub fn check_sent(alloc: Global, text: &str) -> Result<SentCheck, AllocError> {
    let mut memory = ReadingMemory::new(alloc);
    match check_message(alloc, &mut memory, text)? {
        Some(checked) => Ok(checked),
        None => {
            let why = why_dropped(alloc, &mut memory, text, 0)?;
            Ok(nothing_said(alloc, Some(why)))
        }
    }
}

/// Checks an operator's message by itself before `call` sends it. Returns none if the text is no
/// message of OCPP-J.
fn check_message(
    alloc: Global,
    memory: &mut ReadingMemory,
    text: &str,
) -> Result<Option<SentCheck>, AllocError> {
    match read_frame(memory, text) {
        Ok(frame) => Ok(Some(check_frame(alloc, text, frame)?)),
        // The central system answers this with an error, so it isn't held back as no CALL.
        Err(FrameFault::Formation { id: _id }) => Ok(Some(nothing_said(alloc, None))),
        Err(FrameFault::Dropped) => Ok(None),
        Err(FrameFault::OutOfMemory) => Err(AllocError),
    }
}

/// Checks the frame of an operator's message before `call` sends it, which has to be a CALL of an
/// operator's action.
fn check_frame(alloc: Global, text: &str, frame: Frame<'_>) -> Result<SentCheck, AllocError> {
    match frame {
        Frame::Call {
            action,
            payload,
            ..
        } => match ActionKind::of_sender(Side::Operator, action.as_str()) {
            Some(kind) => check_fields(alloc, text, kind, payload.root()),
            None => no_operators_action(alloc, action.as_str()),
        },
        _ => {
            let why = "an operator sends CALLs, which begin with [2,";
            Ok(nothing_said(alloc, Some(String::from_str(alloc, why)?)))
        }
    }
}

/// Describes the break of a message that isn't JSON: the line, the column, and the character there.
pub fn json_break(alloc: Global, text: &str) -> Result<Option<String>, AllocError>
    ensures { IfOk result (λ message. IsSome message ↔ (tree_of_text text.now ≡ None)) }
{
    let Some(fault) = break_of(alloc, text)? else {
        return Ok(None);
    };
    let place = place_in_text(text, fault.offset);
    Ok(Some(format!(in alloc; "{place}: the JSON breaks where {fault}")?))
}

/// Returns the findings of `call` in a message before it sends it: a CALL with an action that an
/// operator doesn't have.
fn no_operators_action(alloc: Global, name: &str) -> Result<SentCheck, AllocError> {
    let mut report = Report::new(alloc);
    refuse_action(&mut report, Side::Operator, name);
    Ok(SentCheck {
        no_call: None,
        findings: report.take_findings()?,
        clears_by_mistake: false,
    })
}

/// Returns the result of the check of an operator's message before `call` sends it: no findings,
/// and the reason why it is no CALL if it isn't one.
fn nothing_said(alloc: Global, no_call: Option<String>) -> SentCheck {
    SentCheck {
        no_call,
        findings: Vec::new(alloc),
        clears_by_mistake: false,
    }
}

/// Checks the fields of an operator's CALL, and then the profile in it, before `call` sends it.
fn check_fields(
    alloc: Global,
    text: &str,
    kind: ActionKind,
    payload: Node<'_, '_>,
) -> Result<SentCheck, AllocError> {
    let fields = payload_fields(alloc, text, kind)?;
    let mut report = Report::new(alloc);
    warn_repeated(&mut report, &fields);
    let mut clears_by_mistake = false;
    match read_fields(alloc, kind, payload) {
        Ok(Action::ClearChargingProfile(criteria)) => {
            warn_of_clear(&mut report, payload, &criteria, &fields);
            // An empty payload isn't a mistake here: OCPP lets it clear everything, and nothing is
            // misspelled.
            clears_by_mistake = has_no_criterion(&criteria) && has_fields(payload, &fields);
        }
        Ok(action) => {
            warn_unknown(&mut report, kind, &fields);
            check_action(&mut report, action);
        }
        Err(CallFault::Refused(Refusal::OutOfMemory)) => return Err(AllocError),
        Err(fault) => {
            report.fault(field_fault_message(alloc, payload, kind, fault));
            warn_unknown(&mut report, kind, &fields);
        }
    }
    Ok(SentCheck {
        no_call: None,
        findings: report.take_findings()?,
        clears_by_mistake,
    })
}

/// Checks the profile of an operator's CALL, whose fields are valid, before `call` sends it.
fn check_action(report: &mut Report, action: Action) {
    match action {
        Action::SetChargingProfile {
            connector: _connector,
            profile,
        } => check_sent_profile(report, profile),
        Action::RemoteStartTransaction(start) => check_sent_start(report, start),
        _action => {}
    }
}
