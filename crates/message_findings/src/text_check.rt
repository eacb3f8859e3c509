//! Checks the message in a line of a script as a frame (OCPP-J 1.6, chapter 4).

use crate::audit_check::check_verdict;
use crate::call_check::{LineCall, check_call};
use crate::line_text::{LineMessage, Sender};
use crate::report::Report;
use crate::sentences::{call_sentence, line_sentence};
use findings::{Excerpt, first_break};
use messages::{ActionKind, CallFault, ReplyStatus};
use ocpp_scalars::character_count;
use ocppj_frame::{
    Field, Frame, FrameFault, MAX_ID_CHARACTERS, Node, ReadingMemory, read_frame, read_tree,
    text_field,
};
use replay::ScriptLineFault;
use std::alloc::{AllocError, Global};

/// Checks, for `check` or `call`, the message in a line of a script, or of an event in a journal,
/// as a frame of OCPP-J.
pub(crate) fn check_text(report: &mut Report, memory: &mut ReadingMemory, text: &LineMessage<'_>) {
    match read_frame(memory, text.frame) {
        Ok(frame) => return check_frame(report, text, frame),
        Err(FrameFault::Formation { id: _id }) => return check_malformed(report, text),
        Err(FrameFault::OutOfMemory) => return report.fail(),
        Err(FrameFault::Dropped) => {}
    }
    check_dropped(report, memory, text)
}

/// Checks, for `check` or `call`, a frame in a line of a script or a journal: a CALL by its action,
/// a reply by its status.
fn check_frame(report: &mut Report, text: &LineMessage<'_>, frame: Frame<'_>) {
    match frame {
        Frame::Call {
            action,
            payload,
            ..
        } => {
            let action = action.as_str();
            let payload = payload.root();
            check_call(
                report,
                &LineCall {
                    text,
                    action,
                    payload,
                },
            );
        }
        _ if text.sender == Sender::Hold => not_composite(report, text, "it is no CALL"),
        Frame::Reply { id, payload } => {
            let action = text.replies_to;
            let status = action.and_then(|action| unaccepted_status(action, payload.root()));
            check_reply(report, text, id.as_str(), status);
        }
        Frame::Fault { id } => check_reply(report, text, id.as_str(), Some("an error")),
        Frame::Other => report.warn_text(
            "the first element of the frame is none of 2 (CALL), 3 (CALLRESULT) and 4 (CALLERROR): the frame is discarded without an answer",
        ),
    }
}

/// Returns, for `check` of a script or a journal, the status in a point's reply to a call of this
/// action. None if the point did the call.
fn unaccepted_status<'memory>(
    action: ActionKind,
    payload: Node<'_, 'memory>,
) -> Option<&'memory str> {
    match text_field(payload, "status") {
        Field::Value(name) => match ReplyStatus::named(name) {
            Some(status) if status.is_done(action) => None,
            _ => Some(name),
        },
        // A reply without a status ends a remote start too.
        _ if action == ActionKind::RemoteStartTransaction => Some("no status"),
        _ => None,
    }
}

/// Checks, for `check`, a reply in a script or a journal. Warns of an operator's reply, and of a
/// point that doesn't accept the call in flight or isn't in step by an audit. Ignores a point's
/// reply that confirms no call.
fn check_reply(report: &mut Report, text: &LineMessage<'_>, id: &str, status: Option<&str>) {
    if text.sender != Sender::Point {
        return report.warn_text(
            "an operator's CALLRESULT and CALLERROR are ignored: an operator sends CALLs, which begin with [2,",
        );
    }
    if let Some(audit) = &text.audit {
        let Ok(call) = audit.call.to_string(report.alloc) else {
            return report.fail();
        };
        if call.as_str() == id {
            return check_verdict(report, audit);
        }
    }
    if let (true, Some(status)) = (text.confirms_call, status) {
        warn_not_accepted(report, text, id, status);
    }
}

/// Warns, for `check`, of a point in a script or a journal that doesn't accept the call in flight.
fn warn_not_accepted(report: &mut Report, text: &LineMessage<'_>, id: &str, status: &str) {
    let effect = if text.replies_to == Some(ActionKind::RemoteStartTransaction) {
        "it starts no transaction, and the remote start waits no more"
    } else {
        "the central system keeps what the call is of, so its schedules aren't what the point has"
    };
    let id = Excerpt(id);
    let status = Excerpt(status);
    report.warn(format!(in report.alloc;
        "the point answers call \"{id}\" with {status}: {effect}"
    ));
}

/// Reports, for `check`, a `hold` line of a script that is no request for a composite schedule.
pub(crate) fn not_composite(report: &mut Report, text: &LineMessage<'_>, why: &str) {
    let fault = ScriptLineFault::NotComposite;
    let rule = line_sentence(fault);
    let frame = Excerpt(text.frame);
    report.fault(format!(in report.alloc; "{fault}: {rule}, and {why}: {frame}"));
}

/// Reports, for `check` or `call`, a CALL in a line of a script whose action is no string or whose
/// payload is no object.
fn check_malformed(report: &mut Report, text: &LineMessage<'_>) {
    if text.sender == Sender::Hold {
        return not_composite(report, text, "it is malformed");
    }
    let sentence = call_sentence(CallFault::FormationViolation);
    let frame = Excerpt(text.frame);
    report.fault(format!(in report.alloc; "FormationViolation: {sentence}: {frame}"));
}

/// Reports, for `check`, a frame in a line of a script that is no message of OCPP-J, with the
/// reason.
fn check_dropped(report: &mut Report, memory: &mut ReadingMemory, text: &LineMessage<'_>) {
    let before = character_count(text.line).saturating_sub(character_count(text.frame));
    let Ok(why) = why_dropped(report.alloc, memory, text.frame, before) else {
        return report.fail();
    };
    if text.sender == Sender::Hold {
        return not_composite(report, text, why.as_str());
    }
    let frame = Excerpt(text.frame);
    report.warn(format!(in report.alloc;
        "this is no message and is discarded without an answer: {why}: {frame}"
    ));
}

/// Describes, for `check` or `call`, why a frame in a script, or one to be sent, is no message of
/// OCPP-J. `before` is the number of characters before it in its line.
pub(crate) fn why_dropped(
    alloc: Global,
    memory: &mut ReadingMemory,
    frame: &str,
    before: usize,
) -> Result<String, AllocError> {
    match read_tree(memory, frame) {
        Ok(tree) => String::from_str(alloc, why_no_message(tree.root())),
        Err(FrameFault::OutOfMemory) => Err(AllocError),
        Err(_) => broken_at(alloc, frame, before),
    }
}

/// Describes, for `check` of a script or `call`, where a frame of OCPP-J stops being JSON, with the
/// column in its line.
fn broken_at(alloc: Global, frame: &str, before: usize) -> Result<String, AllocError> {
    let fault = first_break(alloc, frame)?;
    let good = frame.get(..fault.offset).unwrap_or(frame);
    let column = before
        .saturating_add(character_count(good))
        .saturating_add(1);
    format!(in alloc; "its JSON breaks at column {column}, where {fault}")
}

/// Returns, for `check` of a script or `call`, why a JSON text is no message of OCPP-J, such as a
/// wrong first element or id.
fn why_no_message(root: Node<'_, '_>) -> &'static str {
    let Some(entries) = root.list() else {
        return "a frame is a list such as [2,\"id\",\"Action\",{}]";
    };
    let (Some(kind), Some(id)) = (entries.get(0), entries.get(1)) else {
        return "a frame is a list such as [2,\"id\",\"Action\",{}], and elements are missing";
    };
    if kind.number().is_none() {
        return "the first element of a frame is the number 2, 3 or 4";
    }
    match id.text() {
        None => "the second element of a frame, its id, is a string in double quotes",
        Some(id) if character_count(id) > MAX_ID_CHARACTERS => {
            "the id of a frame has at most 36 characters"
        }
        Some(_) => "the first element of a frame is the number 2, 3 or 4",
    }
}
