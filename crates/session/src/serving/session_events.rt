//! The events in messages, for the observer of a session.

use crate::outcome::Outcome;
use crate::serving::received::SessionEvent;
use crate::todo::Todo;
use messages::CallFault;
use site_core::{Reply, Step};
use std::alloc::Global;
use texts::rejection_in;

/// The subject of a message, as far as its step shows it.
#[derive(Clone, Copy, PartialEq, Eq)]
pub(crate) enum Subject {
    Boot,
    /// A reply to the call of this number, and whether it accepts the call.
    Reply { call: u64, accepted: bool },
    /// A CALL that is answered with this fault, and asks for no step.
    Faulty(CallFault),
    Other,
}

/// Returns the subject of a session's message, for its observer in the server: a BootNotification,
/// a reply, a CALL with a fault, or another.
pub(crate) fn subject_of(todo: &Todo, step: &Option<Step>) -> Subject {
    match step {
        Some(Step::Confirm { call, accepted, .. }) => Subject::Reply {
            call: *call,
            accepted: *accepted,
        },
        Some(Step::Boot { .. }) => Subject::Boot,
        None => match todo.fault() {
            Some(fault) => Subject::Faulty(fault),
            None => Subject::Other,
        },
        Some(_) => Subject::Other,
    }
}

/// Returns the event in a session's message whose step has its outcome, for the session's observer
/// in the server.
pub(crate) fn event_of(
    alloc: Global,
    frame: &str,
    subject: Subject,
    outcome: &Option<Outcome>,
) -> SessionEvent {
    match (subject, outcome) {
        (Subject::Boot, _) => SessionEvent::Boot,
        (Subject::Reply { call, accepted }, Some(Outcome::Made(Reply::Confirmed))) =>
            SessionEvent::Reply {
                call,
                rejection: if accepted {
                    None
                } else {
                    // Without memory the rejection has no reason, but is still reported.
                    Some(rejection_in(alloc, frame).unwrap_or_else(|_| String::new(alloc)))
                },
            },
        (_, Some(Outcome::Made(reply))) if adds_call(reply) => SessionEvent::Added,
        (Subject::Faulty(fault), _) => SessionEvent::Refused(fault),
        (Subject::Other, Some(Outcome::Refused(refusal))) => SessionEvent::Refused(
            CallFault::Refused(*refusal),
        ),
        _ => SessionEvent::Other,
    }
}

/// Returns whether a session's step with this reply adds a call to the point's outbox, for the
/// session's observer in the server.
fn adds_call(reply: &Reply) -> bool {
    matches!(
        reply,
        Reply::Accepted | Reply::Audited { .. } | Reply::Called(_)
    )
}
