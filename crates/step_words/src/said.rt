//! The outcome of a step, in words.

use meaning::Composite;
use messages::PointStatus;
use ocpp_scalars::Refusal;
use site_core::Reply;

/// The outcome of a step: its name, and its number if it has one. That is the number of a
/// transaction, a request, a link or a call, or the tenths of an answer's first limit. A refusal
/// that is returned as an answer has the number 1. For a status it is the number of waiting calls
/// plus 1,000 times the version, and the name is the outcome of the audit.
pub type Said = (&'static str, Option<u64>);

/// Returns the outcome of a step that is made.
pub fn said_of(reply: &Reply) -> Said {
    match reply {
        Reply::Accepted => ("Accepted", None),
        Reply::Unknown => ("Unknown", None),
        Reply::Started(number) => ("Started", Some(u64::from(number.unsigned_abs()))),
        Reply::Repeated(number) => ("Repeated", Some(u64::from(number.unsigned_abs()))),
        Reply::Ended => ("Ended", None),
        Reply::NoSuch => ("NoSuch", None),
        Reply::Taken { number, .. } => ("Taken", Some(*number)),
        Reply::Compiled => ("Compiled", None),
        Reply::Answered { answer, .. } => said_of_answer(answer),
        Reply::NotYet => ("NotYet", None),
        Reply::Finished => ("Finished", None),
        Reply::Attached(link) => ("Attached", Some(*link)),
        Reply::Sent(call) => ("Sent", Some(call.number)),
        Reply::Nothing => ("Nothing", None),
        Reply::Confirmed => ("Confirmed", None),
        Reply::LinkLost => ("LinkLost", None),
        Reply::Audited { call, .. } => ("Audited", Some(*call)),
        Reply::VerdictKept => ("VerdictKept", None),
        Reply::Status(status) => said_of_status(*status),
        Reply::Called(call) => ("Called", Some(*call)),
        Reply::Booted(first) => ("Booted", Some(*first)),
    }
}

/// Returns the outcome of an answer to a request for a schedule, in the tests' tables.
pub(crate) fn said_of_answer(answer: &Result<Composite, Refusal>) -> Said {
    match answer {
        Ok(schedule) => {
            let first = schedule.periods().first();
            ("limit", first.map(|period| u64::from(period.limit)))
        }
        Err(refusal) => (refusal.name(), Some(1)),
    }
}

/// Returns the outcome of a step that asks for a point's status, in the tests' tables. That is its
/// audit's outcome, and 1,000 times the version plus the waiting calls.
fn said_of_status(status: PointStatus) -> Said {
    let thousands = status.version.wrapping_mul(1_000);
    (
        status.audit.name(),
        Some(thousands.wrapping_add(status.outbox as u64)),
    )
}
