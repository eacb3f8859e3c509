//! Finds refusals in a line's output that depend on the point's state, and clears without a match.

use crate::call_check::reject;
use crate::report::Report;
use findings::Finding;
use messages::{CallFault, Response};
use ocpp_scalars::Refusal;
use replay::PrintedLine;
use std::alloc::{AllocError, Global};

/// Returns whether the refusal of a message in a script depends on the point's state or the length
/// of a schedule. `check` or `call` then reports it by the answer alone.
// The check of a message by itself leaves these out, so that none is reported twice.
pub(crate) fn depends_on_state(refusal: Refusal) -> bool {
    matches!(
        refusal,
        Refusal::NoTransaction
            | Refusal::OtherTransaction
            | Refusal::TooManyProfiles
            | Refusal::OutboxFull
            | Refusal::AuditOpen
            | Refusal::ResultTooLong
            | Refusal::VersionsExhausted
            | Refusal::TransactionsExhausted
    )
}

/// Checks the output of the line of this number. Finds the refusals that depend on the point's
/// state, and clears that match nothing. `ScriptCheck` finds the rest in the line itself.
pub fn check_printed(
    alloc: Global,
    line: u64,
    printed: &[PrintedLine],
) -> Result<Vec<Finding>, AllocError> {
    let mut report = Report::new(alloc);
    report.go_to(line);
    for output in printed {
        if let PrintedLine::Answer { response, .. } = output {
            check_answer(&mut report, response);
        }
    }
    report.take_findings()
}

/// Checks, for `check` or `call`, an answer in the output of a script's line. Reports a refusal
/// that depends on the point's state, and a clear without a match.
fn check_answer(report: &mut Report, response: &Response) {
    match response {
        Response::Rejected(refusal) | Response::Error(CallFault::Refused(refusal)) => {
            if depends_on_state(*refusal) {
                reject(report, *refusal, None);
            }
        }
        Response::Unknown => report.warn_text(
            "this clears nothing: the point has no profile that matches its criteria",
        ),
        _ => {}
    }
}
