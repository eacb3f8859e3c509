//! The answer to a CALL of a session whose step has its outcome.

ghost use Rattle.std.specs.Prelude.{◌≡◌};
ghost use Rattle.texts.specs.Response.{response_of};
ghost use Rattle.session.specs.Outcome.{result_of};

use crate::outcome::Outcome;
use messages::{ActionKind, Response};
use profile::Unit;
use texts::{refused_response, reply_response, schedule_response};

/// Returns the answer that a session sends to a client's CALL of this kind, by the outcome of its
/// step on the book.
pub(crate) fn response_of_outcome(
    unit: Unit,
    kind: ActionKind,
    outcome: Outcome,
) -> Option<Response>
    ensures { result ≡ response_of unit kind (result_of outcome) }
{
    match outcome {
        Outcome::Made(reply) => reply_response(unit, kind, reply),
        Outcome::Answered(answer) => {
            let ask = *answer.ask();
            Some(schedule_response(unit, kind, &ask, answer.into_answer()))
        }
        Outcome::Refused(refusal) => Some(refused_response(kind, refusal)),
    }
}
