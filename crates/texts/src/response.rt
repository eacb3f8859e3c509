//! The answer to a CALL whose step was made or refused.

ghost use Rattle.std.specs.Prelude.{◌≡◌};
ghost use Rattle.texts.specs.Response.{refused_response, schedule_response, reply_response, response_of};

use meaning::{Ask, Composite};
use messages::{ActionKind, CallFault, Response, ScheduleResponse};
use ocpp_scalars::Refusal;
use profile::Unit;
use site_core::Reply;

/// Returns the response to a CALL of this kind, from the outcome of its step on a site of this
/// unit. Returns `None` if there is no response: a request that is taken or compiled has no answer
/// yet.
pub fn response_of(
    unit: Unit,
    kind: ActionKind,
    outcome: Result<Reply, Refusal>,
) -> Option<Response>
    ensures { result ≡ response_of unit kind outcome }
{
    match outcome {
        Ok(reply) => reply_response(unit, kind, reply),
        Err(refusal) => Some(refused_response(kind, refusal)),
    }
}

/// Returns the response that a step's reply is, if it is one.
pub fn reply_response(unit: Unit, kind: ActionKind, reply: Reply) -> Option<Response>
    ensures { result ≡ reply_response unit kind reply }
{
    match reply {
        Reply::Accepted | Reply::Audited { .. } | Reply::Called(_) => Some(Response::Accepted),
        Reply::Unknown => Some(Response::Unknown),
        Reply::Started(transaction) => Some(Response::StartTransaction { transaction }),
        Reply::Repeated(transaction) => Some(Response::StartTransaction { transaction }),
        Reply::Ended | Reply::NoSuch => Some(Response::Empty),
        Reply::Answered { ask, answer, .. } => Some(schedule_response(unit, kind, &ask, answer)),
        Reply::Status(status) => Some(Response::PointStatus(status)),
        Reply::Taken { .. }
        | Reply::Compiled
        | Reply::NotYet
        | Reply::Finished
        | Reply::Attached(_)
        | Reply::Sent(_)
        | Reply::Nothing
        | Reply::Confirmed
        | Reply::LinkLost
        | Reply::VerdictKept
        | Reply::Booted(_) => None,
    }
}

/// Returns the response to a request for a composite schedule.
pub fn schedule_response(
    unit: Unit,
    kind: ActionKind,
    ask: &Ask,
    answer: Result<Composite, Refusal>,
) -> Response
    ensures { result ≡ schedule_response unit kind ask.now answer }
{
    match answer {
        Ok(schedule) => Response::Schedule(ScheduleResponse {
            connector: ask.connector,
            start: ask.start,
            unit,
            schedule,
        }),
        Err(refusal) => refused_response(kind, refusal),
    }
}

/// Returns the response to a refused CALL: the .conf of a SetChargingProfile, GetCompositeSchedule,
/// RemoteStartTransaction, AuditPoint or PointStatus, and a CALLERROR of any other action.
pub fn refused_response(kind: ActionKind, refusal: Refusal) -> Response
    ensures { result ≡ refused_response kind refusal }
{
    match kind {
        ActionKind::SetChargingProfile
        | ActionKind::GetCompositeSchedule
        | ActionKind::RemoteStartTransaction
        | ActionKind::AuditPoint
        | ActionKind::PointStatus => Response::Rejected(refusal),
        // ClearChargingProfile.conf, for one, has no status for a refusal.
        _ => Response::Error(CallFault::Refused(refusal)),
    }
}
