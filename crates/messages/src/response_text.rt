//! Writes the texts of answers, byte for byte.
ghost use Rattle.std.specs.Prelude.{◌≡◌, IfOk, codes, string_bytes};
ghost use Rattle.ocpp_scalars.specs.Appending.{Appends};
ghost use Rattle.ocppj_frame.specs.Write.{call_result_text};
ghost use Rattle.messages.specs.ByCases.ObjectText.{first_field_text};
ghost use Rattle.messages.specs.ObjectText.{time_text};
ghost use Rattle.messages.specs.ResponseText.{boot_notification_text, composite_period_text, composite_schedule_text, composite_text, heartbeat_text, is_out_of_memory, point_status_text, refusal_text, rejected_text, response_text, start_transaction_text};

use crate::list_text::{ListItem, push_list};
use crate::names::unit_name;
use crate::response::{PointStatus, Response, ScheduleResponse};
use meaning::{Composite, CompositePeriod};
use ocpp_scalars::{Instant, Refusal, push_instant, push_integer, push_tenths};
use ocppj_frame::{push_error, push_frame_end, push_result_head};
use profile::Unit;
use std::alloc::{AllocError, Global};

/// Room for an answer without periods, in bytes.
// This and `PERIOD_ROOM` are estimates: the text of a longer answer grows.
const ROOM: usize = 256;

/// Room for a period, in bytes.
const PERIOD_ROOM: usize = 40;

/// Returns the message that answers the CALL of this id. Its keys are in a fixed order, without
/// blanks.
pub fn write_response(alloc: Global, id: &str, response: &Response) -> Result<String, AllocError>
    ensures { IfOk result (λ s. string_bytes s ≡ response_text id.now response.now) }
{
    // Room from the start, so that the text of a long schedule isn't copied as it grows.
    let mut out = String::with_capacity(alloc, room(response))?;
    push_response(&mut out, id, response)?;
    Ok(out)
}

/// Estimates the length in bytes of the answer to a CALL, the central system's or a simulated
/// point's. So the text of a long schedule isn't copied as it grows.
fn room(response: &Response) -> usize {
    match response {
        Response::Schedule(response) => {
            let periods = response.schedule.periods().len();
            periods.saturating_mul(PERIOD_ROOM).saturating_add(ROOM)
        }
        _ => ROOM,
    }
}

/// Appends the message that answers the CALL of this id.
#[tactic(auto, unfolding(crate::specs::ObjectText::fields_text, crate::specs::ObjectText::object_text))]
pub fn push_response(out: &mut String, id: &str, response: &Response) -> Result<(), AllocError>
    ensures { Appends result (string_bytes out.old) (string_bytes out.new)
        (response_text id.now response.now) }
{
    match response {
        Response::Accepted => push_result(out, id, r#"{"status":"Accepted"}"#),
        Response::Rejected(refusal) => push_rejected(out, id, *refusal),
        Response::Unknown => push_result(out, id, r#"{"status":"Unknown"}"#),
        Response::Schedule(response) => push_schedule_result(out, id, response),
        Response::PointStatus(status) => push_point_status_result(out, id, *status),
        Response::BootNotification { current_time } => {
            push_boot_notification(out, id, *current_time)
        }
        Response::Heartbeat { current_time } => push_heartbeat(out, id, *current_time),
        // No list of idTags is kept, so each is accepted.
        Response::Authorize => push_result(out, id, r#"{"idTagInfo":{"status":"Accepted"}}"#),
        Response::StartTransaction { transaction } => {
            push_start_transaction(out, id, *transaction)
        }
        Response::Empty => push_result(out, id, "{}"),
        Response::UnknownVendorId => push_result(out, id, r#"{"status":"UnknownVendorId"}"#),
        Response::Error(fault) => push_error(out, id, fault.code(), fault.description()),
    }
}

/// Appends the CALLRESULT with which the central system or a simulated point answers the CALL of
/// this id, with this payload.
fn push_result(out: &mut String, id: &str, payload: &str) -> Result<(), AllocError>
    ensures { Appends result (string_bytes out.old) (string_bytes out.new)
        (call_result_text id.now payload.now) }
{
    push_result_head(out, id)?;
    out.push_str(payload)?;
    push_frame_end(out)
}

/// Appends the answer of the central system or a simulated point to a CALL whose install or request
/// is refused, such as a SetChargingProfile. `OutOfMemory` is a CALLERROR, as for every action.
fn push_rejected(out: &mut String, id: &str, refusal: Refusal) -> Result<(), AllocError>
    ensures { Appends result (string_bytes out.old) (string_bytes out.new)
        (refusal_text id.now refusal) }
{
    if is_out_of_memory(refusal) {
        return push_error(out, id, "InternalError", "OutOfMemory");
    }
    push_result_head(out, id)?;
    push_rejection(out, refusal)?;
    push_frame_end(out)
}

/// Returns whether a CALL is refused for lack of memory, and so answered by a CALLERROR of the
/// central system or a simulated point.
fn is_out_of_memory(refusal: Refusal) -> bool
    ensures { result ≡ is_out_of_memory refusal }
{
    matches!(refusal, Refusal::OutOfMemory)
}

/// Appends the payload of a CALLRESULT with which the central system or a simulated point rejects a
/// CALL, with the refusal's name as the reason.
fn push_rejection(out: &mut String, refusal: Refusal) -> Result<(), AllocError>
    ensures { Appends result (string_bytes out.old) (string_bytes out.new) (rejected_text refusal) }
{
    out.push_str(r#"{"status":"Rejected","reason":""#)?;
    out.push_str(refusal.name())?;
    out.push_str(r#""}"#)?;
    Ok(())
}

/// Appends the CALLRESULT that answers a charge point's BootNotification, with the present time and
/// the interval.
fn push_boot_notification(
    out: &mut String,
    id: &str,
    current_time: Instant,
) -> Result<(), AllocError>
    ensures { Appends result (string_bytes out.old) (string_bytes out.new)
        (call_result_text id.now (boot_notification_text current_time)) }
{
    push_result_head(out, id)?;
    push_current_time(out, current_time)?;
    out.push_str(r#","interval":300,"status":"Accepted"}"#)?;
    push_frame_end(out)
}

/// Appends the CALLRESULT that answers a charge point's Heartbeat, with the present time.
fn push_heartbeat(out: &mut String, id: &str, current_time: Instant) -> Result<(), AllocError>
    ensures { Appends result (string_bytes out.old) (string_bytes out.new)
        (call_result_text id.now (heartbeat_text current_time)) }
{
    push_result_head(out, id)?;
    push_current_time(out, current_time)?;
    out.push_str("}")?;
    push_frame_end(out)
}

/// Appends the beginning of the payload that answers a charge point's BootNotification or
/// Heartbeat: its first field, currentTime.
fn push_current_time(out: &mut String, current_time: Instant) -> Result<(), AllocError>
    ensures { Appends result (string_bytes out.old) (string_bytes out.new)
        (first_field_text (codes "currentTime") (time_text current_time)) }
{
    out.push_str(r#"{"currentTime":""#)?;
    push_instant(out, current_time)?;
    out.push_str(r#"""#)?;
    Ok(())
}

/// Appends the CALLRESULT that answers a charge point's StartTransaction, with the transaction's
/// number.
fn push_start_transaction(out: &mut String, id: &str, transaction: i32) -> Result<(), AllocError>
    ensures { Appends result (string_bytes out.old) (string_bytes out.new)
        (call_result_text id.now (start_transaction_text transaction)) }
{
    push_result_head(out, id)?;
    push_transaction(out, transaction)?;
    push_frame_end(out)
}

/// Appends the payload StartTransaction.conf (OCPP 1.6, chapter 6) of the answer to a charge point,
/// with the transaction's number.
fn push_transaction(out: &mut String, transaction: i32) -> Result<(), AllocError>
    ensures { Appends result (string_bytes out.old) (string_bytes out.new)
        (start_transaction_text transaction) }
{
    out.push_str(r#"{"idTagInfo":{"status":"Accepted"},"transactionId":"#)?;
    push_integer(out, transaction)?;
    out.push_str("}")?;
    Ok(())
}

/// Appends the CALLRESULT that answers a GetCompositeSchedule, with the composite schedule: to an
/// operator, or a simulated point's to the central system.
fn push_schedule_result(
    out: &mut String,
    id: &str,
    response: &ScheduleResponse,
) -> Result<(), AllocError>
    ensures { Appends result (string_bytes out.old) (string_bytes out.new)
        (call_result_text id.now (composite_text response.now)) }
{
    push_result_head(out, id)?;
    push_composite(out, response)?;
    push_frame_end(out)
}

/// Appends the payload GetCompositeSchedule.conf (OCPP 1.6, chapter 6) of an answer, to an operator
/// or a simulated point's, with the composite schedule.
fn push_composite(out: &mut String, response: &ScheduleResponse) -> Result<(), AllocError>
    ensures { Appends result (string_bytes out.old) (string_bytes out.new)
        (composite_text response.now) }
{
    out.push_str(r#"{"status":"Accepted","connectorId":"#)?;
    push_integer(out, response.connector)?;
    out.push_str(r#","scheduleStart":""#)?;
    push_instant(out, response.start)?;
    out.push_str(r#"","chargingSchedule":"#)?;
    push_composite_schedule(out, response.unit, &response.schedule)?;
    out.push_str("}")?;
    Ok(())
}

/// Appends a composite schedule (OCPP 1.6, chapter 7, ChargingSchedule) to the payload of
/// GetCompositeSchedule.conf, the answer to an operator or a simulated point's.
fn push_composite_schedule(
    out: &mut String,
    unit: Unit,
    schedule: &Composite,
) -> Result<(), AllocError>
    ensures { Appends result (string_bytes out.old) (string_bytes out.new)
        (composite_schedule_text unit schedule.now) }
{
    out.push_str(r#"{"duration":"#)?;
    push_integer(out, schedule.duration())?;
    out.push_str(r#","chargingRateUnit":""#)?;
    out.push_str(unit_name(unit))?;
    out.push_str(r#"","chargingSchedulePeriod":"#)?;
    push_list(out, schedule.periods())?;
    out.push_str("}")?;
    Ok(())
}

impl ListItem for CompositePeriod {
    ghost text = { composite_period_text };

    fn push_text(&self, out: &mut String) -> Result<(), AllocError> {
        push_composite_period(out, self)
    }
}

/// Appends a ChargingSchedulePeriod (OCPP 1.6, chapter 7) to the composite schedule in
/// GetCompositeSchedule.conf, the answer to an operator or a simulated point's.
fn push_composite_period(out: &mut String, period: &CompositePeriod) -> Result<(), AllocError>
    ensures { Appends result (string_bytes out.old) (string_bytes out.new)
        (composite_period_text period.now) }
{
    out.push_str(r#"{"startPeriod":"#)?;
    push_integer(out, period.start)?;
    out.push_str(r#","limit":"#)?;
    push_tenths(out, period.limit)?;
    out.push_str("}")?;
    Ok(())
}

/// Appends the bytes of the CALLRESULT that answers an operator's PointStatus, an action that isn't
/// in OCPP.
fn push_point_status_result(
    out: &mut String,
    id: &str,
    status: PointStatus,
) -> Result<(), AllocError>
    ensures { Appends result (string_bytes out.old) (string_bytes out.new)
        (call_result_text id.now (point_status_text status)) }
{
    push_result_head(out, id)?;
    push_point_status(out, status)?;
    push_frame_end(out)
}

/// Appends the payload that answers an operator's PointStatus: the version of the site's book, the
/// number of unconfirmed calls, and the last GetCompositeSchedule audit's outcome.
fn push_point_status(out: &mut String, status: PointStatus) -> Result<(), AllocError>
    ensures { Appends result (string_bytes out.old) (string_bytes out.new)
        (point_status_text status) }
{
    out.push_str(r#"{"status":"Accepted","version":"#)?;
    push_integer(out, status.version)?;
    out.push_str(r#","outbox":"#)?;
    push_integer(out, status.outbox)?;
    out.push_str(r#","audit":""#)?;
    out.push_str(status.audit.name())?;
    out.push_str(r#""}"#)?;
    Ok(())
}
