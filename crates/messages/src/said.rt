//! Reads a charge point's reply: whether it accepts, and the composite schedule that the point
//! follows.
ghost use Rattle.std.specs.Prelude.{◌≡◌, IfErr, IfOk, map};
ghost use Rattle.ocpp_scalars.specs.Reading.{ReadsUnless};
ghost use Rattle.ocpp_scalars.specs.declared.refusal.Refusal.{Refusal};
ghost use Rattle.ocppj_frame.specs.Field.{field_map};
ghost use Rattle.ocppj_frame.specs.Frame.{message_in};
ghost use Rattle.ocppj_frame.specs.Payload.{tree_at};
ghost use Rattle.messages.specs.CallFault.{is_memory};
ghost use Rattle.messages.specs.Fields.{text};
ghost use Rattle.messages.specs.declared.field_name.FieldName.{FieldName};
ghost use Rattle.messages.specs.Said.{composite_period, is_accepted, is_accepted_reply, or_unread, said_of, said_of_payload, schedule_said};

use crate::call_fault::CallFault;
use crate::field_name::FieldName::{ChargingSchedule, ConnectorId, ScheduleStart, Status};
use crate::fields::{instant, required_object, whole_from_zero};
use crate::profile_fields::read_schedule;
use meaning::{CompositePeriod, Said, SaidPeriods};
use ocpp_scalars::Refusal;
use ocppj_frame::{Field, Frame, Node, text_field};
use profile::Period;
use std::alloc::{AllocError, Global};

/// Returns whether a message is a reply that accepts the call: a CALLRESULT whose status is the
/// text `Accepted`.
pub fn is_accepted(frame: &Frame<'_>) -> bool
    ensures { result ≡ is_accepted_reply (message_in frame.now) }
{
    match frame {
        Frame::Reply { payload, .. } => has_accepted(payload.root()),
        Frame::Call { .. } | Frame::Fault { .. } | Frame::Other => false,
    }
}

/// Reads a reply to a GetCompositeSchedule (chapter 6, GetCompositeSchedule.conf). Returns
/// `Refused` if the message isn't a CALLRESULT or its status isn't `Accepted`, `Unread` if a field
/// is missing or malformed, and otherwise the schedule. The only error is `OutOfMemory`.
pub fn read_said(alloc: Global, frame: &Frame<'_>) -> Result<Said, Refusal>
    ensures said { IfOk result (λ said. said ≡ said_of (message_in frame.now)) }
    ensures memory { IfErr result (λ refusal. refusal ≡ Refusal.OutOfMemory) }
{
    match frame {
        Frame::Reply { payload, .. } => Ok(read_payload(alloc, payload.root())?),
        Frame::Call { .. } | Frame::Fault { .. } | Frame::Other => Ok(Said::Refused),
    }
}

/// Reads the payload of a charge point's reply to a GetCompositeSchedule call, for an audit: its
/// composite schedule, or `Refused` if the status isn't `Accepted`.
fn read_payload(alloc: Global, payload: Node<'_, '_>) -> Result<Said, AllocError>
    ensures { IfOk result (λ said. said ≡ said_of_payload (tree_at payload.entry)) }
{
    if has_accepted(payload) {
        read_accepted(alloc, payload)
    } else {
        Ok(Said::Refused)
    }
}

/// Returns whether the status in the payload of a charge point's reply to a call is `Accepted`.
#[tactic(auto, unfolding(crate::specs::Fields::text))]
fn has_accepted(payload: Node<'_, '_>) -> bool
    ensures { result ≡ is_accepted (text (tree_at payload.entry) FieldName.Status).field }
{
    is_accepted_status(text_field(payload, Status.text()))
}

/// Returns whether the status field of a charge point's reply to a call has the text `Accepted`.
fn is_accepted_status(status: Field<&str>) -> bool
    ensures { result ≡ is_accepted (field_map (λ text. text.now) status.entry) }
{
    match status {
        Field::Value(text) => text == "Accepted",
        Field::Absent | Field::WrongKind | Field::WrongValue => false,
    }
}

/// Reads a charge point's accepted reply to a GetCompositeSchedule call, for an audit. It is
/// `Unread` if a field is missing or malformed.
fn read_accepted(alloc: Global, payload: Node<'_, '_>) -> Result<Said, AllocError>
    ensures { IfOk result (λ said. said ≡ or_unread (schedule_said (tree_at payload.entry))) }
{
    match read_schedule_said(alloc, payload) {
        Ok(said) => Ok(said),
        // Says nothing about the reply, so the reply doesn't count as malformed.
        Err(CallFault::Refused(Refusal::OutOfMemory)) => Err(AllocError),
        Err(_) => Ok(Said::Unread),
    }
}

/// Reads the composite schedule in a charge point's accepted reply to a GetCompositeSchedule call,
/// or returns a fault of its fields.
#[tactic(auto, unfolding(crate::specs::Said::schedule_said))]
fn read_schedule_said(alloc: Global, payload: Node<'_, '_>) -> Result<Said, CallFault>
    ensures { ReadsUnless is_memory (λ said. said) result (schedule_said (tree_at payload.entry)) }
{
    // Not used, but checked as every field is: a malformed one makes the reply `Unread`.
    let _connector = whole_from_zero(payload, ConnectorId).optional()?;
    let start = instant(payload, ScheduleStart).required()?;
    let fields = required_object(payload, ChargingSchedule)?;
    let schedule = read_schedule(alloc, fields)?;
    let periods = composite_periods(alloc, schedule.periods.as_slice())?;
    Ok(Said::Schedule {
        start,
        duration: schedule.duration,
        unit: schedule.unit,
        periods: SaidPeriods::new(periods),
    })
}

/// Copies the starts and limits of the periods that were read from a charge point's reply to a
/// GetCompositeSchedule call, as the periods of its composite schedule.
fn composite_periods(alloc: Global, periods: &[Period]) -> Result<Vec<CompositePeriod>, AllocError>
    ensures { IfOk result (λ copies. copies.items ≡ map composite_period periods.now) }
{
    let mut copies = Vec::with_capacity(alloc, periods.len())?;
    for period in periods {
        // numberPhases has no part in a composite schedule here.
        copies.push(CompositePeriod {
            start: period.start,
            limit: period.limit,
        })?;
    }
    Ok(copies)
}
