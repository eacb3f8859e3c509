//! Reads the action of a CALL from its name and payload: the fields of each action, in the order of
//! their checks.
ghost use Rattle.std.specs.Prelude.{◌≡◌, Some};
ghost use Rattle.ocppj_frame.specs.Frame.{message_in};
ghost use Rattle.ocppj_frame.specs.Payload.{tree_at};
ghost use Rattle.messages.specs.Action.{action_answered, action_in, action_of_kind, kind_asked, NeedsNoMemory};
ghost use Rattle.messages.specs.Action.{set_charging_profile_of, clear_charging_profile_of, get_composite_schedule_of, remote_start_of, audit_point_of, start_transaction_of, stop_transaction_of, id_tag_of};
ghost use Rattle.ocpp_scalars.specs.Reading.{ReadsUnless};
ghost use Rattle.messages.specs.CallFault.{is_memory};

use crate::action_kind::ActionKind;
use crate::call_fault::CallFault;
use crate::field_name::FieldName::{
    self, ChargingProfile, ChargingProfilePurpose, ChargingRateUnit, ConnectorId,
    CsChargingProfiles, Duration, Id, MeterStart, StackLevel, Timestamp, TransactionId,
};
use crate::fields::{
    instant, one_name_of, optional_object, required_object, required_text, whole, whole_from_zero,
};
use crate::fixed_answer::FixedAnswer;
use crate::profile_fields::{read_optional_profile, read_profile};
use ocpp_scalars::{IdTag, Instant};
use ocppj_frame::{Frame, Node};
use profile::{Criteria, ProfileParts, Unit};
use std::alloc::Global;

/// The action of a message, with its fields (chapters 4, 5 and 6).
#[derive(Drop)]
pub enum Action {
    SetChargingProfile {
        connector: u32,
        profile: ProfileParts,
    },
    ClearChargingProfile(Criteria),
    GetCompositeSchedule(ScheduleRequest),
    RemoteStartTransaction(RemoteStartTransaction),
    /// An audit of a connector over a duration, in seconds.
    AuditPoint {
        connector: u32,
        duration: u32,
    },
    PointStatus,
    StartTransaction(StartTransaction),
    /// The transaction's number.
    StopTransaction(i32),
    /// An action whose fields aren't read, with its answer.
    Answered(FixedAnswer),
    /// The message isn't a CALL, and has no action.
    NotACall,
}

/// The fields of a GetCompositeSchedule (chapter 6, GetCompositeSchedule.req).
#[derive(Drop)]
pub struct ScheduleRequest {
    pub connector: u32,
    /// The duration, in seconds.
    pub duration: u32,
    /// chargingRateUnit: the unit requested for the schedule.
    pub unit: Option<Unit>,
}

/// The fields of a RemoteStartTransaction (chapter 6, RemoteStartTransaction.req).
#[derive(Drop)]
pub struct RemoteStartTransaction {
    pub connector: u32,
    pub id_tag: IdTag,
    /// chargingProfile, with its transactionId if it has one.
    pub profile: Option<ProfileParts>,
}

/// The fields of a StartTransaction that this system uses (chapter 6, StartTransaction.req).
#[derive(Drop)]
pub struct StartTransaction {
    pub connector: u32,
    pub id_tag: IdTag,
    /// meterStart, in watt-hours.
    pub meter_start: i32,
    /// The instant at which the transaction began.
    pub timestamp: Instant,
}

/// Reads the action of a message, or returns the first fault of its CALL: `NotImplemented` for an
/// unknown action, otherwise that of [`read_fields`]. The caller checks first that the action's
/// side ([`ActionKind::side`]) is that of the sender.
pub fn read_action(alloc: Global, frame: &Frame<'_>) -> Result<Action, CallFault>
    ensures value { ReadsUnless is_memory (λ action. action) result
        (action_in (message_in frame.now)) }
    ensures exact { NeedsNoMemory (kind_asked (message_in frame.now))
        → result ≡ action_in (message_in frame.now) }
{
    let Frame::Call {
        action,
        payload,
        ..
    } = frame
    else {
        return Ok(Action::NotACall);
    };
    match ActionKind::named(action.as_str()) {
        Some(kind) => read_fields(alloc, kind, payload.root()),
        None => Err(CallFault::NotImplemented),
    }
}

/// Reads the fields of an action from the payload of its CALL, or returns the first fault in the
/// order of the checks. Only a SetChargingProfile, a RemoteStartTransaction or a StartTransaction
/// allocates memory.
pub fn read_fields(
    alloc: Global,
    kind: ActionKind,
    payload: Node<'_, '_>,
) -> Result<Action, CallFault>
    ensures value { ReadsUnless is_memory (λ action. action) result
        (action_of_kind kind (tree_at payload.entry)) }
    ensures exact { NeedsNoMemory (Some kind)
        → result ≡ action_of_kind kind (tree_at payload.entry) }
{
    match kind {
        ActionKind::SetChargingProfile => read_set_charging_profile(alloc, payload),
        ActionKind::ClearChargingProfile => read_clear_charging_profile(payload),
        ActionKind::GetCompositeSchedule => read_get_composite_schedule(payload),
        ActionKind::RemoteStartTransaction => read_remote_start(alloc, payload),
        ActionKind::AuditPoint => read_audit_point(payload),
        ActionKind::PointStatus => Ok(Action::PointStatus),
        ActionKind::StartTransaction => read_start_transaction(alloc, payload),
        ActionKind::StopTransaction => read_stop_transaction(payload),
        _ => answered(kind.fixed_answer()),
    }
}

/// Returns the action of a CALL whose fields the central system doesn't read, such as Heartbeat,
/// with its fixed answer.
fn answered(answer: Option<FixedAnswer>) -> Result<Action, CallFault>
    ensures { result ≡ action_answered answer }
{
    // Never `None` here: by the law `first_faults` an action has fields or a fixed answer.
    answer
        .map(Action::Answered)
        .ok_or(CallFault::NotImplemented)
}

// ---- the fields of operators' actions

/// Reads SetChargingProfile.req (OCPP 1.6, chapter 6) from the payload of a CALL, or returns its
/// first fault. The CALL is an operator's to the central system, or that system's to a simulated
/// point.
#[tactic(auto, unfolding(crate::specs::Action::set_charging_profile_of))]
fn read_set_charging_profile(alloc: Global, payload: Node<'_, '_>) -> Result<Action, CallFault>
    ensures { ReadsUnless is_memory (λ action. action) result
        (set_charging_profile_of (tree_at payload.entry)) }
{
    let connector = whole_from_zero(payload, ConnectorId).required()?;
    let fields = required_object(payload, CsChargingProfiles)?;
    let profile = read_profile(alloc, fields)?;
    Ok(Action::SetChargingProfile { connector, profile })
}

/// Reads ClearChargingProfile.req (OCPP 1.6, chapter 6) from the payload of a CALL, or returns its
/// first fault. The CALL is an operator's to the central system, or that system's to a simulated
/// point.
#[tactic(auto, unfolding(crate::specs::Action::clear_charging_profile_of))]
fn read_clear_charging_profile(payload: Node<'_, '_>) -> Result<Action, CallFault>
    ensures { result ≡ clear_charging_profile_of (tree_at payload.entry) }
{
    let id = whole(payload, Id).optional()?;
    let connector = whole_from_zero(payload, ConnectorId).optional()?;
    let purpose = one_name_of(payload, ChargingProfilePurpose).optional()?;
    let stack_level = whole_from_zero(payload, StackLevel).optional()?;
    Ok(Action::ClearChargingProfile(Criteria {
        id,
        connector,
        purpose,
        stack_level,
    }))
}

/// Reads GetCompositeSchedule.req (OCPP 1.6, chapter 6) from the payload of a CALL, or returns its
/// first fault. The CALL is an operator's to the central system, or that system's to a simulated
/// point.
#[tactic(auto, unfolding(crate::specs::Action::get_composite_schedule_of))]
fn read_get_composite_schedule(payload: Node<'_, '_>) -> Result<Action, CallFault>
    ensures { result ≡ get_composite_schedule_of (tree_at payload.entry) }
{
    let connector = whole_from_zero(payload, ConnectorId).required()?;
    let duration = whole_from_zero(payload, Duration).required()?;
    let unit = one_name_of(payload, ChargingRateUnit).optional()?;
    Ok(Action::GetCompositeSchedule(ScheduleRequest {
        connector,
        duration,
        unit,
    }))
}

/// Reads RemoteStartTransaction.req (OCPP 1.6, chapter 6) from the payload of a CALL, or returns
/// its first fault. The CALL is an operator's to the central system, or that system's to a
/// simulated point.
#[tactic(auto, unfolding(crate::specs::Action::remote_start_of))]
fn read_remote_start(alloc: Global, payload: Node<'_, '_>) -> Result<Action, CallFault>
    ensures { ReadsUnless is_memory (λ action. action) result
        (remote_start_of (tree_at payload.entry)) }
{
    let connector = whole_from_zero(payload, ConnectorId).required()?;
    let id_tag = read_id_tag(alloc, payload)?;
    let fields = optional_object(payload, ChargingProfile)?;
    let profile = read_optional_profile(alloc, fields)?;
    Ok(Action::RemoteStartTransaction(RemoteStartTransaction {
        connector,
        id_tag,
        profile,
    }))
}

/// Reads AuditPoint, our own action to compare a point's composite schedule, from the payload of an
/// operator's CALL to the central system, or returns its first fault.
#[tactic(auto, unfolding(crate::specs::Action::audit_point_of))]
fn read_audit_point(payload: Node<'_, '_>) -> Result<Action, CallFault>
    ensures { result ≡ audit_point_of (tree_at payload.entry) }
{
    let connector = whole_from_zero(payload, ConnectorId).required()?;
    let duration = whole_from_zero(payload, Duration).required()?;
    Ok(Action::AuditPoint {
        connector,
        duration,
    })
}

/// Reads the idTag in the payload of a StartTransaction or RemoteStartTransaction CALL, a charge
/// point's or an operator's: at most 20 characters (OCPP 1.6, chapter 7, IdToken).
#[tactic(auto, unfolding(crate::specs::Action::id_tag_of))]
fn read_id_tag(alloc: Global, payload: Node<'_, '_>) -> Result<IdTag, CallFault>
    ensures { ReadsUnless is_memory (λ id_tag. id_tag) result (id_tag_of (tree_at payload.entry)) }
{
    let tag = required_text(payload, FieldName::IdTag)?;
    IdTag::try_copy(alloc, tag)?.ok_or(CallFault::PropertyConstraintViolation(FieldName::IdTag))
}

// ---- the fields of points' actions

/// Reads StartTransaction.req (OCPP 1.6, chapter 6) from the payload of a charge point's CALL to
/// the central system, or returns its first fault.
#[tactic(auto, unfolding(crate::specs::Action::start_transaction_of))]
fn read_start_transaction(alloc: Global, payload: Node<'_, '_>) -> Result<Action, CallFault>
    ensures { ReadsUnless is_memory (λ action. action) result
        (start_transaction_of (tree_at payload.entry)) }
{
    let connector = whole_from_zero(payload, ConnectorId).required()?;
    let id_tag = read_id_tag(alloc, payload)?;
    let meter_start = whole(payload, MeterStart).required()?;
    let timestamp = instant(payload, Timestamp).required()?;
    Ok(Action::StartTransaction(StartTransaction {
        connector,
        id_tag,
        meter_start,
        timestamp,
    }))
}

/// Reads only the transactionId of StopTransaction.req (OCPP 1.6, chapter 6), from the payload of a
/// charge point's CALL to the central system.
#[tactic(auto, unfolding(crate::specs::Action::stop_transaction_of))]
fn read_stop_transaction(payload: Node<'_, '_>) -> Result<Action, CallFault>
    ensures { result ≡ stop_transaction_of (tree_at payload.entry) }
{
    let transaction = whole(payload, TransactionId).required()?;
    Ok(Action::StopTransaction(transaction))
}
