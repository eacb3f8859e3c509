//! The table of actions. Each has its name, the side that sends it, and either a fixed answer or
//! the fields that are read.

ghost use Rattle.std.specs.Prelude.{◌≡◌, [], Some, None};
ghost use Rattle.messages.specs.ActionKind.{action_kinds, action_named, answer_of_kind, fields_of, kind_in, kind_of_sender, name_of_kind, row_of, side_of_kind};

use crate::field_name::FieldName::{
    ChargingProfile, ChargingProfilePurpose, ChargingRateUnit, ConnectorId, CsChargingProfiles,
    Duration, Id, IdTag, MeterStart, StackLevel, Timestamp, TransactionId,
};
use crate::field_row::FieldKind::{
    IdToken, Object, PurposeName, Time, UnitName, Whole, WholeFromZero,
};
use crate::field_row::FieldRow::{self, Optional, Required};
use crate::field_row::ObjectKind;
use crate::fixed_answer::FixedAnswer;
use crate::side::Side::{self, Operator, Point};

/// The known actions (chapters 4.1 to 4.10 and 5, and two of our own), without their fields.
#[derive(Clone, Copy, PartialEq, Eq)]
pub enum ActionKind {
    SetChargingProfile,
    ClearChargingProfile,
    GetCompositeSchedule,
    RemoteStartTransaction,
    /// Our own: asks the point for the composite schedule that it follows, to compare it.
    AuditPoint,
    /// Our own: returns the version, the number of unconfirmed calls, and the last audit.
    PointStatus,
    BootNotification,
    Heartbeat,
    Authorize,
    StartTransaction,
    StopTransaction,
    StatusNotification,
    MeterValues,
    FirmwareStatusNotification,
    DiagnosticsStatusNotification,
    DataTransfer,
}

/// SetChargingProfile.req (chapter 6). Each of these tables has the fields that are read, in the
/// order of the checks.
const SET_FIELDS: &[FieldRow] = &[
    Required(ConnectorId, WholeFromZero),
    Required(CsChargingProfiles, Object(ObjectKind::Profile)),
];

/// ClearChargingProfile.req.
const CLEAR_FIELDS: &[FieldRow] = &[
    Optional(Id, Whole),
    Optional(ConnectorId, WholeFromZero),
    Optional(ChargingProfilePurpose, PurposeName),
    Optional(StackLevel, WholeFromZero),
];

/// GetCompositeSchedule.req.
const GET_FIELDS: &[FieldRow] = &[
    Required(ConnectorId, WholeFromZero),
    Required(Duration, WholeFromZero),
    Optional(ChargingRateUnit, UnitName),
];

/// RemoteStartTransaction.req. The connectorId is required (our choice).
// OCPP lets it be absent (5.11), but a pending start is kept by its connector.
const REMOTE_START_FIELDS: &[FieldRow] = &[
    Required(ConnectorId, WholeFromZero),
    Required(IdTag, IdToken),
    Optional(ChargingProfile, Object(ObjectKind::Profile)),
];

/// AuditPoint, an action of our own.
// Without a unit: the point is asked in the site's unit.
const AUDIT_FIELDS: &[FieldRow] = &[
    Required(ConnectorId, WholeFromZero),
    Required(Duration, WholeFromZero),
];

/// StartTransaction.req.
const START_FIELDS: &[FieldRow] = &[
    Required(ConnectorId, WholeFromZero),
    Required(IdTag, IdToken),
    Required(MeterStart, Whole),
    Required(Timestamp, Time),
];

/// StopTransaction.req.
const STOP_FIELDS: &[FieldRow] = &[Required(TransactionId, Whole)];

/// A row of the table of actions.
#[derive(Clone, Copy)]
struct ActionRow {
    name: &'static str,
    side: Side,
    fixed_answer: Option<FixedAnswer>,
    fields: &'static [FieldRow],
}

/// Makes the row, in the table of the actions that the central system knows, of an action whose
/// fields are read from its CALL.
fn with_fields(side: Side, name: &'static str, fields: &'static [FieldRow]) -> ActionRow
    ensures name { result.name.now ≡ name.now }
    ensures side { result.side ≡ side }
    ensures fixed_answer { result.fixed_answer ≡ None }
    ensures fields { result.fields.now ≡ fields.now }
{
    ActionRow {
        name,
        side,
        fixed_answer: None,
        fields,
    }
}

/// Makes the row, in the table of the actions that the central system knows, of an action with a
/// fixed answer, whose fields aren't read.
fn answered(side: Side, name: &'static str, answer: FixedAnswer) -> ActionRow
    ensures name { result.name.now ≡ name.now }
    ensures side { result.side ≡ side }
    ensures fixed_answer { result.fixed_answer ≡ Some answer }
    ensures fields { result.fields.now ≡ [] }
{
    ActionRow {
        name,
        side,
        fixed_answer: Some(answer),
        fields: &[],
    }
}

impl ActionKind {
    /// Returns all known actions.
    pub fn all() -> &'static [ActionKind]
        ensures { result.now ≡ action_kinds }
    {
        &[
            ActionKind::SetChargingProfile,
            ActionKind::ClearChargingProfile,
            ActionKind::GetCompositeSchedule,
            ActionKind::RemoteStartTransaction,
            ActionKind::AuditPoint,
            ActionKind::PointStatus,
            ActionKind::BootNotification,
            ActionKind::Heartbeat,
            ActionKind::Authorize,
            ActionKind::StartTransaction,
            ActionKind::StopTransaction,
            ActionKind::StatusNotification,
            ActionKind::MeterValues,
            ActionKind::FirmwareStatusNotification,
            ActionKind::DiagnosticsStatusNotification,
            ActionKind::DataTransfer,
        ]
    }

    /// Returns the action's row of the table of the actions that the central system knows: its
    /// name, its sender's side, its fixed answer and its fields.
    fn row(self) -> ActionRow
        ensures name { result.name.now ≡ (row_of self).name }
        ensures side { result.side ≡ (row_of self).side }
        ensures fixed_answer { result.fixed_answer ≡ (row_of self).fixed_answer }
        ensures fields { result.fields.now ≡ (row_of self).fields }
    {
        match self {
            Self::SetChargingProfile => with_fields(Operator, "SetChargingProfile", SET_FIELDS),
            Self::ClearChargingProfile => with_fields(
                Operator,
                "ClearChargingProfile",
                CLEAR_FIELDS,
            ),
            Self::GetCompositeSchedule => with_fields(Operator, "GetCompositeSchedule", GET_FIELDS),
            Self::RemoteStartTransaction => with_fields(
                Operator,
                "RemoteStartTransaction",
                REMOTE_START_FIELDS,
            ),
            Self::AuditPoint => with_fields(Operator, "AuditPoint", AUDIT_FIELDS),
            Self::PointStatus => with_fields(Operator, "PointStatus", &[]),
            Self::BootNotification => answered(
                Point,
                "BootNotification",
                FixedAnswer::BootNotification,
            ),
            Self::Heartbeat => answered(Point, "Heartbeat", FixedAnswer::Heartbeat),
            Self::Authorize => answered(Point, "Authorize", FixedAnswer::Authorize),
            Self::StartTransaction => with_fields(Point, "StartTransaction", START_FIELDS),
            Self::StopTransaction => with_fields(Point, "StopTransaction", STOP_FIELDS),
            Self::StatusNotification => answered(Point, "StatusNotification", FixedAnswer::Empty),
            Self::MeterValues => answered(Point, "MeterValues", FixedAnswer::Empty),
            Self::FirmwareStatusNotification => answered(
                Point,
                "FirmwareStatusNotification",
                FixedAnswer::Empty,
            ),
            Self::DiagnosticsStatusNotification => answered(
                Point,
                "DiagnosticsStatusNotification",
                FixedAnswer::Empty,
            ),
            Self::DataTransfer => answered(Point, "DataTransfer", FixedAnswer::UnknownVendorId),
        }
    }

    /// Returns its name.
    pub fn name(self) -> &'static str
        ensures { result.now ≡ name_of_kind self }
    {
        self.row().name
    }

    /// Returns the side that sends it.
    pub fn side(self) -> Side
        ensures { result ≡ side_of_kind self }
    {
        self.row().side
    }

    /// Returns its fixed answer, if its fields aren't read.
    pub fn fixed_answer(self) -> Option<FixedAnswer>
        ensures { result ≡ answer_of_kind self }
    {
        self.row().fixed_answer
    }

    /// Returns the action of this name, exactly as written. Allocates nothing: a CALL's name is
    /// looked up before its fields are read.
    pub fn named(text: &str) -> Option<ActionKind>
        ensures { result ≡ action_named text.now }
    {
        kind_in(ActionKind::all(), text)
    }

    /// Returns the action of this name, if this side sends it.
    pub fn of_sender(sender: Side, name: &str) -> Option<ActionKind>
        ensures { result ≡ kind_of_sender sender (action_named name.now) }
    {
        let kind = ActionKind::named(name)?;
        if kind.side().is_same(sender) {
            Some(kind)
        } else {
            None
        }
    }
}

/// Returns the first action with this name, as a CALL writes it, among these actions that the
/// central system knows.
fn kind_in(kinds: &[ActionKind], text: &str) -> Option<ActionKind>
    ensures { result ≡ kind_in kinds.now text.now }
{
    for kind in kinds {
        if text == kind.name() {
            return Some(*kind);
        }
    }
    None
}

/// Returns the fields of an action that are read, in the order of the checks.
pub fn fields_of(kind: ActionKind) -> &'static [FieldRow]
    ensures { result.now ≡ fields_of kind }
{
    kind.row().fields
}
