//! The status of a point's reply to a call.

ghost use Rattle.std.specs.Prelude.{◌≡◌};
ghost use Rattle.messages.specs.ReplyStatus.{is_done};

use crate::action_kind::ActionKind;
use ocppj_frame::{Field, Payload, text_field};

/// The statuses of the replies to calls (chapter 7, ChargingProfileStatus,
/// ClearChargingProfileStatus, GetCompositeScheduleStatus and RemoteStartStopStatus).
#[derive(Clone, Copy, PartialEq, Eq)]
pub enum ReplyStatus {
    Accepted,
    Rejected,
    NotSupported,
    /// No profile matched a ClearChargingProfile.
    Unknown,
}

impl ReplyStatus {
    /// Returns the status of this name.
    pub fn named(name: &str) -> Option<ReplyStatus> {
        match name {
            "Accepted" => Some(ReplyStatus::Accepted),
            "Rejected" => Some(ReplyStatus::Rejected),
            "NotSupported" => Some(ReplyStatus::NotSupported),
            "Unknown" => Some(ReplyStatus::Unknown),
            _ => None,
        }
    }

    /// Returns the status in a reply's payload. `None` if it has no known status.
    pub fn in_payload(payload: &Payload<'_>) -> Option<ReplyStatus> {
        match text_field(payload.root(), "status") {
            Field::Value(name) => ReplyStatus::named(name),
            Field::Absent | Field::WrongKind | Field::WrongValue => None,
        }
    }

    /// Returns its name in replies.
    pub fn name(self) -> &'static str {
        match self {
            ReplyStatus::Accepted => "Accepted",
            ReplyStatus::Rejected => "Rejected",
            ReplyStatus::NotSupported => "NotSupported",
            ReplyStatus::Unknown => "Unknown",
        }
    }

    /// Returns whether a reply with this status means that a call with this action is done.
    pub fn is_done(self, action: ActionKind) -> bool
        ensures { result ≡ is_done self action }
    {
        match self {
            ReplyStatus::Accepted => true,
            // The point has no profile to clear, so the clear is done. Any other call counts as
            // rejected.
            ReplyStatus::Unknown => action == ActionKind::ClearChargingProfile,
            ReplyStatus::Rejected | ReplyStatus::NotSupported => false,
        }
    }
}
