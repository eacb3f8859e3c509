//! The answers to CALLs.
ghost use Rattle.std.specs.Prelude.{◌≡◌};
ghost use Rattle.messages.specs.ResponseText.{audit_name};

use crate::call_fault::CallFault;
use meaning::Composite;
use ocpp_scalars::{Instant, Refusal};
use profile::Unit;

/// The answer to a CALL (chapter 6, the .conf payloads, and OCPP-J 1.6, 4.2.3, CALLERROR).
#[derive(Drop)]
pub enum Response {
    /// A profile was installed, a ClearChargingProfile removed some, or an audit was begun.
    Accepted,
    /// An install, a request, a remote start, an audit or a PointStatus is refused. The refusal
    /// `OutOfMemory` is answered as an InternalError, as for every action.
    Rejected(Refusal),
    /// A ClearChargingProfile matched no profile.
    Unknown,
    /// GetCompositeSchedule.conf: accepted, with the schedule.
    Schedule(ScheduleResponse),
    /// The answer to PointStatus: accepted, with the state of the point.
    PointStatus(PointStatus),
    /// BootNotification.conf: accepted, with the present moment and an interval of 300 seconds.
    BootNotification { current_time: Instant },
    /// Heartbeat.conf: the present moment.
    Heartbeat { current_time: Instant },
    /// Authorize.conf: every idTag is accepted.
    Authorize,
    /// StartTransaction.conf: accepted, with the transaction's number.
    StartTransaction { transaction: i32 },
    /// The .conf of StopTransaction, StatusNotification, MeterValues, FirmwareStatusNotification
    /// and DiagnosticsStatusNotification: an object without fields.
    Empty,
    /// DataTransfer.conf: no vendor is known.
    UnknownVendorId,
    /// A CALLERROR: the CALL can't be read, or a ClearChargingProfile, StartTransaction or
    /// StopTransaction is refused.
    Error(CallFault),
}

/// The composite schedule of a connector from a start on (chapter 6, GetCompositeSchedule.conf).
#[derive(Drop)]
pub struct ScheduleResponse {
    /// The requested connector.
    pub connector: u32,
    /// The start of the schedule, the moment of the request.
    pub start: Instant,
    /// The site's unit, in which the schedule's limits are.
    pub unit: Unit,
    pub schedule: Composite,
}

/// The state of a point in the central system; an answer of our own.
#[derive(Clone, Copy, PartialEq, Eq)]
pub struct PointStatus {
    /// The version of the site's book.
    pub version: u64,
    /// The number of calls that the point hasn't confirmed.
    pub outbox: usize,
    pub audit: AuditOutcome,
}

/// The outcome of a point's last audit.
#[derive(Clone, Copy, PartialEq, Eq)]
pub enum AuditOutcome {
    /// There was none.
    NoAudit,
    /// The point's reply is still missing.
    Waiting,
    /// The point's schedule has the exact schedule's limit at each second that both cover.
    Agrees,
    /// The point's schedule has another limit at some second.
    Differs,
    /// The point gave no schedule.
    Rejected,
    /// The two schedules couldn't be compared.
    Unsettled,
}

impl AuditOutcome {
    /// Returns its name.
    pub fn name(self) -> &'static str
        ensures { result.now ≡ audit_name self }
    {
        match self {
            AuditOutcome::NoAudit => "None",
            AuditOutcome::Waiting => "Waiting",
            AuditOutcome::Agrees => "Agrees",
            AuditOutcome::Differs => "Differs",
            AuditOutcome::Rejected => "Rejected",
            AuditOutcome::Unsettled => "Unsettled",
        }
    }
}
