//! Reads the refusal in an answer to an operator's CALL.

use messages::{CallFault, FieldName};
use ocpp_scalars::Refusal;
use ocppj_frame::{Field, Node, text_field};

/// An answer that isn't simply accepted.
#[derive(Clone, Copy)]
pub(crate) enum RejectedAnswer<'text> {
    /// A `Rejected` with this reason.
    Rejected(&'text str),
    /// A CALLERROR.
    Error {
        code: &'text str,
        description: &'text str,
    },
    /// A clear that matched nothing.
    Unknown,
}

/// The refusals that an answer may name.
// An answer has a refusal's name only; the versions of `Behind` aren't part of that.
const REFUSALS: [Refusal; 24] = [
    Refusal::UnknownPoint,
    Refusal::UnknownConnector,
    Refusal::MaxNotAtZero,
    Refusal::TxAtZero,
    Refusal::WrongUnit,
    Refusal::NotTxProfile,
    Refusal::LevelTooHigh,
    Refusal::TooManyPeriods,
    Refusal::PeriodsOutOfOrder,
    Refusal::NoRecurrency,
    Refusal::NoTransaction,
    Refusal::OtherTransaction,
    Refusal::TooManyProfiles,
    Refusal::OutboxFull,
    Refusal::BadDuration,
    Refusal::AuditOpen,
    Refusal::PastCalendar,
    Refusal::TooManyOpen,
    Refusal::ResultTooLong,
    Refusal::VersionsExhausted,
    Refusal::TransactionsExhausted,
    Refusal::Behind { seen: 0, found: 0 },
    Refusal::Stopped,
    Refusal::OutOfMemory,
];

/// The faults that an error's code may name.
// The code doesn't depend on the field, which the description names: any one will do.
const FAULTS: [CallFault; 5] = [
    CallFault::FormationViolation,
    CallFault::NotImplemented,
    CallFault::OccurenceConstraintViolation(FieldName::Id),
    CallFault::TypeConstraintViolation(FieldName::Id),
    CallFault::PropertyConstraintViolation(FieldName::Id),
];

/// Returns the rejection in the answer to an operator's CALL, if the frame is an answer that isn't
/// simply accepted. `central call` explains it by the sentence that `check` has for it.
pub(crate) fn rejection_of<'memory>(root: Node<'_, 'memory>) -> Option<RejectedAnswer<'memory>> {
    let entries = root.list()?;
    match entries.get(0)?.number()? {
        "3" => rejection_of_result(entries.get(2)?),
        "4" => {
            Some(RejectedAnswer::Error {
                code: entries.get(2)?.text()?,
                description: entries.get(3)?.text()?,
            })
        }
        _ => None,
    }
}

/// Returns the rejection in the payload of the CALLRESULT to an operator's CALL, if it has one.
/// `central call` explains it by the sentence that `check` has for it.
fn rejection_of_result<'memory>(payload: Node<'_, 'memory>) -> Option<RejectedAnswer<'memory>> {
    match text_field(payload, "status") {
        Field::Value("Rejected") => match text_field(payload, "reason") {
            Field::Value(reason) => Some(RejectedAnswer::Rejected(reason)),
            _ => None,
        },
        Field::Value("Unknown") => Some(RejectedAnswer::Unknown),
        _ => None,
    }
}

/// Returns the refusal of this name in the answer to an operator's CALL. `central call` explains it
/// by the sentence that `check` has for it.
pub(crate) fn refusal_of(name: &str) -> Option<Refusal> {
    for refusal in &REFUSALS {
        if refusal.name() == name {
            return Some(*refusal);
        }
    }
    None
}

/// Returns the fault for which a CALLERROR to an operator has this code, with any field. `central
/// call` explains it by the sentence that `check` has for it.
pub(crate) fn fault_of(code: &str) -> Option<CallFault> {
    for fault in &FAULTS {
        if fault.code() == code {
            return Some(*fault);
        }
    }
    None
}
