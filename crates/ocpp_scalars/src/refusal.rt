//! The reasons why the central system refuses a request.
ghost use Rattle.std.specs.Prelude.{◌≡◌, Some};
ghost use Rattle.ocpp_scalars.specs.Refusal.{refusal_name};

use std::alloc::{AllocError, AllocFailed};
use std::error::Error;
use std::fmt;

/// A reason why the central system refuses a request, by name. Each function's contract says which
/// state a refusal leaves.
#[derive(Clone, Copy, Debug, PartialEq, Eq)]
pub enum Refusal {
    /// The site has no point of this identity.
    UnknownPoint,
    /// The point has no connector of this number.
    UnknownConnector,
    /// A ChargePointMaxProfile is only for connector 0.
    MaxNotAtZero,
    /// A TxProfile is only for a connector above 0.
    TxAtZero,
    /// The schedule's unit isn't the site's.
    WrongUnit,
    /// The stack level is above the limit.
    LevelTooHigh,
    /// The schedule has more periods than the limit.
    TooManyPeriods,
    /// A period doesn't start later than the one before it.
    PeriodsOutOfOrder,
    /// The kind is Recurring and recurrencyKind is absent.
    NoRecurrency,
    /// No transaction is active at the connector of a TxProfile.
    NoTransaction,
    /// The TxProfile is for another transaction than the active one.
    OtherTransaction,
    /// The point would have more profiles than the limit.
    TooManyProfiles,
    /// The number of calls queued for the point or in flight to it has reached the limit.
    OutboxFull,
    /// The requested duration is 0 or above the limit.
    BadDuration,
    /// The requested schedule would run past the last instant.
    PastCalendar,
    /// The number of kept requests for schedules has reached the limit.
    TooManyOpen,
    /// The composite schedule has more periods than the limit.
    ResultTooLong,
    /// The next number of a version, request, link or call is above the limit.
    VersionsExhausted,
    /// No transaction number is left.
    TransactionsExhausted,
    /// The caller has seen a newer version than the one found.
    Behind { seen: u64, found: u64 },
    /// The central system is stopped.
    Stopped,
    /// Memory ran out.
    OutOfMemory,
    /// No request of this number is kept.
    UnknownRequest,
    /// The request already has its answer.
    AlreadyAnswered,
    /// The link isn't the point's current one.
    Superseded,
    /// No call of this number is in flight to the point.
    NothingInFlight,
    /// An answer posted from outside is for another book than that of its request, or for another
    /// question.
    StrangerInput,
    /// The call of the point's last audit isn't confirmed yet.
    AuditOpen,
    /// The profile of a remote start isn't a TxProfile.
    NotTxProfile,
}

impl Refusal {
    /// Returns the refusal's name, as answers print it.
    pub fn name(self) -> &'static str
        ensures { result.now ≡ refusal_name self }
    {
        match self {
            Refusal::UnknownPoint => "UnknownPoint",
            Refusal::UnknownConnector => "UnknownConnector",
            Refusal::MaxNotAtZero => "MaxNotAtZero",
            Refusal::TxAtZero => "TxAtZero",
            Refusal::WrongUnit => "WrongUnit",
            Refusal::LevelTooHigh => "LevelTooHigh",
            Refusal::TooManyPeriods => "TooManyPeriods",
            Refusal::PeriodsOutOfOrder => "PeriodsOutOfOrder",
            Refusal::NoRecurrency => "NoRecurrency",
            Refusal::NoTransaction => "NoTransaction",
            Refusal::OtherTransaction => "OtherTransaction",
            Refusal::TooManyProfiles => "TooManyProfiles",
            Refusal::OutboxFull => "OutboxFull",
            Refusal::BadDuration => "BadDuration",
            Refusal::PastCalendar => "PastCalendar",
            Refusal::TooManyOpen => "TooManyOpen",
            Refusal::ResultTooLong => "ResultTooLong",
            Refusal::VersionsExhausted => "VersionsExhausted",
            Refusal::TransactionsExhausted => "TransactionsExhausted",
            Refusal::Behind { .. } => "Behind",
            Refusal::Stopped => "Stopped",
            Refusal::OutOfMemory => "OutOfMemory",
            Refusal::UnknownRequest => "UnknownRequest",
            Refusal::AlreadyAnswered => "AlreadyAnswered",
            Refusal::Superseded => "Superseded",
            Refusal::NothingInFlight => "NothingInFlight",
            Refusal::StrangerInput => "StrangerInput",
            Refusal::AuditOpen => "AuditOpen",
            Refusal::NotTxProfile => "NotTxProfile",
        }
    }
}

impl fmt::Display for Refusal {
    ghost output = { λ r. Some (refusal_name r) };

    fn fmt<W: fmt::Write>(&self, f: &mut fmt::Formatter<W>) -> fmt::Result {
        f.write_str(self.name())
    }
}

impl Error for Refusal {}

impl From<AllocError> for Refusal {
    ghost use Rattle.ocpp_scalars.specs.declared.refusal.Refusal.{Refusal};

    ghost from_gives = { λ _ r. r ≡ Refusal.OutOfMemory };

    fn from(_error: AllocError) -> Refusal {
        Refusal::OutOfMemory
    }
}

impl<T: Drop> From<AllocFailed<T>> for Refusal {
    ghost use Rattle.ocpp_scalars.specs.declared.refusal.Refusal.{Refusal};

    ghost from_gives = { λ _ r. r ≡ Refusal.OutOfMemory };

    fn from(_failed: AllocFailed<T>) -> Refusal {
        Refusal::OutOfMemory
    }
}
