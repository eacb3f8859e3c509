//! One sentence for each refusal, and for each reason why something has no effect. All output for
//! people has them. A test compares PROTOCOL's, RUNNING's and COMMANDS' tables with them.

use messages::CallFault;
use ocpp_scalars::Refusal;
use profile_findings::NeverRated;
use replay::ScriptLineFault;

/// Returns the reason why a step is refused.
pub fn sentence(refusal: Refusal) -> &'static str {
    match refusal {
        Refusal::UnknownPoint =>
            "the site has no point of this identity; letters of either case differ",
        Refusal::UnknownConnector => "the point has no connector of this number",
        Refusal::MaxNotAtZero =>
            "a ChargePointMaxProfile is allowed only at connector 0, the whole point",
        Refusal::TxAtZero => "a TxProfile is allowed only at a connector above 0",
        Refusal::WrongUnit => "chargingRateUnit isn't the unit of the site file",
        Refusal::NotTxProfile => "the profile of a remote start isn't a TxProfile",
        Refusal::LevelTooHigh => "the stackLevel is above 99",
        Refusal::TooManyPeriods => "there are more than 200 periods in chargingSchedulePeriod",
        Refusal::PeriodsOutOfOrder =>
            "a period's startPeriod isn't later than that of the period before it",
        Refusal::NoRecurrency =>
            "the chargingProfileKind is Recurring, and recurrencyKind is absent",
        Refusal::NoTransaction =>
            "a TxProfile needs an active transaction at its connector, and none is",
        Refusal::OtherTransaction =>
            "the transactionId isn't that of the connector's active transaction",
        Refusal::TooManyProfiles => "the point would have more than 200 profiles; clear some first",
        Refusal::OutboxFull => "256 calls wait for the point, which has confirmed none of them",
        Refusal::BadDuration => "the duration is 0 or above 2678400 seconds, thirty-one days",
        Refusal::AuditOpen => "the call of the point's last audit isn't confirmed yet",
        Refusal::PastCalendar => "the schedule would run past 9999-12-31T23:59:59Z",
        Refusal::TooManyOpen => "64 requests for schedules are kept, and no more",
        Refusal::ResultTooLong =>
            "the schedule has more than 4096 periods; ask for a shorter duration",
        Refusal::VersionsExhausted =>
            "the numbers of versions, requests, links or calls, 1000000000000, are used up",
        Refusal::TransactionsExhausted => "all transaction numbers, 2147483647, were given away",
        Refusal::Behind { .. } => "the caller has seen a newer version than there is",
        Refusal::Stopped => "the central system is stopped",
        Refusal::OutOfMemory => "memory ran out",
        Refusal::UnknownRequest => "no request of this number is kept",
        Refusal::AlreadyAnswered => "the request has its answer already",
        Refusal::Superseded =>
            "the link isn't the point's present one: it has connected anew since",
        Refusal::NothingInFlight => "no call of this number is in flight to the point",
        Refusal::StrangerInput =>
            "the answer is for another state or another request than the one that is kept",
    }
}

/// Returns the reason why a line of a script can't be played.
pub fn line_sentence(fault: ScriptLineFault) -> &'static str {
    match fault {
        ScriptLineFault::TooLong => "the line has more than 1048576 bytes",
        ScriptLineFault::BadText => "the line isn't UTF-8",
        ScriptLineFault::BadLine =>
            "the line is neither INSTANT operator ID FRAME, with operator, point or hold, nor INSTANT release N, each with one space between the words",
        ScriptLineFault::BadInstant =>
            "the first word isn't an instant such as 2025-01-31T18:00:00Z",
        ScriptLineFault::UnknownPoint =>
            "the site has no point of this identity; letters of either case differ",
        ScriptLineFault::NotComposite =>
            "a request that is held has to be a CALL of GetCompositeSchedule",
        ScriptLineFault::UnknownRequest => "no request of this number is held",
    }
}

/// Returns the reason why a CALL is answered by a CALLERROR.
pub fn call_sentence(fault: CallFault) -> &'static str {
    match fault {
        CallFault::FormationViolation =>
            "the CALL is malformed: its action is no string, or its payload no object",
        CallFault::NotImplemented => "the action isn't known here, or is one of the other side",
        CallFault::OccurenceConstraintViolation(_) =>
            "the field is needed, and is absent, null or an empty list",
        CallFault::TypeConstraintViolation(_) =>
            "the field is of another kind of JSON than it has to be",
        CallFault::PropertyConstraintViolation(_) => "the field's value isn't one that it may have",
        CallFault::Refused(refusal) => sentence(refusal),
    }
}

/// Returns the reason why a profile never counts.
pub fn never_sentence(why: NeverRated) -> &'static str {
    match why {
        NeverRated::EmptyValidity =>
            "this profile never counts: its validTo isn't after its validFrom",
        NeverRated::ValidBeforeStart =>
            "this profile never counts: its validTo isn't after its startSchedule",
        NeverRated::ValidAfterEnd =>
            "this profile never counts: its schedule is over, by startSchedule and duration, before its validFrom",
        NeverRated::NoDuration => "this profile never counts: the duration of its schedule is 0",
        NeverRated::PeriodsPastDuration =>
            "this profile never counts: its first period starts when the duration is over",
        NeverRated::PeriodsPastRecurrence =>
            "this profile never counts: its first period starts when the day or week is over",
    }
}
