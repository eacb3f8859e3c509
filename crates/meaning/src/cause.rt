//! The cause of a limit, and the reason why a profile has no part in it.

ghost use Rattle.std.specs.Prelude.{◌≡◌, ◌↔◌, IsTrue};

use crate::shares::Shares;
use profile::Purpose;

/// The fields that identify a profile that prevails (chapter 7, ChargingProfile).
#[derive(Clone, Copy, PartialEq, Eq)]
pub struct PrevailingProfile {
    /// chargingProfileId.
    pub id: i32,
    /// chargingProfilePurpose.
    pub purpose: Purpose,
    pub stack_level: u32,
    /// The connector of the profile, 0 for the whole point.
    pub connector: u32,
}

/// The cause of a limit (chapter 3.13).
#[derive(Clone, Copy, PartialEq, Eq)]
pub enum Cause {
    /// A profile that prevails.
    Profile(PrevailingProfile),
    /// The connector's ceiling.
    ConnectorCeiling,
    /// The point's ceiling.
    PointCeiling,
    /// At connector 0: the sum of the active connectors' limits.
    Sum,
}

/// The share of an active connector in the sum of connector 0.
#[derive(Clone, Copy, PartialEq, Eq)]
pub struct Share {
    /// From 1 on.
    pub connector: u32,
    /// Its own limit, in tenths of A or W.
    pub limit: u32,
    /// The cause of that limit: a profile, or the connector's ceiling.
    pub cause: Cause,
}

/// A limit, with its cause.
#[derive(Drop)]
pub struct Reason {
    /// In tenths of A or W.
    pub limit: u32,
    pub cause: Cause,
    /// The share of each active connector, if the cause is the sum; otherwise none.
    pub shares: Shares,
}

impl Reason {
    /// Whether two reasons are equal.
    pub fn same(&self, other: &Reason) -> bool
        ensures { IsTrue result ↔ (self.now ≡ other.now) }
    {
        self.limit == other.limit && self.cause == other.cause && self.shares.same(&other.shares)
    }
}

/// The reason why a profile of a point doesn't prevail for a connector at an instant. Of several
/// reasons the first in this order counts.
#[derive(Clone, Copy, PartialEq, Eq)]
pub enum WhyNot {
    /// It is at another connector.
    OtherConnector,
    /// It is a TxProfile, and there is no transaction.
    NoTransaction,
    /// It is at connector 0, and the connector has a TxDefaultProfile of its stack level.
    Hidden,
    /// It isn't valid yet: its validFrom hasn't come.
    NotYetValid,
    /// It isn't valid any more: its validTo has come.
    NoLongerValid,
    /// Its schedule hasn't begun.
    BeforeAnchor,
    /// Its schedule's duration is over.
    PastDuration,
    /// None of its periods has begun.
    BeforeFirstPeriod,
    /// A profile of its purpose with a higher stack level prevails.
    BelowHigherLevel,
    /// It is a TxDefaultProfile, and a TxProfile prevails.
    BehindTxProfile,
}
