//! The fields of a received profile.

use crate::kind::{ProfileKind, Recurrency};
use crate::period_list::PeriodList;
use crate::purpose::Purpose;
use crate::unit::Unit;
use ocpp_scalars::Instant;

/// The fields of a received charging profile, not yet checked (chapter 7, ChargingProfile).
#[derive(Drop)]
pub struct ProfileParts {
    /// chargingProfileId.
    pub id: i32,
    /// transactionId.
    pub transaction: Option<i32>,
    /// stackLevel.
    pub stack_level: u32,
    /// chargingProfilePurpose.
    pub purpose: Purpose,
    /// chargingProfileKind.
    pub kind: ProfileKind,
    /// recurrencyKind.
    pub recurrency: Option<Recurrency>,
    pub valid_from: Option<Instant>,
    pub valid_to: Option<Instant>,
    /// chargingSchedule.
    pub schedule: ScheduleParts,
}

/// The fields of a received charging schedule (chapter 7, ChargingSchedule).
#[derive(Drop)]
pub struct ScheduleParts {
    /// Seconds.
    pub duration: Option<u32>,
    /// startSchedule.
    pub start: Option<Instant>,
    /// chargingRateUnit.
    pub unit: Unit,
    /// chargingSchedulePeriod.
    pub periods: PeriodList,
    /// minChargingRate, in tenths.
    pub min_charging_rate: Option<u32>,
}
