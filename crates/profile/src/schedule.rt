//! A charging schedule.

ghost use Rattle.std.specs.Prelude.{◌≡◌, ◌↔◌, IsTrue, IfOk};

use crate::periods::Periods;
use crate::unit::Unit;
use ocpp_scalars::Instant;
use std::alloc::AllocError;

/// A charging schedule (chapter 7, ChargingSchedule).
#[derive(Drop)]
pub struct Schedule {
    /// The seconds after which it ends, if given.
    pub duration: Option<u32>,
    /// startSchedule, if given.
    pub start: Option<Instant>,
    /// chargingRateUnit.
    pub unit: Unit,
    /// chargingSchedulePeriod.
    pub periods: Periods,
    /// minChargingRate, in tenths; kept and forwarded.
    pub min_charging_rate: Option<u32>,
}

impl Schedule {
    /// Returns a copy, which shares the periods.
    pub fn copy(&self) -> Result<Schedule, AllocError>
        ensures { IfOk result (λ copy. copy ≡ self.now) }
    {
        Ok(Schedule {
            duration: self.duration,
            start: self.start,
            unit: self.unit,
            periods: self.periods.share()?,
            min_charging_rate: self.min_charging_rate,
        })
    }

    /// Whether two schedules are equal.
    pub fn same(&self, other: &Schedule) -> bool
        ensures { IsTrue result ↔ (self.now ≡ other.now) }
    {
        self.duration == other.duration
            && self.start == other.start
            && self.unit.is_same(other.unit)
            && self.min_charging_rate == other.min_charging_rate
            && self.periods.same(&other.periods)
    }
}
