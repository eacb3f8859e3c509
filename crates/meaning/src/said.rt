//! The composite schedule that a charge point reports.

ghost use Rattle.std.specs.Prelude.{◌≡◌, length};

use crate::composite::CompositePeriod;
use ocpp_scalars::Instant;
use profile::Unit;
use std::marker::Model;

/// The periods that a charge point reports, which may be no schedule: any number of them, in any
/// order.
#[derive(Drop)]
pub struct SaidPeriods {
    items: Vec<CompositePeriod>,
}

impl Model for SaidPeriods {
    ghost use Rattle.std.specs.Prelude.{List};
    ghost use Rattle.meaning.specs.declared.composite.CompositePeriod.{CompositePeriod};

    ghost Value = { List CompositePeriod };

    ghost view = { λ s. s.items.items };
}

impl SaidPeriods {
    /// Makes the periods of a list.
    pub fn new(items: Vec<CompositePeriod>) -> SaidPeriods
        ensures { result ≡ items.items }
    {
        SaidPeriods { items }
    }

    /// Returns the periods, in the point's order.
    pub fn as_slice(&self) -> &[CompositePeriod]
        ensures { result.now ≡ self.now }
    {
        self.items.as_slice()
    }

    /// Returns the number of periods.
    pub fn len(&self) -> usize
        ensures { result ≡ length self.now }
    {
        self.items.len()
    }

    /// Returns the list of the periods that a charge point reports in a GetCompositeSchedule.conf.
    pub(crate) fn into_vec(self) -> Vec<CompositePeriod>
        ensures { result.items ≡ self }
    {
        self.items
    }
}

/// The reply of a charge point to GetCompositeSchedule (chapter 5.7, and chapter 6,
/// GetCompositeSchedule.conf).
#[derive(Drop)]
pub enum Said {
    /// It rejects the request.
    Refused,
    /// The reply can't be read.
    Unread,
    /// A schedule.
    Schedule {
        /// scheduleStart.
        start: Instant,
        /// Seconds, if given.
        duration: Option<u32>,
        /// chargingRateUnit.
        unit: Unit,
        /// chargingSchedulePeriod.
        periods: SaidPeriods,
    },
}
