//! The periods of a schedule, in order.

ghost use Rattle.std.specs.Prelude.{◌≡◌, ◌↔◌, ℕ, IsTrue, IfOk};
ghost use Rattle.profile.specs.Periods.{are_in_order, AreSchedulePeriods, limit_in};

use crate::period::Period;
use crate::period_list::PeriodList;
use std::alloc::AllocError;
use std::marker::Model;
use std::sync::ArcSlice;

/// The most periods of a schedule.
pub const MAX_PERIODS: usize = 200;

/// The periods of a schedule: 1 to 200, each starting later than the one before. Copies share them.
#[derive(Drop)]
pub struct Periods {
    // Shared, since they never change: otherwise an install, its call to the point and a request
    // that is kept would each copy up to 200 periods.
    items: ArcSlice<Period>,
}

impl Model for Periods {
    ghost use Rattle.std.specs.Prelude.{List};
    ghost use Rattle.std.specs.Arc.{arc_slice_items};
    ghost use Rattle.profile.specs.declared.period.Period.{Period};
    ghost use Rattle.profile.specs.Periods.{AreSchedulePeriods};

    ghost Value = { List Period };

    ghost view = { λ p. arc_slice_items p.items };

    ghost invariant = { λ p. AreSchedulePeriods (arc_slice_items p.items) };
}

impl Periods {
    /// Makes the periods of a schedule from this list.
    pub fn new(list: PeriodList) -> Periods
        requires { AreSchedulePeriods list }
        ensures { result ≡ list }
    {
        Periods {
            items: list.into_shared(),
        }
    }

    /// Returns the periods in order.
    pub fn as_slice(&self) -> &[Period]
        ensures value { result.now ≡ self.now }
        ensures schedule { AreSchedulePeriods self.now }
    {
        self.items.as_slice()
    }

    /// Returns the same periods with another owner. Copies none of them.
    pub fn share(&self) -> Result<Periods, AllocError>
        ensures { IfOk result (λ shared. shared ≡ self.now) }
    {
        Ok(Periods {
            items: self.items.clone()?,
        })
    }

    /// Whether two schedules have equal periods.
    pub fn same(&self, other: &Periods) -> bool
        ensures { IsTrue result ↔ (self.now ≡ other.now) }
    {
        self.as_slice() == other.as_slice()
    }

    /// Returns the limit at an offset in seconds from the schedule's start, in tenths: that of the
    /// last period that has begun by then.
    pub fn limit_in_force(&self, offset: u64) -> Option<u32>
        ensures { result ≡ limit_in self.now offset }
    {
        let periods = self.as_slice();
        // They are in order, so those that have begun come first.
        let begun = periods.partition_point(|period| u64::from(period.start) <= offset);
        if begun == 0 {
            return None;
        }
        Some(periods[begun - 1].limit)
    }
}

/// Whether each period starts later than the one before it.
pub fn are_in_order(periods: &[Period]) -> bool
    ensures { result ≡ are_in_order periods.now }
{
    let mut previous = None;
    for period in periods {
        if previous.is_some_and(|start| period.start <= start) {
            return false;
        }
        previous = Some(period.start);
    }
    true
}
