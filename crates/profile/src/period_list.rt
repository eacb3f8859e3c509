//! The periods of a received schedule.

use crate::period::Period;
use std::alloc::AllocError;
use std::marker::Model;
use std::sync::ArcSlice;

/// The periods of a received schedule, in its order, not yet checked (chapter 7,
/// chargingSchedulePeriod): one or more. They are shared with the profile that is made of them, and
/// with its copies.
#[derive(Drop)]
pub struct PeriodList {
    items: ArcSlice<Period>,
}

impl Model for PeriodList {
    ghost use Rattle.std.specs.Prelude.{◌<◌, List, length};
    ghost use Rattle.std.specs.Arc.{arc_slice_items};
    ghost use Rattle.profile.specs.declared.period.Period.{Period};

    ghost Value = { List Period };

    ghost view = { λ l. arc_slice_items l.items };

    ghost invariant = { λ l. 0 < length (arc_slice_items l.items) };
}

impl PeriodList {
    ghost use Rattle.std.specs.Prelude.{◌≡◌, ◌<◌, ◌↔◌, length, IsSome, IfOk, IfSome};
    ghost use Rattle.std.specs.Arc.{arc_slice_items};

    /// Makes a list of these periods, or `None` if there are none.
    pub fn try_new(items: Vec<Period>) -> Result<Option<PeriodList>, AllocError>
        ensures some { IfOk result (λ list. IsSome list ↔ (0 < length items.items)) }
        ensures value { IfOk result (λ list. IfSome list (λ l. l ≡ items.items)) }
    {
        if items.is_empty() {
            return Ok(None);
        }
        Ok(Some(PeriodList {
            items: ArcSlice::from_vec(items)?,
        }))
    }

    /// Returns the periods in order.
    pub fn as_slice(&self) -> &[Period]
        ensures value { result.now ≡ self.now }
        ensures some { 0 < length self.now }
    {
        self.items.as_slice()
    }

    /// Returns the periods in shared memory.
    pub fn into_shared(self) -> ArcSlice<Period>
        ensures value { arc_slice_items result ≡ self }
        ensures some { 0 < length self }
    {
        self.items
    }
}
