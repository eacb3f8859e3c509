//! Composite schedules.

ghost use Rattle.std.specs.Prelude.{◌≡◌, IfOk, IfErr, OnErr, OnOk};
ghost use Rattle.meaning.specs.ByCases.Said.{is_next, is_some_schedule, is_said_schedule};

use crate::said::SaidPeriods;
use std::alloc::AllocError;
use std::marker::Model;

/// The most periods of a schedule that is returned as an answer. A [`Composite`] by itself may have
/// more.
pub const MAX_COMPOSITE_PERIODS: usize = 4_096;

/// One step of a composite schedule (chapter 7, ChargingSchedulePeriod).
#[derive(Clone, Copy, PartialEq, Eq)]
pub struct CompositePeriod {
    /// Seconds from the start of the schedule.
    pub start: u32,
    /// The limit from there on, in tenths of A or W.
    pub limit: u32,
}

/// A composite schedule (chapter 5.7): the limits of a connector over a duration. Its periods begin
/// at 0, each starts later than the one before it, and all within the duration.
#[derive(Drop)]
pub struct Composite {
    /// Seconds.
    duration: u32,
    periods: Vec<CompositePeriod>,
}

impl Model for Composite {
    ghost use Rattle.meaning.specs.Composite.{CompositeSchedule, IsSchedule};

    ghost Value = { CompositeSchedule };

    ghost view = { λ c. record { duration = c.duration; periods = c.periods.items } };

    ghost invariant = { λ c. IsSchedule c.duration c.periods.items };
}

impl Composite {
    ghost use Rattle.meaning.specs.Composite.{IsSchedule};
    ghost use Rattle.meaning.specs.Said.{IsSaidSchedule};

    /// Makes the schedule of these periods over a number of seconds.
    pub fn new(duration: u32, periods: Vec<CompositePeriod>) -> Composite
        requires schedule { IsSchedule duration periods.items }
        ensures lasts { result.duration ≡ duration }
        ensures same { result.periods ≡ periods.items }
    {
        Composite { duration, periods }
    }

    /// Makes a schedule over a number of seconds of periods that a point reported. It succeeds
    /// exactly if they begin at 0, each starts later than the one before it, all within the
    /// duration, and they are at most `MAX_COMPOSITE_PERIODS`. Otherwise it returns them. Allocates
    /// nothing.
    pub fn from_said(duration: u32, periods: SaidPeriods) -> Result<Composite, SaidPeriods>
        ensures valid { OnOk result (IsSaidSchedule duration periods) }
        ensures lasts { IfOk result (λ schedule. schedule.duration ≡ duration) }
        ensures same { IfOk result (λ schedule. schedule.periods ≡ periods) }
        ensures invalid { OnErr result (¬ (IsSaidSchedule duration periods)) }
        ensures back { IfErr result (λ back. back ≡ periods) }
    {
        if is_said_schedule(duration, periods.as_slice()) {
            Ok(Composite::new(duration, periods.into_vec()))
        } else {
            Err(periods)
        }
    }

    /// Returns the number of seconds that it covers.
    pub fn duration(&self) -> u32
        ensures { result ≡ self.now.duration }
    {
        self.duration
    }

    /// Returns the periods in order.
    pub fn periods(&self) -> &[CompositePeriod]
        ensures value { result.now ≡ self.now.periods }
        ensures schedule { IsSchedule self.now.duration self.now.periods }
    {
        self.periods.as_slice()
    }

    /// Returns a copy.
    pub fn copy(&self) -> Result<Composite, AllocError>
        ensures { IfOk result (λ copy. copy ≡ self.now) }
    {
        let alloc = *self.periods.allocator();
        let periods = Vec::from_slice(alloc, self.periods())?;
        Ok(Composite {
            duration: self.duration(),
            periods,
        })
    }
}

/// Whether the periods that a charge point reports in a GetCompositeSchedule.conf make a composite
/// schedule over a number of seconds, and aren't too many.
fn is_said_schedule(duration: u32, periods: &[CompositePeriod]) -> bool
    ensures { result ≡ is_said_schedule duration periods.now }
{
    periods.len() <= MAX_COMPOSITE_PERIODS && is_some_schedule(duration, periods)
}

/// Whether the periods that a charge point reports in a GetCompositeSchedule.conf, however many,
/// make a composite schedule over a number of seconds.
fn is_some_schedule(duration: u32, periods: &[CompositePeriod]) -> bool
    ensures { result ≡ is_some_schedule duration periods.now }
{
    let mut before = None;
    for period in periods {
        // Neighbours may have equal limits: a point may split a period, and an audit compares
        // seconds.
        if !is_next(before, period.start) || period.start >= duration {
            return false;
        }
        before = Some(period.start);
    }
    before.is_some()
}

/// Whether a period that a charge point reports in a GetCompositeSchedule.conf begins later than
/// the one before it, and the first one at 0.
fn is_next(before: Option<u32>, start: u32) -> bool
    ensures { result ≡ is_next before start }
{
    match before {
        Some(before) => before < start,
        None => start == 0,
    }
}
