//! The number of evaluations of a limit.

ghost use Rattle.std.specs.Prelude.{◌≡◌, ℕ, ◌+◌, ◌<◌, ◌≤◌, ◌^◌, length, IfOk};
ghost use Rattle.meaning.specs.View.{point_state};
ghost use Rattle.meaning.specs.Limit.{limit};
ghost use Rattle.meaning.specs.Cause.{reason};
ghost use Rattle.sweep_compiler.specs.ByCases.Swept.{IsReadyCurve};

use crate::limit_curve::LimitCurve;
use meaning::Reason;
use std::alloc::{AllocError, Global};
use std::marker::Model;

/// The number of evaluations of a limit: each evaluation at one instant is a turn, with or without
/// its cause. Nothing else counts as a turn.
#[derive(Drop)]
pub struct Turns {
    count: u64,
}

impl Model for Turns {
    ghost use Rattle.std.specs.Prelude.{ℕ};

    ghost Value = { ℕ };

    ghost view = { λ t. t.count };
}

impl Turns {
    /// Makes a count of no turns.
    pub fn new() -> Turns
        ensures { result ≡ 0 }
    {
        Turns { count: 0 }
    }

    /// Returns the number of turns.
    pub fn count(&self) -> u64
        ensures { result ≡ self.now }
    {
        self.count
    }

    /// Counts one evaluation of a limit in the schedule compiler's sweep.
    fn count_one(&mut self)
        requires room { self.old + 1 < 2 ^ 64 }
        ensures { self.new ≡ self.old + 1 }
    {
        self.count += 1;
    }

    /// Evaluates the requested limit at the current instant of the schedule compiler's sweep, in
    /// tenths, which is one turn.
    // The counter evaluates the limit itself, so that a caller can't forget to count.
    pub(crate) fn limit_of(&mut self, curve: &LimitCurve<'_>) -> u32
        requires room { self.old + 1 < 2 ^ 64 }
        requires ready { IsReadyCurve curve.now }
        requires within { curve.now.at ≤ curve.now.last }
        ensures limit { result ≡ limit (point_state curve.now.view) curve.now.connector
            curve.now.asked curve.now.at }
        ensures turn { self.new ≡ self.old + 1 }
    {
        self.count_one();
        curve.limit_here()
    }

    /// Evaluates the requested limit with its cause at the current instant of the schedule
    /// compiler's sweep, which is one turn.
    pub(crate) fn reason_of(
        &mut self,
        alloc: Global,
        curve: &LimitCurve<'_>,
    ) -> Result<Reason, AllocError>
        requires room { self.old + 1 < 2 ^ 64 }
        requires ready { IsReadyCurve curve.now }
        requires within { curve.now.at ≤ curve.now.last }
        ensures reason { IfOk result (λ found. found ≡ reason (point_state curve.now.view)
            curve.now.connector curve.now.asked curve.now.at) }
        ensures turn { self.new ≡ self.old + 1 }
    {
        self.count_one();
        curve.reason_here(alloc)
    }
}
