//! The limit of a connector along the seconds of a request.

ghost use Rattle.std.specs.Prelude.{◌≡◌, ℕ, ◌+◌, ◌-◌, ◌<◌, ◌≤◌, ◌^◌, length, IfErr, IfOk, IfSome};
ghost use Rattle.ocpp_scalars.specs.declared.refusal.Refusal.TheVariants.{OutOfMemory};
ghost use Rattle.std.specs.List.{AllByRecursion};
ghost use Rattle.meaning.specs.View.{point_state};
ghost use Rattle.meaning.specs.Limit.{limit, limit_asked};
ghost use Rattle.meaning.specs.declared.cause.Cause.TheVariants.{Sum};
ghost use Rattle.meaning.specs.Cause.{bound, reason, reason_asked, shares_by};
ghost use Rattle.sweep_compiler.specs.ByCases.Curve.{LeadsOn};
ghost use Rattle.sweep_compiler.specs.Places.{is_second_asked};
ghost use Rattle.sweep_compiler.specs.ByCases.Running.{RunningBound};
ghost use Rattle.sweep_compiler.specs.ByCases.Queue.{IsSoonestOf};
ghost use Rattle.sweep_compiler.specs.ByCases.Swept.{IsSweptCurve, IsReadyCurve, IsOfOneAsk, waiting_at, row_count, passed_in, due_in, shared_now, shares_now};

use crate::bounded::Bounded;
use crate::curve::Curve;
use crate::queue::{Due, Queue};
use crate::turns::Turns;
use meaning::{Bound, Cause, Reason, Shares, View};
use ocpp_scalars::{Instant, Refusal};
use std::alloc::{AllocError, Global};

/// The requested limit, on its way from place to place.
#[derive(Drop)]
pub(crate) struct LimitCurve<'a> {
    pub view: View<'a>,
    pub connector: u32,
    pub asked: Instant,
    /// The last requested instant.
    pub last: Instant,
    /// The current instant of the sweep: each place up to it has been passed.
    pub at: Instant,
    /// The bound of the whole point, followed by the bound of each connector that the request
    /// covers.
    pub bounds: Vec<Bounded<'a>>,
    /// The sum of the connectors' limits here.
    pub sum: u64,
    /// The next place of each row that has one left.
    pub queue: Queue,
}

impl LimitCurve<'_> {
    /// Returns the limit of the requested connector at the current instant of the schedule
    /// compiler's sweep, in tenths.
    pub(crate) fn limit_here(&self) -> u32
        requires ready { IsReadyCurve self.now }
        requires within { self.now.at ≤ self.now.last }
        ensures { result ≡ limit
            (point_state self.now.view) self.now.connector self.now.asked self.now.at }
    {
        // In a request for one connector, the sum is that connector's own limit.
        let point = self.bounds[0].limit();
        u64::from(point).min(self.sum) as u32
    }

    /// Returns the limit of the requested connector at the current instant of the schedule
    /// compiler's sweep, with its cause.
    fn bound_here(&self) -> Bound
        requires ready { IsReadyCurve self.now }
        requires within { self.now.at ≤ self.now.last }
        ensures { result ≡ bound
            (point_state self.now.view) self.now.connector self.now.asked self.now.at }
    {
        let point = &self.bounds[0];
        if self.connector == 0 {
            point.or_sum(self.sum)
        } else {
            point.or_below(self.bounds[1].own_bound())
        }
    }

    /// Returns the requested connector's limit at the current instant of the schedule compiler's
    /// sweep, with its cause, and the connectors' shares if it is a sum. For `explain`, `check`,
    /// `call` and the status page.
    pub(crate) fn reason_here(&self, alloc: Global) -> Result<Reason, AllocError>
        requires ready { IsReadyCurve self.now }
        requires within { self.now.at ≤ self.now.last }
        ensures { IfOk result (λ found. found ≡ reason (point_state self.now.view)
            self.now.connector self.now.asked self.now.at) }
    {
        let bound = self.bound_here();
        let shares = match bound.cause {
            Cause::Sum => self.shares_here(alloc)?,
            _ => Shares::none(alloc),
        };
        Ok(Reason {
            limit: bound.limit,
            cause: bound.cause,
            shares,
        })
    }

    /// Returns each active connector's share in the sum at the current instant of the schedule
    /// compiler's sweep, in a request for the whole charge point.
    fn shares_here(&self, alloc: Global) -> Result<Shares, AllocError>
        requires ready { IsReadyCurve self.now }
        requires within { self.now.at ≤ self.now.last }
        requires whole { self.now.connector ≡ 0 }
        ensures { IfOk result (λ shares. shares ≡ shares_by Sum (point_state self.now.view)
            self.now.asked self.now.at) }
    {
        shares_of(alloc, &self.bounds)
    }

    /// Moves the schedule compiler's sweep to its next place, and returns that second. Up to there
    /// the limit and its reason are the same. Returns `None` if they are the same to the end.
    pub(crate) fn go_to_next(&mut self) -> Result<Option<u32>, Refusal>
        requires ready { IsReadyCurve self.old }
        requires within { self.old.at ≤ self.old.last }
        ensures limits { IfOk result (λ next. LeadsOn
            (limit_asked (point_state self.old.view) self.old.connector self.old.asked)
            (is_second_asked (point_state self.old.view) self.old.connector self.old.asked)
            (self.old.last + 1 - self.old.asked) (self.old.at - self.old.asked) next) }
        ensures reasons { IfOk result (λ next. LeadsOn
            (reason_asked (point_state self.old.view) self.old.connector self.old.asked)
            (is_second_asked (point_state self.old.view) self.old.connector self.old.asked)
            (self.old.last + 1 - self.old.asked) (self.old.at - self.old.asked) next) }
        ensures here { IfOk result
            (λ next. IfSome next (λ next. self.new.at - self.new.asked ≡ next)) }
        ensures ready { IfOk result (λ next. IfSome next (λ _. IsReadyCurve self.new)) }
        ensures same { IfOk result (λ _. IsOfOneAsk self.old self.new) }
        ensures cause { IfErr result (λ refusal. refusal ≡ OutOfMemory) }
    {
        let Some(next) = self.queue.soonest() else {
            return Ok(None);
        };
        self.go_to(next)?;
        let second = self.at.seconds() - self.asked.seconds();
        Ok(Some(second as u32))
    }

    /// Moves the schedule compiler's sweep to its next place: each installed profile whose limit
    /// can change there passes it.
    fn go_to(&mut self, next: Instant) -> Result<(), Refusal>
        requires ready { IsReadyCurve self.old }
        requires soonest { IsSoonestOf self.old.queue next }
        ensures ready { IfOk result (λ _. IsReadyCurve self.new) }
        ensures at { IfOk result (λ _. self.new.at ≡ next) }
        ensures same { IfOk result (λ _. IsOfOneAsk self.old self.new) }
        ensures cause { IfErr result (λ refusal. refusal ≡ OutOfMemory) }
    {
        self.at = next;
        while self.queue.soonest() == Some(next) {
            self.pass_soonest()?;
        }
        Ok(())
    }

    /// Moves the first installed profile whose limit can change at the current instant of the
    /// schedule compiler's sweep past that place, and updates the queue.
    fn pass_soonest(&mut self) -> Result<(), Refusal>
        requires swept { IsSweptCurve self.old }
        requires here { IsSoonestOf self.old.queue self.old.at }
        ensures swept { IfOk result (λ _. IsSweptCurve self.new) }
        ensures fewer { IfOk result (λ _. waiting_at self.new.at self.new.queue
            < waiting_at self.old.at self.old.queue) }
        ensures same { IfOk result (λ _. IsOfOneAsk self.old self.new) }
        ensures at { IfOk result (λ _. self.new.at ≡ self.old.at) }
        ensures cause { IfErr result (λ refusal. refusal ≡ OutOfMemory) }
    {
        let Some(due) = self.queue.first() else {
            return Ok(());
        };
        // Each row waits once, so this never holds: the test replaces a proof of that.
        if self.bounds[due.bound].due(due.row) != Some(due.instant) {
            self.queue.remove_first();
            return Ok(());
        }
        let next = pass_row(&mut self.bounds, &mut self.sum, due.bound, due.row)?;
        match next {
            Some(instant) => self.queue.replace_first(Due {
                instant,
                bound: due.bound,
                row: due.row,
            }),
            None => self.queue.remove_first(),
        }
        Ok(())
    }
}

/// Returns each connector's share in the sum that limits the whole charge point, at the current
/// instant of the schedule compiler's sweep. The connectors' bounds follow the first one, which is
/// the point's.
fn shares_of(alloc: Global, bounds: &[Bounded<'_>]) -> Result<Shares, AllocError>
    ensures { IfOk result (λ shares. shares ≡ shares_now bounds.now) }
{
    let mut shares = Vec::new(alloc);
    for index in 1..bounds.len() {
        shares.push(bounds[index].share())?;
    }
    Ok(Shares::new(shares))
}

/// Moves an installed profile past its next place in the schedule compiler's sweep, and updates the
/// sum of the connectors' limits. Returns the instant at which its limit can change again.
fn pass_row(
    bounds: &mut Vec<Bounded<'_>>,
    sum: &mut u64,
    bound: usize,
    row: usize,
) -> Result<Option<Instant>, Refusal>
    requires has_bound { bound < length bounds.old.items }
    requires has_row { row < row_count bounds.old.items bound }
    requires small { AllByRecursion
        (λ (one : RunningBound). one.ceiling < 2 ^ 32) bounds.old.items }
    requires few { length bounds.old.items ≤ 2 ^ 32 }
    requires sum { sum.old ≡ shared_now bounds.old.items }
    ensures passed { IfOk result (λ _. bounds.new.items ≡ passed_in bound row bounds.old.items) }
    ensures sum { IfOk result (λ _. sum.new ≡ shared_now bounds.new.items) }
    ensures next { IfOk result (λ next. next ≡ due_in bounds.new.items bound row) }
    ensures cause { IfErr result (λ refusal. refusal ≡ OutOfMemory) }
{
    // Only this row's limit changes: evaluating all rows would make the work at each place grow
    // with them.
    let before = bounds[bound].limit();
    bounds[bound].pass(row)?;
    // The first bound is that of the whole point, which isn't in the sum.
    if bound > 0 {
        let after = bounds[bound].limit();
        *sum = *sum - u64::from(before) + u64::from(after);
    }
    Ok(bounds[bound].due(row))
}

impl Curve for LimitCurve<'_> {
    ghost limits = { λ curve.
        limit_asked (point_state curve.view) curve.connector curve.asked };

    ghost is_place = { λ curve.
        is_second_asked (point_state curve.view) curve.connector curve.asked };

    ghost end = { λ curve. curve.last + 1 - curve.asked };

    ghost here = { λ curve. curve.at - curve.asked };

    ghost IsReady = { λ curve. IsReadyCurve curve };

    fn limit(&self, turns: &mut Turns) -> u32 {
        turns.limit_of(self)
    }

    fn go_on(&mut self) -> Result<Option<u32>, Refusal> {
        self.go_to_next()
    }
}
