//! The rows that count for a request, gathered once, at its start.

ghost use Rattle.std.specs.Prelude.{◌≡◌, ◌+◌, ◌<◌, ◌≤◌, ◌^◌, ◌++◌, length, map, is_some, IfErr, IfOk};
ghost use Rattle.ocpp_scalars.specs.declared.refusal.Refusal.TheVariants.{OutOfMemory};
ghost use Rattle.std.specs.List.{AllByRecursion};
ghost use Rattle.meaning.specs.View.{point_state, active_since};
ghost use Rattle.meaning.specs.Limit.{active_connectors};
ghost use Rattle.sweep_compiler.specs.Places.{looked_at};
ghost use Rattle.point_book.specs.Book.{state_of};
ghost use Rattle.profile.specs.declared.purpose.Purpose.TheVariants.{ChargePointMaxProfile, TxDefaultProfile, TxProfile};
ghost use Rattle.stacking.specs.ByCases.Candidates.{candidates_left};
ghost use Rattle.sweep_compiler.specs.ByCases.Running.{running_from, RunningBound};
ghost use Rattle.sweep_compiler.specs.ByCases.Swept.{AreRunsOf, IsPointAtStart, IsConnectorAtStart, IsWithConnector, AreConnectorsAtStart, AreAtStart, AreWaiting, IsCurveAtStart, row_count, shared_now};

use crate::bounded::Bounded;
use crate::limit_curve::LimitCurve;
use crate::queue::{Due, Queue};
use crate::run::Run;
use meaning::{View, has_its_transaction};
use ocpp_scalars::{Instant, Refusal};
use point_book::PointBook;
use profile::{Purpose, Row};
use stacking::Candidates;
use std::alloc::{AllocError, Global};

/// The book of a request, and its first and last instant.
#[derive(Clone, Copy)]
pub(crate) struct Gathering<'a> {
    pub alloc: Global,
    pub book: &'a PointBook,
    pub view: View<'a>,
    pub asked: Instant,
    pub last: Instant,
    pub ghost same: { point_state view ≡ state_of book.now },
    pub ghost numbered: { length view.ceilings.now < 2 ^ 32 },
}

impl<'a> Gathering<'a> {
    /// Returns the limit of a connector at the start of a request for a composite schedule, from
    /// where the schedule compiler's sweep goes on.
    pub(crate) fn curve(&self, connector: u32) -> Result<LimitCurve<'a>, Refusal>
        requires has_connector { connector ≤ length self.now.view.ceilings.now }
        requires short { self.now.last < self.now.asked + 2 ^ 32 }
        ensures curve { IfOk result (λ curve. IsCurveAtStart self.now.view connector
            self.now.asked self.now.last curve) }
        ensures cause { IfErr result (λ refusal. refusal ≡ OutOfMemory) }
    {
        let bounds = self.bounds(connector)?;
        let sum = shared(bounds.as_slice());
        let queue = queue_of(self.alloc, bounds.as_slice())?;
        Ok(LimitCurve {
            view: self.view,
            connector,
            asked: self.asked,
            last: self.last,
            at: self.asked,
            bounds,
            sum,
            queue,
        })
    }

    /// Returns the bound (ceiling and profiles) of the whole charge point, followed by that of each
    /// connector that a request to the schedule compiler covers.
    fn bounds(&self, connector: u32) -> Result<Vec<Bounded<'a>>, Refusal>
        requires has_connector { connector ≤ length self.now.view.ceilings.now }
        ensures bounds { IfOk result (λ bounds. AreAtStart (point_state self.now.view) connector
            self.now.asked self.now.last bounds.items) }
        ensures cause { IfErr result (λ refusal. refusal ≡ OutOfMemory) }
    {
        let mut bounds = self.looked(connector)?;
        bounds.insert(0, self.point()?)?;
        Ok(bounds)
    }

    /// Returns the bound (ceiling and profiles) of each connector that a request to the schedule
    /// compiler covers: the given one, or for 0 all active ones.
    fn looked(&self, connector: u32) -> Result<Vec<Bounded<'a>>, Refusal>
        requires has_connector { connector ≤ length self.now.view.ceilings.now }
        ensures looked { IfOk result (λ looked. AreConnectorsAtStart (point_state self.now.view)
            self.now.asked self.now.last (looked_at (point_state self.now.view) connector)
            looked.items) }
        ensures cause { IfErr result (λ refusal. refusal ≡ OutOfMemory) }
    {
        if connector == 0 {
            return self.active();
        }
        let mut looked = Vec::new(self.alloc);
        looked.push(self.connector(connector)?)?;
        Ok(looked)
    }

    /// Returns the bound (ceiling and profiles) of each connector with an active transaction, for
    /// the schedule compiler's schedule of the whole charge point.
    fn active(&self) -> Result<Vec<Bounded<'a>>, Refusal>
        ensures looked { IfOk result (λ looked. AreConnectorsAtStart (point_state self.now.view)
            self.now.asked self.now.last (active_connectors (point_state self.now.view))
            looked.items) }
        ensures cause { IfErr result (λ refusal. refusal ≡ OutOfMemory) }
    {
        let mut looked = Vec::new(self.alloc);
        for index in 0..self.view.ceilings.len() {
            self.add_active(&mut looked, index)?;
        }
        Ok(looked)
    }

    /// Adds the bound (ceiling and profiles) of the connector after the first `before`, if it has
    /// an active transaction. For the schedule compiler's schedule of the whole charge point.
    fn add_active(&self, looked: &mut Vec<Bounded<'a>>, before: usize) -> Result<(), Refusal>
        requires has_connector { before < length self.now.view.ceilings.now }
        ensures added { IfOk result (λ _. IsWithConnector
            (is_some (active_since (point_state self.now.view) (before + 1)))
            (point_state self.now.view) self.now.asked self.now.last (before + 1)
            looked.old.items looked.new.items) }
        ensures cause { IfErr result (λ refusal. refusal ≡ OutOfMemory) }
    {
        let connector = before + 1;
        if self.view.active_since(connector).is_some() {
            looked.push(self.connector(connector as u32)?)?;
        }
        Ok(())
    }

    /// Returns the bound of the whole charge point from which the schedule compiler's sweep starts:
    /// its ceiling, and its ChargePointMaxProfiles.
    fn point(&self) -> Result<Bounded<'a>, Refusal>
        ensures bound { IfOk result (λ bound.
            IsPointAtStart (point_state self.now.view) self.now.asked self.now.last bound) }
        ensures cause { IfErr result (λ refusal. refusal ≡ OutOfMemory) }
    {
        let runs = self.runs_of(Purpose::ChargePointMaxProfile, 0)?;
        Bounded::new(self.alloc, 0, runs, self.view.ceiling)
    }

    /// Returns the bound of a connector from which the schedule compiler's sweep starts: its
    /// ceiling, and the TxProfiles and TxDefaultProfiles that apply to it.
    fn connector(&self, connector: u32) -> Result<Bounded<'a>, Refusal>
        requires above { 0 < connector }
        requires has_connector { connector ≤ length self.now.view.ceilings.now }
        ensures bound { IfOk result (λ bound. IsConnectorAtStart (point_state self.now.view)
            self.now.asked self.now.last connector bound) }
        ensures cause { IfErr result (λ refusal. refusal ≡ OutOfMemory) }
    {
        let mut runs = self.runs_of(Purpose::TxProfile, connector)?;
        let mut default = self.runs_of(Purpose::TxDefaultProfile, connector)?;
        runs.append(&mut default)?;
        let ceiling = self.view.ceilings[connector as usize - 1];
        Bounded::new(self.alloc, connector, runs, ceiling)
    }

    /// Returns the installed profiles of a purpose that count for a connector, by falling stack
    /// level, each as it is where the schedule compiler's sweep starts.
    fn runs_of(&self, purpose: Purpose, connector: u32) -> Result<Vec<Run<'a>>, AllocError>
        ensures { IfOk result (λ runs. AreRunsOf purpose (point_state self.now.view) connector
            self.now.asked self.now.last runs.items) }
    {
        let mut runs = Vec::new(self.alloc);
        if !has_its_transaction(purpose, self.view.active_since(connector as usize)) {
            return Ok(runs);
        }
        let mut rows = self.book.candidates(purpose, connector);
        self.add(&mut runs, &mut rows, connector as usize)?;
        Ok(runs)
    }

    /// Adds the installed profiles that an iterator yields to those that count for a connector in
    /// the schedule compiler's sweep.
    fn add(
        &self,
        runs: &mut Vec<Run<'a>>,
        rows: &mut Candidates<'a>,
        connector: usize,
    ) -> Result<(), AllocError>
        ensures { IfOk result (λ _. runs.new.items ≡ runs.old.items ++ map
            (running_from (point_state self.now.view) connector self.now.asked self.now.last)
            (candidates_left rows.old)) }
    {
        while let Some(row) = rows.next() {
            runs.push(self.run(row, connector))?;
        }
        Ok(())
    }

    /// Returns an installed profile that counts for a connector, as it is where the schedule
    /// compiler's sweep starts.
    fn run(&self, row: &'a Row, connector: usize) -> Run<'a>
        ensures { result ≡ running_from (point_state self.now.view) connector
            self.now.asked self.now.last row.now }
    {
        let base = row.base(self.view.active_since(connector), self.asked);
        Run::new(row, base, self.asked, self.last)
    }
}

/// Returns the sum of the connectors' limits where the schedule compiler's sweep starts. Their
/// bounds (ceiling and profiles) follow the first one, which is the whole charge point's.
fn shared(bounds: &[Bounded<'_>]) -> u64
    requires small { AllByRecursion (λ (bound : RunningBound). bound.ceiling < 2 ^ 32) bounds.now }
    requires few { length bounds.now ≤ 2 ^ 32 }
    ensures { result ≡ shared_now bounds.now }
{
    let mut sum: u64 = 0;
    for index in 1..bounds.len() {
        sum += u64::from(bounds[index].limit());
    }
    sum
}

/// Makes the queue of the schedule compiler's sweep: the next place (change of its limit) of each
/// installed profile in some bounds.
fn queue_of(alloc: Global, bounds: &[Bounded<'_>]) -> Result<Queue, AllocError>
    ensures { IfOk result (λ queue. AreWaiting bounds.now (length bounds.now) 0 queue) }
{
    let mut queue = Queue::new(alloc);
    for bound in 0..bounds.len() {
        add_rows(&mut queue, bounds, bound)?;
    }
    Ok(queue)
}

/// Adds the next place (change of its limit) of each installed profile in a connector's or the
/// point's bound to the queue of the schedule compiler's sweep.
fn add_rows(queue: &mut Queue, bounds: &[Bounded<'_>], bound: usize) -> Result<(), AllocError>
    requires has_bound { bound < length bounds.now }
    requires before { AreWaiting bounds.now bound 0 queue.old }
    ensures { IfOk result (λ _. AreWaiting bounds.now (bound + 1) 0 queue.new) }
{
    for row in 0..bounds[bound].len() {
        add_row(queue, bounds, bound, row)?;
    }
    Ok(())
}

/// Adds the next place (change of its limit) of an installed profile, if it has one, to the queue
/// of the schedule compiler's sweep.
fn add_row(
    queue: &mut Queue,
    bounds: &[Bounded<'_>],
    bound: usize,
    row: usize,
) -> Result<(), AllocError>
    requires has_bound { bound < length bounds.now }
    requires has_row { row < row_count bounds.now bound }
    requires before { AreWaiting bounds.now bound row queue.old }
    ensures { IfOk result (λ _. AreWaiting bounds.now bound (row + 1) queue.new) }
{
    let Some(instant) = bounds[bound].due(row) else {
        return Ok(());
    };
    queue.push(Due {
        instant,
        bound,
        row,
    })?;
    Ok(())
}
