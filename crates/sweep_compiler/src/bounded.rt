//! The bound of a connector, or of the whole point, on the way through a request.

ghost use Rattle.std.specs.Prelude.{◌≡◌, ◌<◌, ◌^◌, length, IfErr, IfOk};
ghost use Rattle.meaning.specs.declared.cause.Cause.TheVariants.{Sum};
ghost use Rattle.meaning.specs.Limit.{at_most};
ghost use Rattle.meaning.specs.Cause.{bound_of};
ghost use Rattle.ocpp_scalars.specs.declared.refusal.Refusal.TheVariants.{OutOfMemory};
ghost use Rattle.sweep_compiler.specs.ByCases.Running.{AreFalling, AreInForce, below_now, bound_now, bound_passed, due_at, first_profile_limit, own_bound_now, share_now};

use crate::run::Run;
use meaning::{Bound, Cause, ProfileLimit, Share, lesser_of};
use ocpp_scalars::{Instant, Refusal};
use stacking::InForce;
use std::alloc::Global;
use std::marker::Model;

/// A ceiling and rows by falling rank, each with its limit in force: the first that has one
/// prevails.
#[derive(Drop)]
pub(crate) struct Bounded<'a> {
    /// The connector, 0 for the whole point.
    connector: u32,
    runs: Vec<Run<'a>>,
    ceiling: u32,
    in_force: InForce,
}

impl<'a> Model for Bounded<'a> {
    ghost use Rattle.sweep_compiler.specs.ByCases.Running.{RunningBound, AreInForce};

    ghost Value = { RunningBound };

    ghost view = { λ b. record { connector = b.connector; ceiling = b.ceiling; runs = b.runs.items } };

    ghost invariant = { λ b. AreInForce b.runs.items b.in_force };
}

impl<'a> Bounded<'a> {
    /// Makes the bound (ceiling and profiles, by rank) of a connector or of the whole point, from
    /// which the schedule compiler's sweep starts. Puts the profiles' limits in force.
    pub(crate) fn new(
        alloc: Global,
        connector: u32,
        runs: Vec<Run<'a>>,
        ceiling: u32,
    ) -> Result<Bounded<'a>, Refusal>
        requires falling { AreFalling runs.items }
        ensures made { IfOk result (λ bounded. bounded ≡ record {
          connector = connector;
          ceiling = ceiling;
          runs = runs.entry.items;
        }) }
        ensures cause { IfErr result (λ refusal. refusal ≡ OutOfMemory) }
    {
        let in_force = rates_of(alloc, runs.as_slice())?;
        Ok(Bounded {
            connector,
            runs,
            ceiling,
            in_force,
        })
    }

    /// Returns the number of installed profiles in the bound of a connector or of the whole point,
    /// in the schedule compiler's sweep.
    pub(crate) fn len(&self) -> usize
        ensures { result ≡ length self.now.runs }
    {
        self.runs.len()
    }

    /// Returns the limit of a connector or of the whole point at the current instant of the
    /// schedule compiler's sweep: the lesser of its ceiling and the prevailing profile's limit.
    pub(crate) fn limit(&self) -> u32
        ensures { result ≡ bound_now self.now }
    {
        at_most(self.ceiling, self.in_force.top())
    }

    /// Returns the charging profile that prevails for a connector or the whole point, with its
    /// limit, at the current instant of the schedule compiler's sweep.
    fn prevailing(&self) -> Option<ProfileLimit>
        ensures { result ≡ first_profile_limit self.now.runs }
    {
        first_profile_limit(self.runs.as_slice())
    }

    /// Returns a connector's own limit at the current instant of the schedule compiler's sweep,
    /// with its cause: the prevailing charging profile or the ceiling.
    pub(crate) fn own_bound(&self) -> Bound
        ensures { result ≡ own_bound_now self.now }
    {
        let ceiling = Bound {
            limit: self.ceiling,
            cause: Cause::ConnectorCeiling,
        };
        lesser_of(self.prevailing(), ceiling)
    }

    /// Returns the connector's share in the sum of the active connectors' limits, at the current
    /// instant of the schedule compiler's sweep.
    pub(crate) fn share(&self) -> Share
        ensures { result ≡ share_now self.now }
    {
        let own = self.own_bound();
        Share {
            connector: self.connector,
            limit: own.limit,
            cause: own.cause,
        }
    }

    /// Returns the lesser of the whole charge point's limit and a given one, with its cause, at the
    /// current instant of the schedule compiler's sweep.
    pub(crate) fn or_below(&self, other: Bound) -> Bound
        ensures { result ≡ below_now self.now other }
    {
        let ceiling = Bound {
            limit: self.ceiling,
            cause: Cause::PointCeiling,
        };
        lesser_of(self.prevailing(), other.or_less(ceiling))
    }

    /// Returns the lesser of the whole charge point's limit and the connectors' sum, with its
    /// cause, at the current instant of the schedule compiler's sweep.
    pub(crate) fn or_sum(&self, sum: u64) -> Bound
        ensures { result ≡ below_now self.now (bound_of Sum sum) }
    {
        // A greater sum isn't the least, and may not fit a limit's 32 bits.
        if sum > u64::from(self.ceiling) {
            let ceiling = Bound {
                limit: self.ceiling,
                cause: Cause::PointCeiling,
            };
            return lesser_of(self.prevailing(), ceiling);
        }
        let shared = Bound {
            limit: sum as u32,
            cause: Cause::Sum,
        };
        self.or_below(shared)
    }

    /// Returns the next instant at which the limit of an installed profile can change, where the
    /// schedule compiler's sweep stops next for it.
    pub(crate) fn due(&self, index: usize) -> Option<Instant>
        requires within { index < length self.now.runs }
        ensures { result ≡ due_at self.now.runs index }
    {
        self.runs[index].due()
    }

    /// Moves an installed profile past the next instant of the schedule compiler's sweep at which
    /// its limit can change, and puts the new limit in force.
    pub(crate) fn pass(&mut self, index: usize) -> Result<(), Refusal>
        requires within { index < length self.old.runs }
        ensures passed { IfOk result (λ _. self.new ≡ bound_passed index self.old) }
        ensures cause { IfErr result (λ refusal. refusal ≡ OutOfMemory) }
    {
        let run = &self.runs[index];
        // Memory comes first, so that a refusal changes nothing.
        self.in_force.set(run.rank(), run.next_rate())?;
        self.runs[index].pass();
        Ok(())
    }
}

/// Returns the first installed profile, by falling rank, that has a limit at the current instant of
/// the schedule compiler's sweep, with that limit.
fn first_profile_limit(runs: &[Run<'_>]) -> Option<ProfileLimit>
    ensures { result ≡ first_profile_limit runs.now }
{
    for place in 0..runs.len() {
        let limit = runs[place].profile_limit();
        if limit.is_some() {
            return limit;
        }
    }
    None
}

/// Returns the limits of installed profiles at the current instant of the schedule compiler's
/// sweep, each at its rank by purpose and stack level.
fn rates_of(alloc: Global, runs: &[Run<'_>]) -> Result<InForce, Refusal>
    requires falling { AreFalling runs.now }
    ensures rates { IfOk result (λ rates. AreInForce runs.now rates) }
    ensures cause { IfErr result (λ refusal. refusal ≡ OutOfMemory) }
{
    let mut rates = InForce::new(alloc);
    // From the lowest rank, so that each rate is appended: from the highest, each insert would move
    // all others.
    let mut place = runs.len();
    while place > 0 {
        place -= 1;
        let run = &runs[place];
        rates.set(run.rank(), run.rate())?;
    }
    Ok(rates)
}

/// Returns the lesser of a ceiling and the prevailing charging profile's limit, if there is one, in
/// the schedule compiler's sweep.
fn at_most(limit: u32, other: Option<u32>) -> u32
    ensures { result ≡ at_most limit other }
{
    match other {
        Some(other) => limit.min(other),
        None => limit,
    }
}
