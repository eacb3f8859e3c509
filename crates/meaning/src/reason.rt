//! The reason for the limit of a connector at an instant.

ghost use Rattle.std.specs.Prelude.{◌≡◌, ◌<◌, ◌≤◌, ◌^◌, true, IfOk, length, min, option_map};
ghost use Rattle.profile.specs.declared.purpose.Purpose.TheVariants.{ChargePointMaxProfile};
ghost use Rattle.meaning.specs.declared.cause.Cause.TheVariants.{PointCeiling, Sum};
ghost use Rattle.meaning.specs.View.{point_state};
ghost use Rattle.meaning.specs.Limit.{shared_limit};
ghost use Rattle.meaning.specs.Cause.{row_limit, prevailing_row, bound_of, lesser_of, own_bound, below_point, bound_by, reason, shares_by};
ghost use Rattle.meaning.specs.ByCases.Cause.{profile_limit_of, prevailing_profile_limit, transaction_profile_limit};

use crate::bound::{Bound, ProfileLimit, higher_level, lesser_of};
use crate::cause::{Cause, Reason, Share};
use crate::prevailing::has_its_transaction;
use crate::shares::Shares;
use crate::view::View;
use ocpp_scalars::Instant;
use profile::{Purpose, Row, is_candidate};
use std::alloc::{AllocError, Global};

/// Returns the limit of a connector at an instant with its cause, in a schedule requested from
/// `asked` on (chapter 3.13). Connector 0 is the whole point. If its cause is the sum, the shares
/// take memory.
pub fn reason_at(
    alloc: Global,
    view: &View<'_>,
    connector: u32,
    asked: Instant,
    instant: Instant,
) -> Result<Reason, AllocError>
    requires has_connector { connector ≤ length view.now.ceilings.now }
    requires numbered { length view.now.ceilings.now < 2 ^ 32 }
    ensures { IfOk result
        (λ found. found ≡ reason (point_state view.now) connector asked instant) }
{
    let bound = if connector == 0 {
        view.whole_bound(asked, instant)
    } else {
        let own = view.own_bound(connector as usize, asked, instant);
        view.below_point(own, asked, instant)
    };
    let shares = match bound.cause {
        Cause::Sum => view.shares(alloc, asked, instant)?,
        _ => Shares::none(alloc),
    };
    Ok(Reason {
        limit: bound.limit,
        cause: bound.cause,
        shares,
    })
}

impl View<'_> {
    /// Returns the limit of the whole charge point at an instant with its cause, definition by
    /// definition.
    fn whole_bound(&self, asked: Instant, instant: Instant) -> Bound
        ensures { result ≡ bound_by true (point_state self.now) 0 asked instant }
    {
        // Just above the ceiling: a sum that is greater isn't the least, so its value doesn't
        // matter.
        let most = u64::from(self.ceiling) + 1;
        let sum = self.shared_limit_up_to(most, asked, instant);
        if sum == most {
            // The sum is above the point's ceiling.
            return self.below_maximum(self.point_ceiling(), asked, instant);
        }
        let sum = Bound {
            limit: sum as u32,
            cause: Cause::Sum,
        };
        self.below_point(sum, asked, instant)
    }

    /// Returns the charge point's ceiling as a limit with its cause, for the definition of a
    /// limit's reason.
    fn point_ceiling(&self) -> Bound
        ensures { result ≡ bound_of PointCeiling self.now.ceiling }
    {
        Bound {
            limit: self.ceiling,
            cause: Cause::PointCeiling,
        }
    }

    /// Returns the least of the prevailing ChargePointMaxProfile, another limit and the charge
    /// point's ceiling at an instant with its cause, definition by definition.
    fn below_point(&self, bound: Bound, asked: Instant, instant: Instant) -> Bound
        ensures { result ≡ below_point (point_state self.now) asked instant bound }
    {
        self.below_maximum(bound.or_less(self.point_ceiling()), asked, instant)
    }

    /// Returns the least of the charge point's prevailing ChargePointMaxProfile and another limit
    /// at an instant with its cause, definition by definition.
    fn below_maximum(&self, bound: Bound, asked: Instant, instant: Instant) -> Bound
        ensures { result ≡ lesser_of
            (prevailing_row ChargePointMaxProfile (point_state self.now) 0 asked instant) bound }
    {
        let most = self.prevailing_profile(Purpose::ChargePointMaxProfile, 0, asked, instant);
        lesser_of(most, bound)
    }

    /// Returns a connector's own limit at an instant with its cause, definition by definition: the
    /// prevailing TxProfile or TxDefaultProfile, or the ceiling.
    fn own_bound(&self, connector: usize, asked: Instant, instant: Instant) -> Bound
        requires above { 0 < connector }
        requires has_connector { connector ≤ length self.now.ceilings.now }
        ensures { result ≡ own_bound (point_state self.now) connector asked instant }
    {
        let ceiling = Bound {
            limit: self.ceilings[connector - 1],
            cause: Cause::ConnectorCeiling,
        };
        lesser_of(self.transaction_profile(connector, asked, instant), ceiling)
    }

    /// Returns a connector's prevailing TxProfile at an instant, otherwise its prevailing
    /// TxDefaultProfile, with its limit, definition by definition.
    fn transaction_profile(
        &self,
        connector: usize,
        asked: Instant,
        instant: Instant,
    ) -> Option<ProfileLimit>
        ensures { result ≡ transaction_profile_limit
            (point_state self.now) connector asked instant }
    {
        match self.prevailing_profile(Purpose::TxProfile, connector, asked, instant) {
            Some(best) => Some(best),
            None => self.prevailing_profile(Purpose::TxDefaultProfile, connector, asked, instant),
        }
    }

    /// Returns the sum of the active connectors' own limits at an instant, but at most `most`. It
    /// is a limit of the whole charge point, in the definition of a limit's reason.
    fn shared_limit_up_to(&self, most: u64, asked: Instant, instant: Instant) -> u64
        requires few { most ≤ 4294967296 }
        ensures { result ≡ min most (shared_limit (point_state self.now) asked instant) }
    {
        let mut sum = 0;
        for index in 0..self.ceilings.len() {
            let connector = index + 1;
            if self.active_since(connector).is_some() {
                let own = self.own_bound(connector, asked, instant);
                sum = most.min(sum + u64::from(own.limit));
            }
        }
        sum
    }

    /// Returns the share of each active connector in the sum that limits the whole charge point at
    /// an instant, definition by definition.
    fn shares(&self, alloc: Global, asked: Instant, instant: Instant) -> Result<Shares, AllocError>
        requires numbered { length self.now.ceilings.now < 2 ^ 32 }
        ensures { IfOk result
            (λ shares. shares ≡ shares_by Sum (point_state self.now) asked instant) }
    {
        let mut shares = Vec::new(alloc);
        for index in 0..self.ceilings.len() {
            let connector = index + 1;
            if self.active_since(connector).is_some() {
                let own = self.own_bound(connector, asked, instant);
                shares.push(Share {
                    connector: connector as u32,
                    limit: own.limit,
                    cause: own.cause,
                })?;
            }
        }
        Ok(Shares::new(shares))
    }

    /// Returns the prevailing profile of a purpose (chapter 3.13) for a connector at an instant
    /// with its limit, definition by definition. `None` if no profile of that purpose has one.
    pub(crate) fn prevailing_profile(
        &self,
        purpose: Purpose,
        connector: usize,
        asked: Instant,
        instant: Instant,
    ) -> Option<ProfileLimit>
        ensures { result ≡ prevailing_profile_limit
            purpose (point_state self.now) connector asked instant }
    {
        if !has_its_transaction(purpose, self.active_since(connector)) {
            return None;
        }
        let mut best = None;
        for row in self.rows {
            if is_candidate(purpose, self.rows, connector, row) {
                best = higher_level(best, self.profile_limit(connector, asked, instant, row));
            }
        }
        best
    }

    /// Returns a row (an installed charging profile) with its limit for a connector at an instant,
    /// if it has one. For the definition of the profile that prevails.
    fn profile_limit(
        &self,
        connector: usize,
        asked: Instant,
        instant: Instant,
        row: &Row,
    ) -> Option<ProfileLimit>
        ensures { result ≡ option_map profile_limit_of
            (row_limit (point_state self.now) connector asked instant row.now) }
    {
        let base = row.base(self.active_since(connector), asked);
        let limit = row.profile.rate(base, instant)?;
        Some(ProfileLimit::of(row, limit))
    }
}
