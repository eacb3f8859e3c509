//! How long each reason why a profile doesn't prevail continues to hold.

ghost use Rattle.std.specs.Prelude.{◌≡◌, ◌+◌, ◌-◌, ◌<◌, true, Some, None, IfSome, is_some, if◌then◌else◌};
ghost use Rattle.ocpp_scalars.specs.Limits.{last_second};
ghost use Rattle.profile.specs.ChargingProfile.{anchor, offset, rate, is_before};
ghost use Rattle.profile.specs.Row.{base};
ghost use Rattle.meaning.specs.View.{point_state, active_since};
ghost use Rattle.meaning.specs.Cause.{prevailing_row};
ghost use Rattle.meaning.specs.WhyNot.{is_elsewhere, lacks_transaction, is_hidden};
ghost use Rattle.meaning.specs.declared.cause.WhyNot.TheVariants.{PastDuration, BeforeFirstPeriod, BelowHigherLevel, BehindTxProfile};
ghost use Rattle.explain_pages.specs.ByCases.Throughout.{IsSoUntil, Holds, Reaches};

use crate::row_at_connector::RowAtConnector;
use meaning::has_its_transaction;
use ocpp_scalars::{Instant, LAST_SECOND};
use profile::{Kind, Profile, Purpose, Row, is_candidate};
use recurrence::{next_change, rate_at};

/// The first second after the last instant.
const END_OF_TIME: u64 = LAST_SECOND + 1;

impl RowAtConnector<'_> {
    /// Returns whether an installed profile is at another connector than the one for which it is
    /// checked. `explain`'s pages may give this as the reason why the profile never sets the limit.
    pub(crate) fn is_elsewhere(&self) -> bool
        ensures { result ≡ is_elsewhere self.now.row.now.profile.purpose self.now.at
            self.now.row.now.connector }
    {
        let stands_at = self.row.connector as usize;
        match self.row.profile.purpose {
            Purpose::ChargePointMaxProfile => stands_at != 0,
            Purpose::TxDefaultProfile => stands_at != self.at && stands_at != 0,
            Purpose::TxProfile => stands_at != self.at,
        }
    }

    /// Returns whether an installed profile needs a transaction and there is none. `explain`'s
    /// pages may give this as the reason why the profile never sets the limit.
    pub(crate) fn lacks_transaction(&self) -> bool
        ensures { result
            ≡ lacks_transaction (point_state self.now.view) self.now.at self.now.row.now }
    {
        matches!(self.row.profile.purpose, Purpose::TxProfile)
            && self.view.active_since(self.at).is_none()
    }

    /// Returns whether a TxDefaultProfile at connector 0 is hidden by the connector's own one at
    /// that stack level. `explain`'s pages may give this as the reason why it never sets the limit.
    pub(crate) fn is_hidden(&self) -> bool
        ensures { result ≡ true
            → is_hidden (point_state self.now.view) self.now.at self.now.row.now ≡ true }
    {
        self.row.connector == 0
            && self.at != 0
            && matches!(self.row.profile.purpose, Purpose::TxDefaultProfile)
            && !is_candidate(Purpose::TxDefaultProfile, self.view.rows, self.at, self.row)
    }

    /// Returns the instant from which an installed profile's schedule counts if it has no start of
    /// its own. The reasons on `explain`'s pages why it never sets the limit need it.
    pub(crate) fn base_of(&self, row: &Row) -> Instant
        ensures { result ≡ base row.now (active_since (point_state self.now.view) self.now.at)
            self.now.ask.start }
    {
        row.base(self.view.active_since(self.at), self.ask.start)
    }

    /// Returns the start of an installed profile's schedule, for the reasons on `explain`'s pages
    /// why the profile never sets the limit.
    pub(crate) fn anchor(&self) -> Instant
        ensures { result ≡ anchor self.now.row.now.profile (base self.now.row.now
            (active_since (point_state self.now.view) self.now.at) self.now.ask.start) }
    {
        self.row.profile.anchor(self.base_of(self.row))
    }

    /// Returns the instant until which an installed profile's schedule stays past its duration, if
    /// it is so at `instant`. `explain`'s pages may give this as the reason why it never sets the
    /// limit.
    pub(crate) fn over_until(&self, instant: Instant) -> Option<u64>
        ensures { IfSome result (IsSoUntil (Holds PastDuration self.now) instant) }
    {
        let profile = &self.row.profile;
        let base = self.base_of(self.row);
        let offset = profile.offset(base, instant)?;
        let duration = profile.schedule.duration?;
        if offset < u64::from(duration) {
            return None;
        }
        Some(counts_on_until(profile, base, instant, offset))
    }

    /// Returns the instant until which no period of an installed profile has begun, if none has at
    /// `instant`. `explain`'s pages may give this as the reason why it never sets the limit.
    pub(crate) fn ahead_until(&self, instant: Instant) -> Option<u64>
        ensures { IfSome result (IsSoUntil (Holds BeforeFirstPeriod self.now) instant) }
    {
        let profile = &self.row.profile;
        let base = self.base_of(self.row);
        let offset = profile.offset(base, instant)?;
        let periods = &profile.schedule.periods;
        let first = u64::from(periods.as_slice()[0].start);
        if first <= offset {
            return None;
        }
        let turn = counts_on_until(profile, base, instant, offset);
        let until = turn.min(instant.seconds().saturating_add(first - offset));
        // No period has begun at the last of these seconds, so none has at an earlier one.
        match periods.limit_in_force(offset + (until - 1 - instant.seconds())) {
            None => Some(until),
            Some(_) => None,
        }
    }

    /// Returns the instant until which a profile of the same purpose and a higher stack level
    /// precedes an installed one, if one does. `explain`'s pages may say that the latter never sets
    /// the limit because of it.
    pub(crate) fn above_until(&self, instant: Instant) -> Option<u64>
        ensures { IfSome result (IsSoUntil (Holds BelowHigherLevel self.now) instant) }
    {
        let profile = &self.row.profile;
        self.other_until(profile.purpose, profile.stack_level + 1, instant)
    }

    /// Returns the instant until which a TxProfile with a limit precedes an installed
    /// TxDefaultProfile, if one does. `explain`'s pages may say that the latter never sets the
    /// limit because of it.
    pub(crate) fn tx_until(&self, instant: Instant) -> Option<u64>
        ensures { IfSome result (IsSoUntil (Holds BehindTxProfile self.now) instant) }
    {
        match self.row.profile.purpose {
            Purpose::TxDefaultProfile => self.other_until(Purpose::TxProfile, 0, instant),
            Purpose::ChargePointMaxProfile | Purpose::TxProfile => None,
        }
    }

    /// Returns the instant until which a profile of a purpose at the stack level `least` or above
    /// has a limit, if one has. It may precede one that, by `explain`'s pages, never sets the
    /// limit.
    fn other_until(&self, purpose: Purpose, least: u32, instant: Instant) -> Option<u64>
        ensures { IfSome result (IsSoUntil (λ k. Reaches least (prevailing_row purpose
            (point_state self.now.view) self.now.at self.now.ask.start k)) instant) }
    {
        if !has_its_transaction(purpose, self.view.active_since(self.at)) {
            return None;
        }
        for row in self.view.rows {
            if row.profile.stack_level >= least {
                let base = self.base_of(row);
                if rate_at(&row.profile, base, instant).is_some()
                    && is_candidate(purpose, self.view.rows, self.at, row)
                {
                    return Some(limit_until(&row.profile, base, instant));
                }
            }
        }
        None
    }
}

/// Returns the instant until which a reason on `explain`'s pages holds, why a profile never sets
/// the limit. It is the end of time if the reason always holds, and `None` if it never does.
pub(crate) fn always(holds: bool) -> Option<u64>
    ensures { result ≡ (if holds then Some (last_second + 1) else None) }
{
    if holds { Some(END_OF_TIME) } else { None }
}

/// Returns the seconds of a profile's `validFrom` or schedule start if that is still to come.
/// `explain`'s pages may give this as the reason why the profile never sets the limit.
pub(crate) fn before(bound: Option<Instant>, instant: Instant) -> Option<u64>
    ensures { IfSome result (λ until. (instant < until) × (bound ≡ Some until)) }
{
    let bound = bound?;
    if instant < bound {
        Some(bound.seconds())
    } else {
        None
    }
}

/// Returns the instant until which a profile keeps the limit that it has at `instant`, or keeps
/// having none. The reasons on `explain`'s pages why a profile never sets the limit need it.
pub(crate) fn rate_until(profile: &Profile, base: Instant, instant: Instant) -> u64
    ensures { IsSoUntil
        (λ k. rate profile.now base k ≡ rate profile.now base instant) instant result }
{
    match next_change(profile, base, instant) {
        Some(next) => next.seconds(),
        None => END_OF_TIME,
    }
}

/// Returns an instant until which a profile with a limit keeps having one, though it may for
/// longer. The reasons on `explain`'s pages why another never sets the limit need it.
fn limit_until(profile: &Profile, base: Instant, instant: Instant) -> u64
    requires { is_some (rate profile.now base instant) ≡ true }
    ensures { IsSoUntil (λ k. is_some (rate profile.now base k) ≡ true) instant result }
{
    // Without a gap or an end the schedule has a limit for as long as it is valid. Going from
    // change to change would take a step for each period.
    if profile.schedule.duration.is_none() && profile.schedule.periods.as_slice()[0].start == 0 {
        return valid_until(profile, instant);
    }
    rate_until(profile, base, instant)
}

/// Returns the end of the validity of a profile that is valid at an instant: its `validTo`, or the
/// end of time. Until then it may keep another profile from setting the limit, which the pages of
/// `explain` show.
fn valid_until(profile: &Profile, instant: Instant) -> u64
    requires { is_before instant profile.now.valid_to ≡ true }
    ensures { IsSoUntil (λ k. is_before k profile.now.valid_to ≡ true) instant result }
{
    match profile.valid_to {
        Some(to) => to.seconds(),
        None => END_OF_TIME,
    }
}

/// Returns the instant until which a schedule counts on from its offset at `instant`; a recurring
/// one then begins again. The reasons on `explain`'s pages why a profile never sets the limit need
/// it.
fn counts_on_until(profile: &Profile, base: Instant, instant: Instant, at: u64) -> u64
    requires { offset profile.now base instant ≡ Some at }
    ensures { IsSoUntil
        (λ k. offset profile.now base k ≡ Some (at + (k - instant))) instant result }
{
    match profile.kind {
        // A recurring schedule then counts from 0 again.
        Kind::Recurring(recurrency) => instant.seconds() + (recurrency.length() - at),
        Kind::Absolute | Kind::Relative => END_OF_TIME,
    }
}
