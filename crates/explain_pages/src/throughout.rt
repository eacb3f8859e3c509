//! How long a reason continues to hold for a row at a connector.

ghost use Rattle.std.specs.Prelude.{IfSome, MatchOption};
ghost use Rattle.explain_pages.specs.declared.explained_request.NotCountedReason.TheVariants.{NoLimit, BehindOthers};
ghost use Rattle.explain_pages.specs.ByCases.Throughout.{IsSoUntil, Holds, Says, Fails, FirstFailing};

use crate::explained_request::NotCountedReason;
use crate::holding::{always, before, rate_until};
use crate::row_at_connector::RowAtConnector;
use meaning::{WhyNot, why_not};
use ocpp_scalars::Instant;
use recurrence::rate_at;

impl RowAtConnector<'_> {
    /// Returns the first second of the request at which a reason why a profile never sets the limit
    /// fails, if any, for `explain`'s pages. Where `BehindOthers` fails, the profile prevails.
    pub(crate) fn first_failing(&self, reason: NotCountedReason) -> Option<Instant>
        ensures { FirstFailing reason self.now result }
    {
        let end = self.ask.start.seconds() + u64::from(self.ask.duration);
        let mut instant = self.ask.start;
        while instant.seconds() < end {
            let Some(until) = self.says_until(reason, instant) else {
                return Some(instant);
            };
            // The reason holds up to the end of the calendar.
            let Some(next) = Instant::try_new(until) else {
                return None;
            };
            instant = next;
        }
        None
    }

    /// Returns the instant until which a reason why a profile never sets the limit holds, for
    /// `explain`'s pages, if it holds at `instant`.
    fn says_until(&self, reason: NotCountedReason, instant: Instant) -> Option<u64>
        ensures { MatchOption result (Fails reason self.now instant)
            (IsSoUntil (Says reason self.now) instant) }
    {
        match reason {
            NotCountedReason::NotPrevailing(why) => self.holds_until(why, instant),
            NotCountedReason::NoLimit => self.no_limit_until(instant),
            NotCountedReason::BehindOthers => self.behind_until(instant),
            // Neither of these makes a claim about each second.
            NotCountedReason::NotLeast | NotCountedReason::NoActiveConnector => None,
        }
    }

    /// Returns the instant until which an installed profile has no limit, if it has none at
    /// `instant`. `explain`'s pages may give this as the reason why it never sets the limit.
    fn no_limit_until(&self, instant: Instant) -> Option<u64>
        ensures { IfSome result (IsSoUntil (Says NoLimit self.now) instant) }
    {
        let base = self.base_of(self.row);
        match rate_at(&self.row.profile, base, instant) {
            None => Some(rate_until(&self.row.profile, base, instant)),
            Some(_) => None,
        }
    }

    /// Returns the instant until which an installed profile has no limit or others precede it, or
    /// `None` if it prevails at `instant`. `explain`'s pages may give this as the reason why it
    /// never sets the limit.
    fn behind_until(&self, instant: Instant) -> Option<u64>
        ensures { MatchOption result (Fails BehindOthers self.now instant)
            (IsSoUntil (Says BehindOthers self.now) instant) }
    {
        if let Some(until) = self.no_limit_until(instant) {
            return Some(until);
        }
        if let Some(until) = self.others_until(instant) {
            return Some(until);
        }
        match why_not(
            &self.view,
            self.connector,
            self.ask.start,
            instant,
            self.place,
        ) {
            // Nothing is known of how long this reason holds, so the next second is checked again.
            Some(_) => Some(instant.seconds() + 1),
            None => None,
        }
    }

    /// Returns the instant until which a reason holds for which others precede an installed
    /// profile, if one holds at `instant`. `explain`'s pages may say that the profile never sets
    /// the limit because of it.
    fn others_until(&self, instant: Instant) -> Option<u64>
        ensures { IfSome result (IsSoUntil (Says BehindOthers self.now) instant) }
    {
        if let Some(until) = self.holds_until(WhyNot::Hidden, instant) {
            return Some(until);
        }
        if let Some(until) = self.holds_until(WhyNot::BelowHigherLevel, instant) {
            return Some(until);
        }
        self.holds_until(WhyNot::BehindTxProfile, instant)
    }

    /// Returns the instant until which a reason why an installed profile doesn't prevail holds, if
    /// it holds at `instant`. `explain`'s pages may say that the profile never sets the limit
    /// because of it.
    fn holds_until(&self, why: WhyNot, instant: Instant) -> Option<u64>
        ensures { IfSome result (IsSoUntil (Holds why self.now) instant) }
    {
        match why {
            WhyNot::OtherConnector => always(self.is_elsewhere()),
            WhyNot::NoTransaction => always(self.lacks_transaction()),
            WhyNot::Hidden => always(self.is_hidden()),
            WhyNot::NotYetValid => before(self.row.profile.valid_from, instant),
            WhyNot::NoLongerValid => {
                always(self.row.profile.valid_to.is_some_and(|to| to <= instant))
            }
            WhyNot::BeforeAnchor => before(Some(self.anchor()), instant),
            WhyNot::PastDuration => self.over_until(instant),
            WhyNot::BeforeFirstPeriod => self.ahead_until(instant),
            WhyNot::BelowHigherLevel => self.above_until(instant),
            WhyNot::BehindTxProfile => self.tx_until(instant),
        }
    }
}
