//! A request for a schedule, with the intervals that answer it.

ghost use Rattle.std.specs.Prelude.{◌≡◌, ◌+◌, ◌<◌, ◌^◌};

use crate::known_profile::KnownProfile;
use meaning::{Ask, Cause, PrevailingProfile, View, WhyNot};
use profile::Unit;
use sweep_compiler::Interval;

/// A request for a point's schedule (chapter 5.7), with the intervals that answer it.
#[derive(Clone, Copy)]
pub struct ExplainedRequest<'a> {
    /// The identity of the charge point.
    pub point: &'a str,
    /// The unit of the site's limits.
    pub unit: Unit,
    pub ask: Ask,
    /// The point's profiles, ceilings and transactions.
    pub view: View<'a>,
    /// The intervals of the request, in order.
    pub intervals: &'a [Interval],
    /// The profiles that never set the limit in this time.
    pub not_counted: &'a [NotCounted],
    /// The known states of the profiles at their point. A cause names one that the point doesn't
    /// hold.
    pub known: &'a [KnownProfile<'a>],
}

/// A profile that never sets the limit, with the reason.
#[derive(Clone, Copy, PartialEq, Eq)]
pub struct NotCounted {
    pub profile: PrevailingProfile,
    pub reason: NotCountedReason,
}

/// The reason why a profile never sets the limit.
#[derive(Clone, Copy, PartialEq, Eq)]
pub enum NotCountedReason {
    /// It doesn't prevail, for the same reason at every second.
    NotPrevailing(WhyNot),
    /// It has no limit at any second, but not for one reason throughout.
    NoLimit,
    /// Whenever it has a limit, another profile takes precedence.
    BehindOthers,
    /// It prevails at some second, but another limit is as low or lower.
    NotLeast,
    /// The request is for the whole point, and no connector to which the profile applies has a
    /// transaction.
    NoActiveConnector,
}

impl ExplainedRequest<'_> {
    /// Returns the first second after the explained request, in seconds since 1970, for the pages
    /// of `explain`.
    pub(crate) fn end(&self) -> u64
        ensures value { result ≡ self.now.ask.start + self.now.ask.duration }
        ensures small { result < 2 ^ 40 }
    {
        self.ask.start.seconds() + u64::from(self.ask.duration)
    }

    /// Returns a second of the explained request, in seconds since 1970, for the pages of
    /// `explain`.
    pub(crate) fn moment(&self, second: u32) -> u64
        ensures value { result ≡ self.now.ask.start + second }
        ensures small { result < 2 ^ 40 }
    {
        self.ask.start.seconds() + u64::from(second)
    }

    /// Returns the first `most` intervals of the explained request, or all if there are fewer, for
    /// the pages of `explain`.
    pub(crate) fn first_intervals(&self, most: usize) -> &[Interval] {
        &self.intervals[..self.intervals.len().min(most)]
    }
}

/// Returns whether a profile sets the limit, or a share of it, in one of the intervals.
pub fn is_named(intervals: &[Interval], profile: PrevailingProfile) -> bool {
    let cause = Cause::Profile(profile);
    for interval in intervals {
        if interval.reason.cause == cause {
            return true;
        }
        for share in interval.reason.shares.as_slice() {
            if share.cause == cause {
                return true;
            }
        }
    }
    false
}
