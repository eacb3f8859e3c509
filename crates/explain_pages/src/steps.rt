//! The limits of a profile or a schedule over time, step by step.

ghost use Rattle.std.specs.Prelude.{◌≤◌, IfOk, length};
ghost use Rattle.explain_pages.specs.Limits.{max_steps};

use crate::explained_request::ExplainedRequest;
use meaning::Ask;
use ocpp_scalars::Instant;
use profile::Profile;
use recurrence::{next_change, rate_at};
use std::alloc::{AllocError, Global};

/// The maximum number of steps of a profile's line.
// A Daily profile with 200 periods has some 1,400 steps a week; no file may grow without bound.
pub const MAX_STEPS: usize = 2_000;

/// The maximum number of intervals in a picture or a page.
pub const MAX_INTERVALS: usize = 20_000;

/// The limit from a second on, if there is one.
#[derive(Clone, Copy)]
pub(crate) struct LimitStep {
    /// Counted from the start of the request.
    pub(crate) second: u32,
    /// In tenths.
    pub(crate) limit: Option<u32>,
}

/// Limits over the time of a request, each up to the next.
#[derive(Drop)]
pub(crate) struct Steps {
    pub(crate) items: Vec<LimitStep>,
    /// The first second after the last step: the duration of the request, or less if the steps were
    /// cut.
    pub(crate) end: u32,
}

impl Steps {
    /// Returns whether any step of a line in `explain`'s picture has a limit.
    pub(crate) fn has_limit(&self) -> bool {
        self.items.iter().any(|step| step.limit.is_some())
    }
}

/// Returns the limits of a charging profile over the explained request, counted from a base, as the
/// steps of its line in `explain`'s picture.
pub(crate) fn profile_steps(
    alloc: Global,
    profile: &Profile,
    base: Instant,
    ask: &Ask,
) -> Result<Steps, AllocError>
    ensures bounded { IfOk result (λ steps. length steps.items.items ≤ max_steps) }
{
    let mut items = Vec::new(alloc);
    let mut instant = ask.start;
    for _ in 0..MAX_STEPS {
        items.push(LimitStep {
            second: second_of(ask, instant),
            limit: rate_at(profile, base, instant),
        })?;
        match next_change(profile, base, instant) {
            Some(next) if second_of(ask, next) < ask.duration => instant = next,
            _ => {
                return Ok(Steps {
                    items,
                    end: ask.duration,
                });
            }
        }
    }
    Ok(Steps {
        items,
        end: second_of(ask, instant),
    })
}

/// Returns the first instant of the request at which a profile has a limit, counted from a base.
/// `explain`'s pages give a reason as of it. If none of the first `MAX_STEPS` steps has one, it is
/// the request's start.
pub(crate) fn first_limit(profile: &Profile, base: Instant, ask: &Ask) -> Instant {
    let mut instant = ask.start;
    for _ in 0..MAX_STEPS {
        if rate_at(profile, base, instant).is_some() {
            return instant;
        }
        match next_change(profile, base, instant) {
            Some(next) if second_of(ask, next) < ask.duration => instant = next,
            _ => return ask.start,
        }
    }
    ask.start
}

/// Returns the second of the explained request at which an instant is, at most the request's
/// duration, for a line in `explain`'s picture.
fn second_of(ask: &Ask, instant: Instant) -> u32 {
    let second = instant.seconds().saturating_sub(ask.start.seconds());
    second.min(u64::from(ask.duration)) as u32
}

/// Returns the limits of an explained schedule's intervals, as the steps of the thick line in
/// `explain`'s picture.
pub(crate) fn interval_steps(
    alloc: Global,
    explained: &ExplainedRequest<'_>,
) -> Result<Steps, AllocError> {
    let mut items = Vec::new(alloc);
    for interval in explained.first_intervals(MAX_INTERVALS) {
        items.push(LimitStep {
            second: interval.start,
            limit: Some(interval.reason.limit),
        })?;
    }
    let end = match explained.intervals.get(MAX_INTERVALS) {
        Some(interval) => interval.start,
        None => explained.ask.duration,
    };
    Ok(Steps { items, end })
}
