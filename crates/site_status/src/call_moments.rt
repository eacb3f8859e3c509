//! The moments at which the calls to a point were added.

ghost use Rattle.std.specs.Prelude.{◌≡◌, None};
ghost use Rattle.site_status.specs.Calls.{waiting};

use crate::calls::{in_flight_calls, waiting_calls};
use ocpp_scalars::Instant;
use site_core::Outbox;
use std::alloc::{AllocError, Global};

/// The numbers of the calls to a point that it hasn't confirmed: from `first` up to, but not
/// including, `next`, the number of the next one to be added.
#[derive(Clone, Copy, PartialEq, Eq)]
pub struct CallNumbers {
    pub first: u64,
    pub next: u64,
}

/// The moments at which the unconfirmed calls to a point were added.
#[derive(Drop)]
pub struct CallMoments {
    /// In the order of the calls' numbers.
    added: Vec<SeenCalls>,
}

/// Calls that were first seen at the same moment.
#[derive(Clone, Copy)]
struct SeenCalls {
    /// The number after that of the last one.
    next: u64,
    moment: Instant,
}

impl CallNumbers {
    /// Returns the numbers of an outbox's calls.
    pub fn of(outbox: &Outbox) -> CallNumbers {
        CallNumbers {
            first: outbox.first_number(),
            next: outbox.next_number(),
        }
    }
}

impl CallMoments {
    /// Returns no moments: no call was seen yet.
    pub fn new(alloc: Global) -> CallMoments {
        CallMoments {
            added: Vec::new(alloc),
        }
    }

    /// Records the calls that the point has at a moment: those that weren't seen before were added
    /// then. If memory runs out, they are seen the next time.
    pub fn see(&mut self, calls: CallNumbers, moment: Instant) -> Result<(), AllocError> {
        let CallNumbers { first, next } = calls;
        self.added.retain(|added| added.next > first);
        let seen = match self.added.last() {
            Some(added) => added.next,
            None => first,
        };
        if seen < next {
            self.added.push(SeenCalls { next, moment })?;
        }
        Ok(())
    }

    /// Returns when the call was added that waits longest, which is the first of the waiting ones.
    /// Returns `None` if none waits.
    pub fn waiting_since(&self, outbox: &Outbox) -> Option<Instant>
        ensures { waiting outbox.now ≡ 0 → result ≡ None }
    {
        if waiting_calls(outbox) == 0 {
            return None;
        }
        // The first call of an outbox may be in flight, and then the next one waits longest.
        let number = outbox
            .first_number()
            .saturating_add(in_flight_calls(outbox) as u64);
        let added = self.added.iter().find(|added| number < added.next)?;
        Some(added.moment)
    }
}
