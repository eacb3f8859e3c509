//! Instants, in whole seconds.
ghost use Rattle.std.specs.Prelude.{◌≡◌, ℕ, ◌+◌, ◌≤◌, ◌↔◌, IsSome, IfSome};
ghost use Rattle.ocpp_scalars.specs.Limits.{last_second};

use std::marker::Model;

/// The last second of the year 9999, in seconds since 1970-01-01T00:00:00Z.
pub const LAST_SECOND: u64 = 253_402_300_799;

/// A moment: whole seconds since 1970-01-01T00:00:00Z, from 0 to `LAST_SECOND` (RFC 3339's
/// calendar, without leap seconds).
#[derive(Clone, Copy, PartialEq, Eq, PartialOrd, Ord)]
pub struct Instant {
    seconds: u64,
}

impl Model for Instant {
    ghost Value = { ℕ };

    ghost view = { λ i. i.seconds };

    ghost invariant = { λ i. i.seconds ≤ last_second };

    ghost inverse = { λ n. record { seconds = n } };
}

impl Instant {
    /// Returns the instant of a number of seconds, or `None` past `LAST_SECOND`.
    pub fn try_new(seconds: u64) -> Option<Instant>
        ensures valid { IsSome result ↔ (seconds ≤ last_second) }
        ensures value { IfSome result (λ i. i ≡ seconds) }
    {
        if seconds <= LAST_SECOND {
            Some(Instant { seconds })
        } else {
            None
        }
    }

    /// Returns the seconds since 1970-01-01T00:00:00Z.
    pub fn seconds(self) -> u64
        ensures value { result ≡ self }
        ensures last { self ≤ last_second }
    {
        self.seconds
    }

    /// Returns the instant that is `seconds` later.
    pub fn plus(self, seconds: u64) -> Instant
        requires { self + seconds ≤ last_second }
        ensures { result ≡ self + seconds }
    {
        Instant {
            seconds: self.seconds + seconds,
        }
    }
}
