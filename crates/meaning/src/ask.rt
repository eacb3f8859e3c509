//! Requests for a composite schedule.

ghost use Rattle.std.specs.Prelude.{◌≡◌, ◌+◌, ◌<◌, ◌≤◌, IfOk};
ghost use Rattle.ocpp_scalars.specs.Limits.{last_second};
ghost use Rattle.meaning.specs.Limits.{max_duration};

use ocpp_scalars::{Instant, LAST_SECOND, Refusal};

/// The longest duration that may be requested: 31 days, in seconds.
pub const MAX_DURATION: u32 = 2_678_400;

/// A GetCompositeSchedule request (chapter 5.7): for the limits of a connector, 0 for the whole
/// point, from a start on for a number of seconds, none of them past the last instant.
#[derive(Clone, Copy, PartialEq, Eq)]
pub struct Ask {
    pub connector: u32,
    pub start: Instant,
    /// Seconds.
    pub duration: u32,
    pub ghost some: { 0 < duration },
    pub ghost most: { duration ≤ max_duration },
    pub ghost within: { start + duration ≤ last_second + 1 },
}

impl Ask {
    ghost use Rattle.meaning.specs.Ask.{ask_of};

    /// Makes a request for a connector from a start on for a number of seconds. The refusals are
    /// `BadDuration`, for 0 and above `MAX_DURATION`, and then `PastCalendar`, if the last second
    /// is past the last instant.
    pub fn try_new(connector: u32, start: Instant, duration: u32) -> Result<Ask, Refusal>
        ensures made { result ≡ ask_of connector start duration }
        ensures fields { IfOk result
            (λ ask. (ask.connector ≡ connector) × (ask.start ≡ start) × (ask.duration ≡ duration)) }
    {
        if duration == 0 || duration > MAX_DURATION {
            return Err(Refusal::BadDuration);
        }
        if start.seconds() + u64::from(duration) > LAST_SECOND + 1 {
            return Err(Refusal::PastCalendar);
        }
        Ok(Ask {
            connector,
            start,
            duration,
        })
    }
}
