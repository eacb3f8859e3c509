//! The start of the explained schedule.

ghost use Rattle.std.specs.Prelude.{◌≡◌};
ghost use Rattle.jobs.specs.Start.{named_instant, start_of};

use ocpp_scalars::{Instant, InstantFault, read_instant};

/// The start of the explained schedule.
#[derive(Clone, Copy, PartialEq, Eq)]
pub enum Start {
    /// The present moment.
    Now,
    /// This instant.
    At(Instant),
}

impl Start {
    /// Reads a text: `now`, or an instant as `read_instant` reads it, with its faults.
    pub fn of(text: &str) -> Result<Start, InstantFault>
        ensures { result ≡ start_of text.now }
    {
        if text == "now" {
            return Ok(Start::Now);
        }
        match read_instant(text) {
            Ok(instant) => Ok(Start::At(instant)),
            Err(fault) => Err(fault),
        }
    }

    /// Returns the named instant, or None for the present moment.
    pub fn named(self) -> Option<Instant>
        ensures { result ≡ named_instant self }
    {
        match self {
            Start::Now => None,
            Start::At(instant) => Some(instant),
        }
    }
}
