//! The trait of a clock, for the crates above.
use crate::instant::{Instant, LAST_SECOND};
use std::rt::Clock;
use std::time::{SystemTime, UNIX_EPOCH};

/// A source of the present moment.
pub trait Moments {
    /// Returns the present time, by which messages and journal lines are dated, in whole seconds.
    /// `None` if the clock can't be read.
    fn now(&self) -> Option<Instant>;
}

/// The system's clock, in whole seconds. A time before 1970 becomes the first instant, and one
/// after the last instant becomes the last.
#[derive(Clone, Copy)]
pub struct SystemClock<R> {
    pub rt: R,
}

impl<R: Clock> Moments for SystemClock<R> {
    fn now(&self) -> Option<Instant> {
        let now = SystemTime::now(&self.rt).ok()?;
        match now.duration_since(UNIX_EPOCH) {
            Ok(since) => Instant::try_new(since.as_secs().min(LAST_SECOND)),
            Err(_) => Instant::try_new(0),
        }
    }
}
