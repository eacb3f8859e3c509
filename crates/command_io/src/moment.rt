//! The present moment.

use crate::program_fault::ProgramFault;
use ocpp_scalars::{Instant, Moments, SystemClock};
use std::rt::Clock;

/// Returns the present moment, by the system's clock.
pub fn now<R: Clock>(rt: &R) -> Result<Instant, ProgramFault> {
    match (SystemClock { rt }).now() {
        Some(now) => Ok(now),
        None => Err(ProgramFault::Clock),
    }
}
