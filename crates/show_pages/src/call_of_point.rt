//! The unconfirmed calls of a charge point, and the progress of a call.

use messages::Call;
use site_core::Outbox;
use std::alloc::{AllocError, Global};

/// An unconfirmed call.
#[derive(Drop)]
pub struct WaitingCall {
    pub call: Call,
    /// Whether it went out over the point's current link.
    pub is_in_flight: bool,
}

/// Returns the unconfirmed calls of an outbox, in the order of their numbers.
pub fn waiting_calls(alloc: Global, outbox: &Outbox) -> Result<Vec<WaitingCall>, AllocError> {
    let mut number = outbox.first_number();
    let mut is_in_flight = outbox.is_in_flight();
    let mut calls = Vec::new(alloc);
    for body in outbox.bodies(alloc)? {
        calls.push(WaitingCall {
            call: Call { number, body },
            is_in_flight,
        })?;
        number = number.saturating_add(1);
        // One call at a time is in flight, and that is the first one.
        is_in_flight = false;
    }
    Ok(calls)
}

/// Returns the progress of the call of a number.
pub fn state_of_call(outbox: &Outbox, number: u64) -> &'static str {
    if number < outbox.first_number() {
        "confirmed"
    } else {
        state_name(outbox.is_in_flight() && number == outbox.first_number())
    }
}

/// Returns the progress of an unconfirmed call.
pub fn state_name(is_in_flight: bool) -> &'static str {
    if is_in_flight { "in flight" } else { "waiting" }
}
