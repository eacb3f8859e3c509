//! The numbers of calls to a point that wait and that are in flight.

ghost use Rattle.std.specs.Prelude.{◌≡◌};
ghost use Rattle.site_status.specs.Calls.{in_flight, in_flight_since, waiting};

use crate::point_activity::SentMoment;
use ocpp_scalars::Instant;
use site_core::Outbox;

/// Returns the number of calls to a point that are in flight: 0 or 1.
pub fn in_flight_calls(outbox: &Outbox) -> usize
    ensures { result ≡ in_flight outbox.now }
{
    if outbox.is_in_flight() { 1 } else { 0 }
}

/// Returns the number of waiting calls: those of the outbox without the one in flight.
pub fn waiting_calls(outbox: &Outbox) -> usize
    ensures { result ≡ waiting outbox.now }
{
    outbox.len().saturating_sub(in_flight_calls(outbox))
}

/// Returns since when a call to the point is in flight. Returns `None` if none is, or if the last
/// call known to be sent isn't that one.
pub fn in_flight_since(outbox: &Outbox, sent: Option<SentMoment>) -> Option<Instant>
    ensures { result ≡ in_flight_since outbox.now sent }
{
    let sent = sent?;
    // A call whose link is lost waits again: it was sent, but isn't in flight.
    if outbox.is_number_in_flight(sent.number) {
        Some(sent.moment)
    } else {
        None
    }
}
