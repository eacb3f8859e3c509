//! Reports of connections: those that get no session, and those of operators.

use crate::handshake::{ClientRequest, HandshakeFailure};
use crate::request_words::{push_path, said_of_operator};
use crate::seats::Seats;
use std::alloc::{AllocError, Global};
use std::net::SocketAddr;
use std::rt::Clock;
use std::sync::Wait;

/// Reports and counts a connection that wasn't let in. A handshake that failed by itself, as that
/// of a port probe, is not reported.
pub fn note_handshake_failure<R: Wait + Clock>(
    seats: &Seats<R>,
    unshaken: HandshakeFailure,
    from: Option<SocketAddr>,
) {
    if let HandshakeFailure::Refused(said) = unshaken {
        note_refused(seats, from, said);
    }
}

/// Reports and counts a connection that was closed because the site has no point of its path, or
/// because its client didn't offer OCPP 1.6.
pub fn note_unknown<R: Wait + Clock>(
    seats: &Seats<R>,
    asked: &ClientRequest,
    from: Option<SocketAddr>,
) {
    let mut what = String::new(seats.alloc);
    let pushed = push_unknown(&mut what, asked);
    note_refused(seats, from, pushed.map(|()| what));
}

/// Reports that an operator has connected, with its address and user.
pub fn note_operator<R: Wait + Clock>(
    seats: &Seats<R>,
    asked: &ClientRequest,
    from: Option<SocketAddr>,
) {
    let what = said_of_operator(seats.alloc, asked.path.as_str(), &asked.user);
    say_from(seats, from, what);
}

/// Appends, for the server's log, why a connection is refused after its handshake: no such point or
/// no OCPP 1.6, with its path.
fn push_unknown(what: &mut String, asked: &ClientRequest) -> Result<(), AllocError> {
    what.push_str(if asked.offers_ocpp {
        "refused, no such point: "
    } else {
        "refused, no subprotocol ocpp1.6: "
    })?;
    push_path(what, asked.path.as_str())
}

/// Counts a connection that the server refused, for the status of the site, and reports it in the
/// server's log.
fn note_refused<R: Wait + Clock>(
    seats: &Seats<R>,
    from: Option<SocketAddr>,
    what: Result<String, AllocError>,
) {
    seats.watch.refuse(&seats.rt);
    say_from(seats, from, what);
}

/// Reports an event of the connecting client with this address in the server's log.
fn say_from<R: Wait + Clock>(
    seats: &Seats<R>,
    from: Option<SocketAddr>,
    what: Result<String, AllocError>,
) {
    let who = name_of(seats.alloc, from);
    match who {
        Ok(who) => seats
            .notices
            .say_made(&seats.rt, &seats.clock, who.as_str(), what),
        Err(AllocError) => seats
            .notices
            .say_made(&seats.rt, &seats.clock, "somebody", what),
    }
}

/// Returns the text of a connecting client's address in a line of the server's log.
fn name_of(alloc: Global, from: Option<SocketAddr>) -> Result<String, AllocError> {
    match from {
        Some(from) => format!(in alloc; "{from}"),
        None => String::from_str(alloc, "somebody"),
    }
}
