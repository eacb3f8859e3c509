//! Accepts connections: each gets a free seat, or the answer that there is none.

use crate::seats::Seats;
use crossbeam_channel::Sender;
use server_core::LineThrottle;
use std::io::{Read, Write};
use std::net::{Shutdown, TcpListener, TcpStream};
use std::rt::Clock;
use std::sync::Wait;
use std::thread;
use std::time::Duration;

/// The pause after a connection couldn't be accepted, as for lack of file descriptors, in
/// milliseconds.
const PAUSE: u64 = 100;

/// The number of checks whether the seat of a handshake that gave way is free.
const LOOKS: u32 = 50;

/// The pause before each of these checks, in milliseconds.
const LOOK: u64 = 2;

/// The line for people when no seat is free.
const FULL: &str = "all are taken: connections are turned away (HTTP 503)";

/// The response to a connection for which there is no seat.
const NO_SEAT: &[u8] =
    b"HTTP/1.1 503 Service Unavailable\r\nConnection: close\r\nContent-Length: 0\r\n\r\n";

/// Accepts connections forever, and sends each to a free seat. If none is free, refuses and closes
/// the connection.
pub fn accept_connections<R: Wait + Clock>(
    seats: &Seats<R>,
    listener: &TcpListener,
    streams: &Sender<TcpStream>,
) {
    let rt = &seats.rt;
    let (mut full, mut failed) = (LineThrottle::new(), LineThrottle::new());
    for _connection in rt.forever() {
        let Some(stream) = accept_next(seats, listener, &mut failed) else {
            continue;
        };
        if take_seat(seats) {
            // A seat waits for the stream, so the bounded channel has room and this doesn't block.
            if streams.send(rt, stream).is_err() {
                return;
            }
        } else {
            refuse(stream);
            seats.watch.turn_away(rt);
            say_full(seats, &mut full);
        }
    }
}

/// Takes a seat of the server for a new connection, and returns whether it got one. If none is
/// free, the oldest handshake gives way, once it has had its time.
fn take_seat<R: Wait + Clock>(seats: &Seats<R>) -> bool {
    let rt = &seats.rt;
    if seats.free.take(rt) {
        return true;
    }
    // A handshake gives way and no session, whose end would cost its client the link.
    if !seats.handshakes.shut_longest(rt) {
        return false;
    }
    seats.watch.refuse(rt);
    // The seat is free only when its thread has noticed that the stream is shut.
    for _look in 0..LOOKS {
        thread::sleep(rt, Duration::from_millis(LOOK));
        if seats.free.take(rt) {
            return true;
        }
    }
    false
}

/// Accepts the server's next connection. Returns none after a pause if it couldn't be accepted: a
/// file descriptor may be free then.
fn accept_next<R: Wait + Clock>(
    seats: &Seats<R>,
    listener: &TcpListener,
    failed: &mut LineThrottle,
) -> Option<TcpStream> {
    match listener.accept() {
        Ok((stream, _)) => Some(stream),
        Err(error) => {
            if failed.is_due(&seats.rt) {
                let what = format!(in seats.alloc; "one can't be accepted: {error}");
                seats
                    .notices
                    .say_made(&seats.rt, &seats.clock, "connections", what);
            }
            thread::sleep(&seats.rt, Duration::from_millis(PAUSE));
            None
        }
    }
}

/// Reports in the server's log that all its seats are taken.
fn say_full<R: Wait + Clock>(seats: &Seats<R>, full: &mut LineThrottle) {
    if full.is_due(&seats.rt) {
        seats.notices.say(&seats.rt, &seats.clock, "seats", FULL);
    }
}

/// Sends a new connection the HTTP response that the server has no seat for it, and closes it. It
/// never blocks: the next connection must not wait for this one.
fn refuse(stream: TcpStream) {
    let mut stream = stream;
    if stream.set_nonblocking(true).is_err() {
        return;
    }
    let _ = stream.write(NO_SEAT);
    let _ = stream.shutdown(Shutdown::Write);
    // Closing a socket with unread bytes resets the connection, which could cut off the response.
    let mut request = [0u8; 1_024];
    let _ = stream.read(&mut request);
}
