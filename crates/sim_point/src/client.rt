//! A simulated charge point at its WebSocket.

use ocpp_scalars::{Instant, Moments};
use sim_point_core::SimPoint;
use std::alloc::Global;
use std::io::{Read, Write};
use std::sync::Wait;
use tungstenite::{Error, MaskKeys, Message, WebSocket};

/// How a connection ended.
#[derive(Clone, Copy, PartialEq, Eq)]
pub enum Ended {
    /// By a close handshake.
    Closed,
    /// The stream failed or ended without a close handshake, the other side broke the protocol, or
    /// the clock couldn't be read.
    Broken,
    /// Memory ran out.
    OutOfMemory,
}

/// Runs a simulated point at a socket after its handshake (OCPP-J 1.6, chapter 3), until the
/// connection ends. It sends the first call, answers each message, and then sends the next call, if
/// one may go. Once its last step is answered, it closes the connection, whatever else the central
/// system has to send. It ignores all but text messages. It waits for the other side, so it needn't
/// return.
pub fn run_client<S: Read + Write + Drop, K: MaskKeys + Drop, R: Wait, M: Moments>(
    rt: &R,
    alloc: Global,
    socket: WebSocket<S, K>,
    point: SimPoint,
    clock: &M,
) -> Ended {
    let mut socket = socket;
    let mut point = point;
    let Some(now) = clock.now() else {
        return Ended::Broken;
    };
    let mut turn = send_next(alloc, &mut socket, &mut point, now);
    for _turn in rt.forever() {
        match turn {
            Turn::Next => turn = take_message(alloc, &mut socket, &mut point, clock),
            Turn::Close => return close(rt, &mut socket),
            Turn::End(ended) => return ended,
        }
    }
    // `forever` never ends, but a `for` loop has no value of its own.
    unreachable!()
}

/// How the session continues.
#[derive(Clone, Copy)]
enum Turn {
    /// With the next message of the other side.
    Next,
    /// With a close: the last step is answered.
    Close,
    /// Not at all: the connection has ended.
    End(Ended),
}

/// Reads the next WebSocket message to the simulated charge point of `point`, and answers it if it
/// is a text message.
fn take_message<S: Read + Write + Drop, K: MaskKeys + Drop, M: Moments>(
    alloc: Global,
    socket: &mut WebSocket<S, K>,
    point: &mut SimPoint,
    clock: &M,
) -> Turn {
    match socket.read() {
        Ok(Message::Text(text)) => {
            let Some(now) = clock.now() else {
                return Turn::End(Ended::Broken);
            };
            take_text(alloc, socket, point, now, text.as_str())
        }
        Ok(_) => Turn::Next,
        Err(error) => Turn::End(ended_by(error)),
    }
}

/// Answers the central system's message to the simulated charge point of `point`, and sends the
/// point's next call.
fn take_text<S: Read + Write + Drop, K: MaskKeys + Drop>(
    alloc: Global,
    socket: &mut WebSocket<S, K>,
    point: &mut SimPoint,
    now: Instant,
    text: &str,
) -> Turn {
    match point.on_text(now, text) {
        Ok(Some(answer)) => match send(alloc, socket, answer.as_str()) {
            Ok(()) => send_next(alloc, socket, point, now),
            Err(error) => Turn::End(ended_by(error)),
        },
        Ok(None) => send_next(alloc, socket, point, now),
        Err(_) => Turn::End(Ended::OutOfMemory),
    }
}

/// Sends the next call of the simulated charge point of `point` over its WebSocket, if one may go.
fn send_next<S: Read + Write + Drop, K: MaskKeys + Drop>(
    alloc: Global,
    socket: &mut WebSocket<S, K>,
    point: &mut SimPoint,
    now: Instant,
) -> Turn {
    match point.next_call(now) {
        Ok(Some(call)) => match send(alloc, socket, call.as_str()) {
            Ok(()) => Turn::Next,
            Err(error) => Turn::End(ended_by(error)),
        },
        Ok(None) if point.is_waiting() => Turn::Next,
        Ok(None) => Turn::Close,
        Err(_) => Turn::End(Ended::OutOfMemory),
    }
}

/// Sends an OCPP message of the simulated charge point of `point` over its WebSocket to the central
/// system.
fn send<S: Read + Write + Drop, K: MaskKeys + Drop>(
    alloc: Global,
    socket: &mut WebSocket<S, K>,
    text: &str,
) -> Result<(), Error> {
    socket.send(Message::text(alloc, text)?)
}

/// Closes the WebSocket of the simulated charge point of `point`, and waits for the central system
/// to close it.
fn close<S: Read + Write + Drop, K: MaskKeys + Drop, R: Wait>(
    rt: &R,
    socket: &mut WebSocket<S, K>,
) -> Ended {
    if let Err(error) = socket.close(None) {
        return ended_by(error);
    }
    // Messages sent before the other side's close frame still arrive, and are dropped.
    for _turn in rt.forever() {
        if let Err(error) = socket.read() {
            return ended_by(error);
        }
    }
    unreachable!()
}

/// Returns how the connection of the simulated charge point of `point` ended, by the error of its
/// WebSocket.
fn ended_by(error: Error) -> Ended {
    match error {
        Error::ConnectionClosed | Error::AlreadyClosed => Ended::Closed,
        Error::OutOfMemory => Ended::OutOfMemory,
        _ => Ended::Broken,
    }
}
