//! Reading messages from a socket and writing them to it.

use client_lines::ClientFault;
use std::alloc::Global;
use std::io::{ErrorKind, Read, Write};
use std::net::OpenStream;
use std::time::Duration;
use tungstenite::{Error, MaskKeys, Message, Utf8Bytes, WebSocket};

/// How many seconds a connection that is being closed waits for each message of the other side.
const CLOSING_SECONDS: u64 = 5;

/// The result of a read.
#[derive(Drop)]
pub(crate) enum Received {
    Text(Utf8Bytes),
    /// A message of another kind. The socket itself answers pings.
    Other,
    /// The read timed out or was interrupted.
    Nothing,
}

/// Reads the next message of the central system from the WebSocket of a client (`call` or `point`).
pub(crate) fn receive<S: Read + Write + Drop, K: MaskKeys + Drop>(
    socket: &mut WebSocket<S, K>,
) -> Result<Received, ClientFault> {
    match socket.read() {
        Ok(Message::Text(text)) => Ok(Received::Text(text)),
        Ok(Message::Close(_)) => Err(ClientFault::Closed),
        Ok(_) => Ok(Received::Other),
        Err(error) => received_error(error),
    }
}

/// Returns what an error of a client's read from its WebSocket to the central system means: nothing
/// yet after a timeout, or a fault.
fn received_error(error: Error) -> Result<Received, ClientFault> {
    match error {
        Error::Io(error) => {
            if is_no_fault(error.kind()) {
                Ok(Received::Nothing)
            } else {
                Err(ClientFault::Socket)
            }
        }
        Error::ConnectionClosed => Err(ClientFault::Closed),
        Error::OutOfMemory => Err(ClientFault::OutOfMemory),
        _ => Err(ClientFault::Socket),
    }
}

/// Returns whether this kind of error of a client's read from the central system is a timeout or an
/// interrupted wait. Stopping and continuing the program interrupts it too.
fn is_no_fault(kind: ErrorKind) -> bool {
    matches!(
        kind,
        ErrorKind::WouldBlock | ErrorKind::TimedOut | ErrorKind::Interrupted
    )
}

/// Sends a message to the central system over the WebSocket of a client (`call` or `point`).
pub(crate) fn send<S: Read + Write + Drop, K: MaskKeys + Drop>(
    alloc: Global,
    socket: &mut WebSocket<S, K>,
    text: &str,
) -> Result<(), ClientFault> {
    let message = Message::text(alloc, text)?;
    match socket.send(message) {
        Ok(()) => Ok(()),
        Err(Error::OutOfMemory) => Err(ClientFault::OutOfMemory),
        Err(_) => Err(ClientFault::Socket),
    }
}

/// Closes the connection of a client (`call` or `point`), and waits for the central system to close
/// it. Reads at most 1,000 more messages, and waits at most CLOSING_SECONDS for each.
pub(crate) fn close<S: Read + Write + OpenStream + Drop, K: MaskKeys + Drop>(
    socket: &mut WebSocket<S, K>,
) {
    if socket.close(None).is_err() {
        return;
    }
    // A stopped server sends nothing, and the read would wait forever.
    let time = Duration::from_secs(CLOSING_SECONDS);
    if socket.get_ref().set_read_timeout(Some(time)).is_err() {
        return;
    }
    for _message in 0..1_000u32 {
        if socket.read().is_err() {
            return;
        }
    }
}
