//! Why a client stops.

use std::alloc::{AllocError, AllocFailed};
use thiserror::Error;

/// The reason why a client stops early, in the words that the program prints.
#[derive(Clone, Copy, Debug, Error, PartialEq, Eq)]
pub enum ClientFault {
    /// The URL doesn't have the form `ws://HOST:PORT/PATH`, where the port is 80 by default.
    #[error("url: not ws://HOST:PORT/PATH")]
    Url,
    /// The URL of an operator's client doesn't end in `/operator/ID`. At any other URL the central
    /// system would take it for the charge point of the last segment, and send it that point's
    /// calls.
    #[error("url: an operator's URL ends in /operator/ID")]
    NotOperator,
    /// Nothing listens there.
    #[error("url: no connection")]
    Connection,
    /// The server there doesn't speak WebSocket with the subprotocol of OCPP 1.6.
    #[error("url: no OCPP 1.6 there")]
    Handshake,
    /// The server requires a name and a key, and this client sent none: status 401.
    #[error("url: HTTP 401: it wants --login FILE with the NAME:KEY of a key: an operator's at /operator/ID, else the point's own")]
    Unauthorized,
    /// The server requires another name and key than this client sent: status 401.
    #[error("url: HTTP 401: it doesn't accept the NAME:KEY of --login; it wants an operator's key at /operator/ID, else the point's own")]
    WrongLogin,
    /// The name and the key are right, but belong to another point: status 403.
    #[error("url: HTTP 403: the --login is another point's")]
    Forbidden,
    /// The central system closed the connection early. It does so at once if its site has no such
    /// point.
    #[error("url: closed by the central system, which may have no such point")]
    Closed,
    /// The connection failed before the end.
    #[error("device: socket")]
    Socket,
    /// The clock can't be read.
    #[error("device: clock")]
    Clock,
    /// Standard input can't be read.
    #[error("device: read")]
    Read,
    /// Standard output can't be written.
    #[error("device: write")]
    Write,
    #[error("OutOfMemory")]
    OutOfMemory,
}

impl From<AllocError> for ClientFault {
    fn from(_: AllocError) -> ClientFault {
        ClientFault::OutOfMemory
    }
}

impl<T: Drop> From<AllocFailed<T>> for ClientFault {
    fn from(_failed: AllocFailed<T>) -> ClientFault {
        ClientFault::OutOfMemory
    }
}
