//! The ways in which sessions end.

use journal::JournalFault;
use tungstenite::Error;
use websocket::error::ProtocolError;

/// How a session ended.
#[derive(Clone, Copy, PartialEq, Eq)]
pub enum Ended {
    /// The socket was closed, by a close frame and its answer.
    Closed,
    /// The socket failed or ended without a close frame, or no clock could be read, or the session
    /// got the answer to another request.
    Broken,
    /// Its peer broke the protocol.
    Breach(Breach),
    /// Memory ran out, and no answer could report that.
    OutOfMemory,
    /// A step that the next message depends on couldn't be noted or kept, so it wasn't sent.
    Unsaved,
}

/// How the peer of a socket broke the protocol (OCPP-J 1.6, chapter 3; RFC 6455).
#[derive(Clone, Copy, PartialEq, Eq)]
pub enum Breach {
    TooLong,
    NotUtf8,
    /// A frame that the WebSocket protocol forbids.
    Frame,
}

/// Returns why a session ends: the journal can't note its step, or can't keep a step on which its
/// next message depends.
pub(crate) fn ended_unsaved(fault: JournalFault) -> Ended {
    match fault {
        JournalFault::OutOfMemory => Ended::OutOfMemory,
        JournalFault::Unwritable => Ended::Unsaved,
    }
}

/// Returns why a session ends after this error of its WebSocket.
pub(crate) fn ended_by(error: Error) -> Ended {
    match error {
        Error::ConnectionClosed | Error::AlreadyClosed => Ended::Closed,
        Error::OutOfMemory => Ended::OutOfMemory,
        Error::Capacity(_) => Ended::Breach(Breach::TooLong),
        Error::Utf8 => Ended::Breach(Breach::NotUtf8),
        Error::Protocol(error) if is_of_peer(error) => Ended::Breach(Breach::Frame),
        _ => Ended::Broken,
    }
}

/// Returns whether the peer of a session broke the WebSocket protocol by a frame, and not by
/// leaving.
fn is_of_peer(error: ProtocolError) -> bool {
    match error {
        ProtocolError::ResetWithoutClosingHandshake
        | ProtocolError::SendAfterClosing
        | ProtocolError::ReceivedAfterClosing
        | ProtocolError::InvalidCloseCode(_) => false,
        _ => true,
    }
}
