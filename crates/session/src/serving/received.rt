//! The messages and events that a session receives.

use messages::{ActionKind, CallFault};
use tungstenite::Utf8Bytes;

/// The result of waiting for the next message of a session.
#[derive(Drop)]
pub enum Received {
    /// A message came and was served: its event, and the call that was sent after it, if one was.
    Message {
        event: SessionEvent,
        sent: Option<SentCall>,
    },
    /// A control frame came, with a payload of `bytes` bytes. The socket answers pings and closes.
    Control {
        bytes: usize,
    },
    /// The read timed out.
    Nothing,
}

/// A call that was sent to a point.
#[derive(Clone, Copy, PartialEq, Eq)]
pub struct SentCall {
    pub number: u64,
    pub action: ActionKind,
}

/// The event in a message, for the observer of its session.
#[derive(Drop)]
pub enum SessionEvent {
    /// A BootNotification: the point has restarted.
    Boot,
    /// A reply that confirms the call of this number. If the point didn't accept the call, the
    /// rejection is the status of the reply, such as `Rejected`, or `Unknown` if no profile
    /// matched. For any other reply it is the beginning, in at most
    /// [`texts::MAX_REJECTION_BYTES`].
    Reply {
        call: u64,
        rejection: Option<String>,
    },
    /// A request of an operator, which added a call.
    Added,
    /// A CALL that is answered with this fault.
    Refused(CallFault),
    /// Anything else.
    Other,
}

/// A message or frame that came over a socket.
#[derive(Drop)]
pub enum Incoming {
    /// A text message.
    Text(Utf8Bytes),
    /// A binary message, which OCPP-J doesn't use.
    Binary,
    /// A control frame, with the bytes of its payload.
    Control(usize),
    /// No message: the read timed out.
    Nothing,
}
