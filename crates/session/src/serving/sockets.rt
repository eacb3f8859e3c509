//! Reads messages from a socket, and sends messages to it.

ghost use Rattle.std.specs.Prelude.{◌≡◌, IfOk};
ghost use Rattle.session.specs.Leaving.{IsAnswerOrCall};

use crate::serving::ended::{Ended, ended_by, ended_unsaved};
use crate::serving::received::Incoming;
use ghost_list::ListName;
use journal::{Journal, Receipt};
use std::alloc::{AllocError, Global};
use std::io::{ErrorKind, Read, Write};
use std::marker::Model;
use tungstenite::{Error, MaskKeys, Message, WebSocket};
use version_store::RecordedStates;

/// Reads the next message of a session from its WebSocket, or returns `Nothing` if the read timed
/// out.
pub(crate) fn read_next<S: Read + Write + Drop, K: MaskKeys + Drop>(
    socket: &mut WebSocket<S, K>,
) -> Result<Incoming, Ended> {
    match socket.read() {
        Ok(message) => Ok(incoming_of(message)),
        Err(error) => nothing_or_ended(error),
    }
}

/// Returns a WebSocket message as a session serves it: a text, a binary message, or the length of a
/// control frame.
fn incoming_of(message: Message) -> Incoming {
    match message {
        Message::Text(text) => Incoming::Text(text),
        Message::Binary(_) => Incoming::Binary,
        control => Incoming::Control(control.len()),
    }
}

/// Returns `Nothing` if the read from a session's WebSocket timed out or was interrupted, as in a
/// process that is suspended and continued. Any other error ends the session.
fn nothing_or_ended(error: Error) -> Result<Incoming, Ended> {
    match &error {
        Error::Io(cause) if is_of_waiting(cause.kind()) => Ok(Incoming::Nothing),
        _ => Err(ended_by(error)),
    }
}

/// Returns whether a read from a session's WebSocket failed only because it timed out or was
/// interrupted.
fn is_of_waiting(kind: ErrorKind) -> bool {
    matches!(kind, ErrorKind::WouldBlock | ErrorKind::Interrupted)
}

/// A message that may leave, an answer or a call: everything that its step depends on is kept, as
/// the receipt shows.
#[derive(Drop)]
pub(crate) struct Cleared<'a, N: ListName> {
    text: &'a str,
    /// The states of the book recorded up to its step, if it has one.
    seen: &'a Option<RecordedStates<N>>,
    receipt: Option<Receipt<N>>,
}

impl<'a, N: ListName> Model for Cleared<'a, N> {
    ghost use Rattle.std.specs.Prelude.{ℕ, List};
    ghost use Rattle.session.specs.Leaving.{IsCleared};

    ghost Value = { List ℕ };

    ghost view = { λ c. c.text.now };

    ghost invariant = { λ c. IsCleared N.is_recorded c.text.now c.receipt c.seen.now };
}

/// Waits until the journal has kept all steps that a session's message depends on: its own, and
/// those of others before it. The book isn't locked meanwhile. If they can't be kept, the session
/// ends without the message.
pub(crate) fn clear_to_leave<'a, J: Journal<N>, N: ListName>(
    journal: &J,
    text: &'a str,
    seen: &'a Option<RecordedStates<N>>,
) -> Result<Cleared<'a, N>, Ended>
    requires { IsAnswerOrCall N.is_recorded text.now seen.now }
    ensures { IfOk result (λ cleared. cleared ≡ text.now) }
{
    let Some(recorded) = seen else {
        return match journal.write_out() {
            Ok(()) => Ok(Cleared {
                text,
                seen,
                receipt: None,
            }),
            Err(fault) => Err(ended_unsaved(fault)),
        };
    };
    match journal.receipt(recorded) {
        Ok(receipt) => Ok(Cleared {
            text,
            seen,
            receipt: Some(receipt),
        }),
        Err(fault) => Err(ended_unsaved(fault)),
    }
}

/// Sends a session's answer or call over its WebSocket, once the journal has kept the steps that it
/// depends on.
pub(crate) fn send_text<S: Read + Write + Drop, K: MaskKeys + Drop, N: ListName>(
    alloc: Global,
    socket: &mut WebSocket<S, K>,
    cleared: Cleared<'_, N>,
) -> Result<(), Ended> {
    let message = match Message::text(alloc, cleared.text) {
        Ok(message) => message,
        Err(AllocError) => return Err(Ended::OutOfMemory),
    };
    match socket.send(message) {
        Ok(()) => Ok(()),
        Err(error) => Err(ended_by(error)),
    }
}
