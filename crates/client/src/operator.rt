//! An operator's client.

use crate::sockets::{Received, close, receive, send};
use client_lines::ClientFault;
use ocppj_frame::{
    Field, Frame, FrameFault, MessageId, Payload, ReadingMemory, read_frame, text_field,
};
use std::alloc::Global;
use std::io::{Read, Write};
use std::net::OpenStream;
use std::sync::Wait;
use tungstenite::{MaskKeys, Utf8Bytes, WebSocket};

/// The outcome of a message.
#[derive(Drop)]
pub enum CallEnd {
    /// It was answered, neither by an error nor as Rejected.
    Accepted,
    /// It was answered by a CALLERROR, or as Rejected: this is the answer.
    Refused(Utf8Bytes),
    /// It isn't a CALL, so it wasn't sent: no answer would ever come.
    NotACall,
}

/// The output of the messages that arrive, each on a line of its own.
#[derive(Drop)]
pub struct AnswerLines<'a, W: Write> {
    pub writer: &'a mut W,
    /// The beginning of each line.
    pub start: &'a str,
}

impl<W: Write> AnswerLines<'_, W> {
    /// Writes a message from the central system to an operator as a line of `central call`'s
    /// output.
    fn write(&mut self, text: &str) -> Result<(), ClientFault> {
        let start = self.start;
        match writeln!(self.writer, "{start}{text}").and_then(|()| self.writer.flush()) {
            Ok(()) => Ok(()),
            Err(_) => Err(ClientFault::Write),
        }
    }
}

/// A connected operator's client.
#[derive(Drop)]
pub struct OperatorClient<S: Read + Write, K: MaskKeys> {
    alloc: Global,
    socket: WebSocket<S, K>,
    memory: ReadingMemory,
}

impl<S: Read + Write + OpenStream + Drop, K: MaskKeys + Drop> OperatorClient<S, K> {
    pub fn new(alloc: Global, socket: WebSocket<S, K>) -> OperatorClient<S, K> {
        OperatorClient {
            alloc,
            socket,
            memory: ReadingMemory::new(alloc),
        }
    }

    /// Sends a CALL and waits for its answer. Writes each message that arrives until then.
    pub fn call<R: Wait, W: Write>(
        &mut self,
        rt: &R,
        lines: &mut AnswerLines<'_, W>,
        text: &str,
    ) -> Result<CallEnd, ClientFault> {
        let Some(id) = id_of_call(&mut self.memory, text)? else {
            return Ok(CallEnd::NotACall);
        };
        send(self.alloc, &mut self.socket, text)?;
        // There is no timeout: while the connection lasts, an answer always comes.
        for _message in rt.forever() {
            if let Some(end) = self.take_message(lines, &id)? {
                return Ok(end);
            }
        }
        unreachable!()
    }

    /// Writes to the output the next message that an operator's client receives from the central
    /// system. Returns the outcome of the operator's CALL of this id if the message is its answer.
    fn take_message<W: Write>(
        &mut self,
        lines: &mut AnswerLines<'_, W>,
        call: &MessageId,
    ) -> Result<Option<CallEnd>, ClientFault> {
        let Received::Text(answer) = receive(&mut self.socket)? else {
            return Ok(None);
        };
        lines.write(answer.as_str())?;
        match verdict_of(&mut self.memory, answer.as_str(), call)? {
            Some(AnswerVerdict::Accepted) => Ok(Some(CallEnd::Accepted)),
            Some(AnswerVerdict::Refused) => Ok(Some(CallEnd::Refused(answer))),
            None => Ok(None),
        }
    }

    /// Closes the connection.
    pub fn end(mut self) {
        close(&mut self.socket);
    }
}

/// Returns the id of the CALL that `central call` is to send for an operator, even of a malformed
/// one: the central system answers that.
fn id_of_call(memory: &mut ReadingMemory, text: &str) -> Result<Option<MessageId>, ClientFault> {
    match read_frame(memory, text) {
        Ok(Frame::Call { id, .. }) => Ok(Some(id)),
        Ok(_) => Ok(None),
        Err(FrameFault::Formation { id }) => Ok(Some(id)),
        Err(FrameFault::Dropped) => Ok(None),
        Err(FrameFault::OutOfMemory) => Err(ClientFault::OutOfMemory),
    }
}

/// The outcome of a CALL by its answer.
#[derive(Clone, Copy)]
enum AnswerVerdict {
    Accepted,
    Refused,
}

/// Returns the outcome of the CALL of this id that an operator's client sent, if this message of
/// the central system is its answer.
fn verdict_of(
    memory: &mut ReadingMemory,
    text: &str,
    call: &MessageId,
) -> Result<Option<AnswerVerdict>, ClientFault> {
    match read_frame(memory, text) {
        Ok(frame) => Ok(verdict_in(&frame, call.as_str())),
        Err(FrameFault::OutOfMemory) => Err(ClientFault::OutOfMemory),
        Err(_) => Ok(None),
    }
}

/// Returns the outcome of the CALL of this id that an operator's client sent, if this frame answers
/// it. A CALLERROR or the status Rejected is a refusal.
fn verdict_in(frame: &Frame<'_>, call: &str) -> Option<AnswerVerdict> {
    match frame {
        Frame::Reply { id, payload } => {
            if id.as_str() != call {
                None
            } else if is_rejected(payload) {
                Some(AnswerVerdict::Refused)
            } else {
                Some(AnswerVerdict::Accepted)
            }
        }
        Frame::Fault { id } if id.as_str() == call => Some(AnswerVerdict::Refused),
        _ => None,
    }
}

/// Returns whether the central system's answer to a CALL that an operator's client sent has the
/// status Rejected.
fn is_rejected(payload: &Payload<'_>) -> bool {
    match text_field(payload.root(), "status") {
        Field::Value(status) => status == "Rejected",
        _ => false,
    }
}
