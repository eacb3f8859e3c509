//! A session without its socket and store: it turns messages into requests, and outcomes into
//! messages.

ghost use Rattle.std.specs.Prelude.{◌≡◌, IfOk, IfErr, option_copied, option_map, string_bytes};
ghost use Rattle.journal.specs.Line.{sender_state, side_of_sender};
ghost use Rattle.session.specs.Session.{operators, points, sender_of, side_of, answer_unit, with_link};
ghost use Rattle.messages.specs.ResponseText.{response_text};
ghost use Rattle.session.specs.Todo.{IsTodo, answer_text};

use crate::answering::response_of_outcome;
use crate::outcome::Outcome;
use crate::todo::{Owed, Todo};
use journal::Sender;
use messages::{FixedAnswer, Response, Side, push_response};
use ocpp_scalars::{Instant, Refusal};
use ocppj_frame::{MessageId, ReadingMemory};
use profile::Unit;
use site_core::PointId;
use std::alloc::{AllocError, Global};
use std::marker::Model;
use texts::{SentText, asked_of};

/// The peer at the other end of a session's socket.
#[derive(Clone, Copy, PartialEq, Eq)]
pub enum Peer {
    /// An operator, on a site of this unit.
    Operator { unit: Unit },
    /// The point itself, over the link of this number once it has one.
    Point { link: Option<u64> },
}

/// A session: an operator's for a charge point, or the point's own.
#[derive(Drop)]
pub struct SessionCore {
    alloc: Global,
    point: PointId,
    peer: Peer,
    /// The name of an operator's key, if there are keys.
    name: Option<String>,
}

impl Model for SessionCore {
    ghost use Rattle.std.specs.Prelude.{option_map, string_bytes};
    ghost use Rattle.session.specs.Session.{SessionState};

    ghost Value = { SessionState };

    ghost view = { λ core. record {
      point = core.point;
      peer = core.peer;
      name = option_map string_bytes core.name;
    } };
}

impl SessionCore {
    /// Makes an operator's session for the point of this identity. The name is that of the
    /// operator's key, if there are keys. Schedules are answered in this unit, which is the site's.
    pub fn operator(
        alloc: Global,
        id: &str,
        name: Option<&str>,
        unit: Unit,
    ) -> Result<SessionCore, AllocError>
        ensures { IfOk result (λ core. core ≡ operators id.now (option_copied name.entry) unit) }
    {
        let name = match name {
            Some(name) => Some(String::from_str(alloc, name)?),
            None => None,
        };
        Ok(SessionCore {
            alloc,
            point: PointId::copied(alloc, id)?,
            peer: Peer::Operator { unit },
            name,
        })
    }

    /// Makes the session of the point of this identity, which has no link yet.
    pub fn point(alloc: Global, id: &str) -> Result<SessionCore, AllocError>
        ensures { IfOk result (λ core. core ≡ points id.now) }
    {
        Ok(SessionCore {
            alloc,
            point: PointId::copied(alloc, id)?,
            peer: Peer::Point { link: None },
            name: None,
        })
    }

    /// Returns the identity of the session's point.
    pub fn point_id(&self) -> &PointId
        ensures { result.now ≡ self.now.point }
    {
        &self.point
    }

    /// Returns the identity of the session's point by value.
    pub fn into_point_id(self) -> PointId
        ensures { result ≡ self.point }
    {
        self.point
    }

    /// Returns the peer.
    pub fn peer(&self) -> Peer
        ensures { result ≡ self.now.peer }
    {
        self.peer
    }

    /// Sets the point's present link, over which its replies confirm calls. An operator has none.
    pub fn attached(&mut self, link: u64)
        ensures { self.new ≡ with_link self.old link }
    {
        if let Peer::Point { .. } = self.peer {
            self.peer = Peer::Point { link: Some(link) };
        }
    }

    /// Reads a message that comes at this moment into `memory`, and returns the work for it. The
    /// refusal is `OutOfMemory`. A CALL whose id was read by then isn't refused: the work is to
    /// answer it with `OutOfMemory`.
    pub fn read_text(
        &self,
        memory: &mut ReadingMemory,
        now: Instant,
        text: &str,
    ) -> Result<Todo, Refusal>
        ensures todo { IfOk result (λ todo. IsTodo self.now now text.now todo) }
        ensures refusal { IfErr result (λ refusal. refusal ≡ Refusal.OutOfMemory) }
    {
        let sent = SentText::new(now, self.side(), self.point.as_str(), text);
        match asked_of(self.alloc, memory, &sent) {
            Ok(asked) => Ok(Todo::asked(self.peer, asked)),
            Err(unread) => match unread.call {
                Some(id) => Ok(Todo::without_memory(id)),
                None => Err(Refusal::OutOfMemory),
            },
        }
    }

    /// Returns the answer to a message whose step has this outcome, if it is answered. A Todo
    /// without a step has no outcome. The refusal is `OutOfMemory`.
    pub fn answer(&self, todo: Todo, outcome: Option<Outcome>) -> Result<Option<String>, Refusal>
        ensures text { IfOk result
            (λ text. option_map string_bytes text ≡ answer_text self.now todo outcome) }
        ensures refusal { IfErr result (λ refusal. refusal ≡ Refusal.OutOfMemory) }
    {
        match todo.into_owed() {
            Owed::Nothing => Ok(None),
            Owed::Response { id, response } => self.response_text(&id, Some(response)),
            Owed::Boot { id, moment } => {
                let response = FixedAnswer::BootNotification.response(moment);
                self.response_text(&id, Some(response))
            }
            Owed::Outcome { id, kind } => {
                let Some(outcome) = outcome else {
                    return Ok(None);
                };
                let response = response_of_outcome(self.unit(), kind, outcome);
                self.response_text(&id, response)
            }
        }
    }

    /// Returns the side that sends a session's messages: the operator or the charge point.
    pub(crate) fn side(&self) -> Side
        ensures { result ≡ side_of self.now.peer }
    {
        match self.peer {
            Peer::Operator { .. } => Side::Operator,
            Peer::Point { .. } => Side::Point,
        }
    }

    /// Returns the sender of a session's messages, as the session notes it in the journal.
    pub(crate) fn sender(&self) -> Sender<'_>
        ensures sender { sender_state result ≡ sender_of self.now }
        ensures side { side_of_sender (sender_state result) ≡ side_of self.now.peer }
    {
        match (&self.name, self.peer) {
            (Some(name), Peer::Operator { .. }) => Sender::Operator {
                name: Some(name.as_str()),
            },
            (None, Peer::Operator { .. }) => Sender::Operator { name: None },
            (_, Peer::Point { .. }) => Sender::Point,
        }
    }

    /// Returns the unit in which an operator's session answers requests for schedules. A point
    /// requests none.
    fn unit(&self) -> Unit
        ensures { result ≡ answer_unit self.now.peer }
    {
        match self.peer {
            Peer::Operator { unit } => unit,
            Peer::Point { .. } => Unit::A,
        }
    }

    /// Returns the text of the frame that a session sends as its answer to the CALL of this id, if
    /// there is one.
    fn response_text(
        &self,
        id: &MessageId,
        response: Option<Response>,
    ) -> Result<Option<String>, Refusal>
        ensures text { IfOk result (λ text.
            option_map string_bytes text ≡ option_map (response_text id.now) response) }
        ensures refusal { IfErr result (λ refusal. refusal ≡ Refusal.OutOfMemory) }
    {
        let Some(response) = response else {
            return Ok(None);
        };
        match text_of_response(self.alloc, id.as_str(), &response) {
            Ok(text) => Ok(Some(text)),
            Err(AllocError) => Err(Refusal::OutOfMemory),
        }
    }
}

/// Returns the text of the frame that a session sends as its answer to the CALL of this id.
fn text_of_response(alloc: Global, id: &str, response: &Response) -> Result<String, AllocError>
    ensures { IfOk result (λ text. string_bytes text ≡ response_text id.now response.now) }
{
    // Room from the start for most answers, so that the text isn't copied as it grows.
    let mut text = String::with_capacity(alloc, 128)?;
    push_response(&mut text, id, response)?;
    Ok(text)
}
