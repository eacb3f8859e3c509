//! The work for a message of a session: at most one step, and an answer.

ghost use Rattle.std.specs.Prelude.{◌≡◌, None, IfSome};
ghost use Rattle.texts.specs.Asked.{AsksByCall};
ghost use Rattle.session.specs.Perform.{IsOfText};
ghost use Rattle.session.specs.Todo.{IsUnnoted, confirming, todo_asked, without_memory};

use crate::session_core::Peer;
use messages::{ActionKind, CallFault, Response};
use ocpp_scalars::{Instant, Refusal};
use ocppj_frame::MessageId;
use site_core::{PointId, Step};
use std::marker::Model;
use texts::Asked;

/// The answer that the sender of a message is owed.
#[derive(Drop)]
pub enum Owed {
    /// The message isn't answered.
    Nothing,
    /// The CALL of this id is answered by this response.
    Response { id: MessageId, response: Response },
    /// The BootNotification of this id is accepted at this moment, whatever becomes of its step.
    Boot { id: MessageId, moment: Instant },
    /// The CALL of this id, of an action of this kind, is answered by the outcome of its step.
    Outcome { id: MessageId, kind: ActionKind },
}

/// The work for a message: at most one step, and then an answer, if its sender is owed one.
#[derive(Drop)]
pub struct Todo {
    step: Option<Step>,
    owed: Owed,
}

impl Model for Todo {
    ghost use Rattle.std.specs.Prelude.{IfSome};
    ghost use Rattle.session.specs.Todo.{TodoState};
    ghost use Rattle.session.specs.Perform.{IsOfText};

    ghost Value = { TodoState };

    ghost view = { λ todo. record { step = todo.step; owed = todo.owed } };

    ghost invariant = { λ todo. IfSome todo.step IsOfText };
}

impl Todo {
    /// Returns the work of a session for the request of a message: at most one step, and the
    /// answer.
    #[tactic(auto, using(crate::proofs::TodoLemmas::of_call))]
    pub(crate) fn asked(peer: Peer, asked: Asked) -> Todo
        requires { AsksByCall asked }
        ensures { result ≡ todo_asked peer asked }
    {
        match asked {
            Asked::Nothing => Todo::without_step(Owed::Nothing),
            Asked::Respond { id, response } => {
                Todo::without_step(Owed::Response { id, response })
            }
            Asked::Step { id, kind, step } => Todo {
                step: Some(step),
                owed: Owed::Outcome { id, kind },
            },
            Asked::Boot { id, point, moment } => Todo {
                step: Some(Step::Boot { point, moment }),
                owed: Owed::Boot { id, moment },
            },
            Asked::Confirm {
                point,
                call,
                accepted,
            } => Todo {
                step: confirming(peer, point, call, accepted),
                owed: Owed::Nothing,
            },
        }
    }

    /// Returns the work of a session that answers the CALL of this id with `OutOfMemory`.
    pub(crate) fn without_memory(id: MessageId) -> Todo
        ensures { result ≡ without_memory id }
    {
        Todo::without_step(Owed::Response {
            id,
            response: Response::Error(CallFault::Refused(Refusal::OutOfMemory)),
        })
    }

    /// Returns the work of a session if the step of its message can't be noted in the journal: the
    /// CALL is answered with `OutOfMemory`. Returns none if no CALL asks for a step.
    pub(crate) fn into_unnoted(self) -> Option<Todo>
        ensures { IfSome result (IsUnnoted self.owed) }
    {
        match self.into_owed() {
            Owed::Outcome { id, .. } => Some(Todo::without_memory(id)),
            Owed::Boot { id, .. } => Some(Todo::without_memory(id)),
            Owed::Nothing | Owed::Response { .. } => None,
        }
    }

    /// Returns the work of a session for a message without a step: only the answer that its sender
    /// is owed.
    fn without_step(owed: Owed) -> Todo
        ensures { result ≡ record { step = None; owed = owed } }
    {
        Todo { step: None, owed }
    }

    /// Takes the step out, if there is one, so that it can't be made twice.
    pub fn take_step(&mut self) -> Option<Step>
        ensures step { result ≡ self.old.step }
        ensures of_text { IfSome result IsOfText }
        ensures taken { self.new ≡ record self.old { step = None } }
    {
        self.step.take()
    }

    /// Returns the fault with which the work for a session's message answers its CALL without a
    /// step, for the session's observer.
    pub(crate) fn fault(&self) -> Option<CallFault> {
        match &self.owed {
            Owed::Response {
                response: Response::Error(fault),
                ..
            } => Some(*fault),
            _ => None,
        }
    }

    /// Returns the answer that the message's sender is owed.
    pub fn into_owed(self) -> Owed
        ensures { result ≡ self.owed }
    {
        self.owed
    }
}

/// Returns the step of a session that confirms the call of this number, after the point's reply to
/// it, if the point has a link.
fn confirming(peer: Peer, point: PointId, call: u64, accepted: bool) -> Option<Step>
    ensures step { result ≡ confirming peer point call accepted }
    ensures of_text { IfSome result IsOfText }
{
    match peer {
        Peer::Point { link: Some(link) } => Some(Step::Confirm {
            point,
            link,
            call,
            accepted,
        }),
        Peer::Point { link: None } | Peer::Operator { .. } => None,
    }
}
