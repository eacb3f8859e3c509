//! The requests in the central system's messages to a charge point.

ghost use Rattle.std.specs.Prelude.{◌≡◌, Ok, IfOk};
ghost use Rattle.ocppj_frame.specs.Frame.{message_in};
ghost use Rattle.ocppj_frame.specs.Payload.{tree_at};
ghost use Rattle.messages.specs.Action.{action_of_kind};
ghost use Rattle.sim_point_core.specs.Request.{request_by_reading, request_of_message, request_of, transaction_in, whole_in};

use messages::{Action, ActionKind, CallFault, Response, Side, read_fields};
use ocpp_scalars::Refusal;
use ocppj_frame::{
    Field, Frame, FrameFault, MessageId, Node, ReadingMemory, read_frame, whole_field,
};
use std::alloc::{AllocError, Global};

/// The answer to a CALL of an unknown action, or of one that isn't sent to charge points.
pub(crate) const NOT_IMPLEMENTED: Response = Response::Error(CallFault::NotImplemented);

/// The request of a message to a charge point.
#[derive(Drop)]
pub enum Request {
    /// The message isn't answered, and changes nothing.
    Nothing,
    /// The CALL of this id has this answer, whatever the point's state is.
    Respond {
        id: MessageId,
        response: Response,
    },
    /// The CALL of this id asks for this action.
    Act {
        id: MessageId,
        action: Action,
    },
    /// The message is a reply to the point's own call of this id, with the transactionId in it.
    Reply {
        id: MessageId,
        transaction: Option<i32>,
    },
}

/// Returns the request of a message, which is read into `memory`.
#[tactic(auto, unfolding(crate::specs::Request::request_of))]
pub fn request_of(
    alloc: Global,
    memory: &mut ReadingMemory,
    text: &str,
) -> Result<Request, AllocError>
    ensures { IfOk result (λ request. request ≡ request_of text.now) }
{
    match read_frame(memory, text) {
        Ok(frame) => request_of_message(alloc, frame),
        Err(FrameFault::Formation { id }) => Ok(Request::Respond {
            id,
            response: Response::Error(CallFault::FormationViolation),
        }),
        Err(FrameFault::Dropped) => Ok(Request::Nothing),
        Err(FrameFault::OutOfMemory) => Err(AllocError),
    }
}

/// Returns the request of the central system's message to a simulated point. A CALL is answered,
/// and a reply may end one of the point's own calls.
fn request_of_message(alloc: Global, frame: Frame<'_>) -> Result<Request, AllocError>
    ensures { IfOk result
        (λ request. request ≡ request_of_message (Ok (message_in frame.entry))) }
{
    match frame {
        Frame::Call {
            id,
            action,
            payload,
        } => {
            // A charge point receives the actions that an operator sends.
            let Some(kind) = ActionKind::of_sender(Side::Operator, action.as_str()) else {
                return Ok(Request::Respond {
                    id,
                    response: NOT_IMPLEMENTED,
                });
            };
            request_by_fields(alloc, id, kind, payload.root())
        }
        Frame::Reply { id, payload } => Ok(Request::Reply {
            id,
            transaction: transaction_in(payload.root()),
        }),
        Frame::Fault { id } => Ok(Request::Reply {
            id,
            transaction: None,
        }),
        Frame::Other => Ok(Request::Nothing),
    }
}

/// Returns the transactionId in the central system's reply to a simulated point's call, if it has
/// one.
fn transaction_in(payload: Node<'_, '_>) -> Option<i32>
    ensures { result ≡ transaction_in (tree_at payload.entry) }
{
    whole_in(whole_field(payload, "transactionId"))
}

/// Returns the whole number of a field in the central system's reply to a simulated point's call,
/// if it has one.
fn whole_in(field: Field<i32>) -> Option<i32>
    ensures { result ≡ whole_in field }
{
    match field {
        Field::Value(number) => Some(number),
        Field::Absent | Field::WrongKind | Field::WrongValue => None,
    }
}

/// Returns the request of the central system's CALL of this id to a simulated point: its action, or
/// the answer that names its first fault.
fn request_by_fields(
    alloc: Global,
    id: MessageId,
    kind: ActionKind,
    payload: Node<'_, '_>,
) -> Result<Request, AllocError>
    ensures { IfOk result (λ request. request
        ≡ request_by_reading id (action_of_kind kind (tree_at payload.entry))) }
{
    match read_fields(alloc, kind, payload) {
        Ok(action) => Ok(Request::Act { id, action }),
        Err(CallFault::Refused(Refusal::OutOfMemory)) => Err(AllocError),
        Err(fault) => Ok(Request::Respond {
            id,
            response: Response::Error(fault),
        }),
    }
}
