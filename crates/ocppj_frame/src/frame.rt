//! Reads a text as a frame.
ghost use Rattle.std.specs.Prelude.{◌≡◌, IfOk, option_and_then, option_map, slice_get, unwrap_or};
ghost use Rattle.ocpp_scalars.specs.Reading.{ReadsUnless};
ghost use Rattle.ocppj_frame.specs.Fault.{is_memory};
ghost use Rattle.ocppj_frame.specs.Frame.{HasObject, message_in};
ghost use Rattle.ocppj_frame.specs.ByCases.Message.{call_of, message_by, message_of_text, message_of_tree, payload_of};
ghost use Rattle.ocppj_frame.specs.Message.{call_result, empty_object};
ghost use Rattle.ocppj_frame.specs.Payload.{elements_left, tree_in};
ghost use Rattle.ocppj_frame.specs.Tree.{as_text};

use crate::action::ActionName;
use crate::fault::FrameFault;
use crate::message::{MessageType, message_id, message_type, payload_of};
use crate::message_id::MessageId;
use crate::payload::{Elements, Payload, read_tree};
use crate::reading_memory::ReadingMemory;
use std::alloc::Global;

/// The maximum length of a frame's text, in bytes.
pub const MAX_FRAME_BYTES: usize = 1_048_576;

/// A message (OCPP-J 1.6, section 4.2). Its action and its payload borrow the memory that it was
/// read into.
#[derive(Drop)]
pub enum Frame<'a> {
    /// A CALL. The payload is an object.
    Call {
        id: MessageId,
        action: ActionName<'a>,
        payload: Payload<'a>,
    },
    /// A CALLRESULT. The payload is an object.
    Reply {
        id: MessageId,
        payload: Payload<'a>,
    },
    /// A CALLERROR.
    Fault {
        id: MessageId,
    },
    /// A message of another type, which is ignored.
    Other,
}

/// Reads a text as a message into `memory`, which stays borrowed until the frame is dropped.
/// Returns `Dropped` for a text of more than [`MAX_FRAME_BYTES`], and for one that isn't a message
/// or lacks its id; `Formation` for a malformed CALL with an id. `OutOfMemory` says nothing about
/// the text.
pub fn read_frame<'a>(memory: &'a mut ReadingMemory, text: &str) -> Result<Frame<'a>, FrameFault>
    ensures message { ReadsUnless is_memory message_in result (message_of_text text.now) }
    ensures object { IfOk result HasObject }
{
    if text.len() > MAX_FRAME_BYTES {
        return Err(FrameFault::Dropped);
    }
    let alloc = memory.alloc;
    let tree = read_tree(memory, text)?;
    frame_of_tree(alloc, tree)
}

/// Reads the JSON tree of a text as an OCPP-J frame: a list with its message type, its id and
/// further elements.
fn frame_of_tree(alloc: Global, tree: Payload<'_>) -> Result<Frame<'_>, FrameFault>
    ensures message { ReadsUnless is_memory message_in result
        (message_of_tree (tree_in tree.entry)) }
    ensures object { IfOk result HasObject }
{
    let Some(mut elements) = tree.into_elements() else {
        return Err(FrameFault::Dropped);
    };
    let kind = message_type(elements.next_number());
    let id = message_id(alloc, elements.next_text())?;
    frame_by(kind, id, &mut elements)
}

/// Makes the OCPP-J message of this type and id from the third and fourth element of its list,
/// which are the next ones, or returns the message's fault.
fn frame_by<'a>(
    kind: Option<MessageType>,
    id: Option<MessageId>,
    elements: &mut Elements<'a>,
) -> Result<Frame<'a>, FrameFault>
    ensures message { ReadsUnless is_memory message_in result
        (message_by kind id (slice_get (elements_left elements.old) 0)
        (slice_get (elements_left elements.old) 1)) }
    ensures object { IfOk result HasObject }
{
    let Some(kind) = kind else {
        return Err(FrameFault::Dropped);
    };
    if matches!(kind, MessageType::Other) {
        return Ok(Frame::Other);
    }
    let Some(id) = id else {
        return Err(FrameFault::Dropped);
    };
    match kind {
        MessageType::Call => call_of(id, elements),
        MessageType::CallResult => Ok(reply_of(id, elements)),
        MessageType::CallError => Ok(Frame::Fault { id }),
        MessageType::Other => Ok(Frame::Other),
    }
}

/// Makes the CALL of this id from its action and payload, which are the next elements of its list,
/// or returns `Formation` if either is malformed.
fn call_of<'a>(id: MessageId, elements: &mut Elements<'a>) -> Result<Frame<'a>, FrameFault>
    ensures message { ReadsUnless is_memory message_in result
        (call_of id (option_and_then as_text (slice_get (elements_left elements.old) 0))
        (payload_of (slice_get (elements_left elements.old) 1))) }
    ensures object { IfOk result HasObject }
{
    let Some(action) = elements.next_text() else {
        return Err(FrameFault::Formation { id });
    };
    let Some(payload) = payload_of(elements.arena(), elements.next()) else {
        return Err(FrameFault::Formation { id });
    };
    Ok(Frame::Call {
        id,
        action: ActionName::new(action),
        payload,
    })
}

/// Makes the CALLRESULT of this id from its payload, which is the next element of its list. A
/// payload that isn't an object counts as empty.
fn reply_of<'a>(id: MessageId, elements: &mut Elements<'a>) -> Frame<'a>
    ensures message { message_in result
        ≡ call_result id (unwrap_or (payload_of (slice_get (elements_left elements.old) 0)) empty_object) }
    ensures object { HasObject result }
{
    let arena = elements.arena();
    let payload = match payload_of(arena, elements.next()) {
        Some(payload) => payload,
        None => Payload::empty(arena),
    };
    Frame::Reply { id, payload }
}
