//! The elements of a message.
ghost use Rattle.std.specs.Prelude.{◌≡◌, IfOk, IfSome, option_and_then, option_map, true};
ghost use Rattle.std.specs.Result.{result_ok};
ghost use Rattle.ocpp_scalars.specs.ByCases.Number.{whole_of};
ghost use Rattle.ocppj_frame.specs.ByCases.Message.{payload_of, type_of_number, unless_long};
ghost use Rattle.ocppj_frame.specs.Payload.{tree_in};
ghost use Rattle.ocppj_frame.specs.Tree.{is_object};

use crate::message_id::MessageId;
use crate::payload::Payload;
use bumpalo::Bump;
use ocpp_scalars::read_whole;
use std::alloc::{AllocError, Global};

/// The types of a message (OCPP-J 1.6, section 4.1.3).
#[derive(Clone, Copy)]
pub enum MessageType {
    Call,
    CallResult,
    CallError,
    /// Any other number.
    Other,
}

/// Returns the type of an OCPP-J message by its first element, if that is a whole number. It is
/// given by its digits, if the element is a number.
pub(crate) fn message_type(digits: Option<&str>) -> Option<MessageType>
    ensures { result ≡ option_map type_of_number (option_and_then (λ ds. result_ok (whole_of ds))
        (option_map (λ ds. ds.now) digits.entry)) }
{
    match read_whole(digits?) {
        Ok(number) => Some(type_of_number(number)),
        Err(_) => None,
    }
}

/// Returns the type of an OCPP-J frame by its number: 2 is a CALL, 3 a CALLRESULT, 4 a CALLERROR.
fn type_of_number(number: i32) -> MessageType
    ensures { result ≡ type_of_number number }
{
    match number {
        2 => MessageType::Call,
        3 => MessageType::CallResult,
        4 => MessageType::CallError,
        _ => MessageType::Other,
    }
}

/// Copies the id of an OCPP-J message from its second element, whose text is given, if it is a
/// text. `None` if it isn't, or is too long for an id.
pub(crate) fn message_id(alloc: Global, text: Option<&str>) -> Result<Option<MessageId>, AllocError>
    ensures { IfOk result
        (λ id. id ≡ option_and_then unless_long (option_map (λ t. t.now) text.entry)) }
{
    match text {
        Some(text) => MessageId::try_copy(alloc, text),
        None => Ok(None),
    }
}

/// Returns the payload in an element of an OCPP-J frame: the empty object if it is absent or null,
/// `None` if it isn't an object. Allocates nothing.
pub(crate) fn payload_of<'a>(arena: &'a Bump, element: Option<Payload<'a>>) -> Option<Payload<'a>>
    ensures value { option_map tree_in result ≡ payload_of (option_map tree_in element.entry) }
    ensures object { IfSome result (λ payload. is_object (tree_in payload) ≡ true) }
{
    let Some(payload) = element else {
        return Some(Payload::empty(arena));
    };
    let root = payload.root();
    if root.is_object() {
        return Some(payload);
    }
    if root.is_null() {
        Some(Payload::empty(arena))
    } else {
        None
    }
}
