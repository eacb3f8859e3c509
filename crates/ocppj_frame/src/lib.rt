//! The frames of OCPP-J 1.6. Reads a text as a JSON tree whose numbers keep their text, and a tree
//! as a CALL, a CALLRESULT or a CALLERROR. Writes frames.
#![tactic(auto)]

mod action;
mod fault;
mod field;
mod frame;
mod laws;
mod mark;
mod marked_value;
mod message;
mod message_id;
mod payload;
mod read_fault;
mod reading_memory;
mod tree;
mod write;

pub use action::ActionName;
pub use fault::FrameFault;
pub use field::{
    Field, instant_field, list_field, object_field, tenths_field, text_field, whole_field,
};
pub use frame::{Frame, MAX_FRAME_BYTES, read_frame};
pub use laws::{frame_messages, marked_texts};
pub use mark::{after_mark, mark_text};
pub use message_id::{MAX_ID_CHARACTERS, MessageId};
pub use payload::{Entries, EntriesIter, Node, Payload, read_tree};
pub use reading_memory::ReadingMemory;
pub use write::{
    push_call_head, push_error, push_frame_end, push_result_head, push_string, write_call,
    write_error, write_result,
};
