//! Messages that couldn't be read because memory ran out.

use ocppj_frame::MessageId;

/// Memory ran out while a message was read.
#[derive(Drop)]
pub struct Unread {
    /// The id of the CALL, if it was already read.
    pub call: Option<MessageId>,
}
