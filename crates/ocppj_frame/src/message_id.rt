//! The id of a message.
use ocpp_scalars::BoundedText;

/// The maximum length of a message id, in characters (OCPP-J 1.6, section 4.1.4).
pub const MAX_ID_CHARACTERS: usize = 36;

/// The id of a message: 0 to 36 characters, counted as Unicode scalar values (OCPP-J 1.6,
/// section 4.1.4).
pub type MessageId = BoundedText<MAX_ID_CHARACTERS>;
