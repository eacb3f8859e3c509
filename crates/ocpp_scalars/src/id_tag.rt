//! The idTag, which says who starts a transaction.
use crate::bounded_text::BoundedText;

/// The most characters of an idTag (OCPP 1.6, chapter 7, IdToken).
pub const MAX_ID_TAG_CHARACTERS: usize = 20;

/// An idTag, which says who starts a transaction: 0 to 20 characters, counted as Unicode scalar
/// values (OCPP 1.6, chapter 7, IdToken).
pub type IdTag = BoundedText<MAX_ID_TAG_CHARACTERS>;
