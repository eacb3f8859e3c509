//! Reads the request of a message, and turns the outcome of its step into an answer. Has no socket
//! and no store.
#![tactic(auto)]

mod asked;
mod number;
mod rejection;
mod response;
mod said;
mod sent_text;
mod unread;

pub use asked::{Asked, asked_of, hold_of};
pub use number::number_of;
pub use rejection::{MAX_REJECTION_BYTES, rejection_in};
pub use response::{refused_response, reply_response, response_of, schedule_response};
pub use said::said_of;
pub use sent_text::SentText;
pub use unread::Unread;
