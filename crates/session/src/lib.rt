//! Sessions: the messages of operators and of charge points (OCPP-J 1.6, chapter 4), the steps that
//! they request, and the messages that answer them.
#![tactic(auto)]

mod answering;
mod context;
mod outcome;
mod serving;
mod session_core;
mod step;
mod todo;

pub use context::Context;
pub use outcome::{Outcome, Performed};
pub use serving::{
    Breach, Ended, Received, SentCall, Served, SessionEvent, WatchedSocket, answer_message,
    answer_next, claim_link, release_link, send_call, serve_session, serve_socket,
};
pub use session_core::{Peer, SessionCore};
pub use step::perform;
pub use texts::{Asked, SentText, Unread, asked_of, hold_of, number_of, response_of};
pub use todo::{Owed, Todo};
