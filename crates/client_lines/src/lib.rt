//! Input and output of clients of the central system (OCPP-J 1.6), without the sockets: lines of
//! standard input, an operator's calls, the steps of a simulated charge point, and why a client
//! stops.
#![tactic(auto)]

mod fault;
mod lines;
mod operator_texts;
mod point_lines;

pub use fault::ClientFault;
pub use lines::Lines;
pub use operator_texts::{
    ask_call, audit_call, clear_call, remote_start_call, set_profile_call, status_call,
};
pub use point_lines::{PointLine, point_line};
