//! Clients for people (OCPP-J 1.6). An operator's client sends messages and prints the answers. A
//! simulated charge point follows lines of text.
#![tactic(auto)]

mod client_runtime;
mod connecting;
mod operator;
mod sockets;
mod terminal_point;

pub use client_runtime::ClientRuntime;
pub use connecting::{Address, ClientSocket, connect};
pub use operator::{AnswerLines, CallEnd, OperatorClient};
pub use terminal_point::TerminalPoint;
