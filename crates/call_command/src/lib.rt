//! The command that sends an operator's calls: `call`.
#![tactic(auto)]

mod calling;
mod given_calls;
mod journal_state;
mod outcome_reader;
mod sending;
mod state_check;
mod undoing;
mod waiting_calls;

pub use calling::call_site;
