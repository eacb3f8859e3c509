//! The program's command line: its commands and options, and the one job that words request.
#![tactic(auto)]

mod command_rows;
mod commands;
mod help_text;
mod option_row;
mod reading;

pub use reading::job_of;
