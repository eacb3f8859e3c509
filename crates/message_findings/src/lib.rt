//! Checks a script or an operator's message before it is used.
#![tactic(auto)]

mod audit_check;
mod call_check;
mod field_fault;
mod line_hints;
mod line_text;
mod payload_fields;
mod payload_objects;
mod printed_check;
mod profile_check;
mod refused_answer;
mod rejection;
mod remote_start_check;
mod report;
mod script_check;
mod sent_check;
mod sentences;
mod starts;
mod text_check;
mod zone_check;

pub use printed_check::check_printed;
pub use refused_answer::answer_sentence;
pub use script_check::{ScriptCheck, check_held};
pub use sent_check::{SentCheck, check_sent, json_break};
pub use sentences::{call_sentence, line_sentence, never_sentence, sentence};
