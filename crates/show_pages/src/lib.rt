//! The state of each charge point after the lines of a script, as tables for people and as JSON.
//! Also the output of each line, and sentences about what was left undone at the end.
#![tactic(auto)]

mod call_of_point;
mod ending;
mod json_standing;
mod played_script;
mod profile_words;
mod standing;
mod table;
mod trace;
mod words;

pub use ending::{Ending, ending_text};
pub use json_standing::standing_json;
pub use played_script::PlayedScript;
pub use standing::{Standing, standing_text};
pub use table::Table;
pub use trace::{Trace, trace_text};
