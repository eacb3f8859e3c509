//! Checks a site file, and defines findings: their places, their severities and their words.
#![tactic(auto)]

mod broken_json;
mod finding;
mod found;
mod similar;
mod site_check;
mod site_pass;
mod site_points;
mod site_sentences;
mod text_place;
mod words;

pub use broken_json::{JsonBreak, break_of, first_break};
pub use finding::{
    Finding, Location, Severity, exit_status, has_fault, joined_status, name_point, sort_by_line,
};
pub use found::{Glance, KnownField, LIMIT, glance_at};
pub use similar::{is_similar, similar_name};
pub use site_check::check_site;
pub use site_sentences::site_sentence;
pub use text_place::place_in_text;
pub use words::{Excerpt, instant_text, tenths_text};
