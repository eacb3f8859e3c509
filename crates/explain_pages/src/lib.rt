//! Formats explained schedules for people and for programs: a table with the cause of each limit,
//! the same as JSON, and a picture as SVG or as an HTML page. The limits and their causes are those
//! of the given intervals.
#![tactic(auto)]

mod causes;
mod cells;
mod clock;
mod drawing;
mod elements;
mod entries;
mod explained_request;
mod holding;
mod json_text;
mod known_profile;
mod legend;
mod length;
mod letters;
mod looked_at;
mod markup;
mod page;
mod picture;
mod row_at_connector;
mod scale;
mod steps;
mod styles;
mod table;
mod throughout;
mod ticks;
mod uncounted;
mod words;
mod wrapping;
mod zone_clock;

pub use entries::{profile_of, reason_instant};
pub use explained_request::{ExplainedRequest, NotCounted, NotCountedReason, is_named};
pub use json_text::write_json;
pub use known_profile::KnownProfile;
pub use length::{Length, length_of};
pub use markup::{push_element, push_escaped, push_made_escaped};
pub use page::write_page;
pub use picture::write_picture;
pub use steps::{MAX_INTERVALS, MAX_STEPS};
pub use table::write_table;
pub use uncounted::not_counted;
pub use words::{push_cause, push_length, push_limit, push_profile, push_why, sentence};
pub use zone_clock::{ClockShift, ZoneClock};
