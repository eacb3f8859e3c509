//! The texts of a running site's status port, for an operator. Each is a function of the site's
//! state and the observations of its points. Nothing here waits, reads a socket or makes a
//! decision.
#![tactic(auto)]

mod asked_path;
mod call_moments;
mod calls;
mod health;
mod journal_report;
mod metrics;
mod next_day;
mod one_line;
mod page;
mod page_style;
mod point_activity;
mod point_summary;
mod restored_calls;
mod site_report;
mod state_page;
mod status_answer;
mod strip;
mod unsure;
mod watched_journal;

pub use asked_path::{StatusPath, status_path};
pub use call_moments::{CallMoments, CallNumbers};
pub use calls::{in_flight_calls, in_flight_since, waiting_calls};
pub use health::Health;
pub use journal_report::{JournalReport, JournalState};
pub use metrics::metrics_text;
pub use next_day::connector_picture;
pub use one_line::push_without_controls;
pub use page::{POINTS_OF_PAGE, site_page};
pub use point_activity::{
    Connection, Observation, PointActivity, RefusedMessage, RejectedCalls, Rejection, SentMoment,
};
pub use restored_calls::RestoredCalls;
pub use site_report::{SiteCounts, SiteReport};
pub use state_page::state_json;
pub use status_answer::{ContentKind, StatusAnswer, answer_of, health_answer, not_found};
pub use unsure::may_have_lost;
pub use watched_journal::WatchedJournal;
