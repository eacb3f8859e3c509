//! The journal of a folder, followed line by line up to a moment, while the site runs or not. A
//! reader reads the events of its lines.
#![tactic(auto)]

mod event_reader;
mod followed_journal;

pub use event_reader::{EventReader, NoReader};
pub use followed_journal::{FollowRequest, FollowedJournal, follow_journal};
