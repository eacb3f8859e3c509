//! Checks a site's input before it is used: a file of keys, a script or a journal as it is played,
//! and the calls that are to follow it.
#![tactic(auto)]

mod checked_script;
mod finding_lines;
mod history_check;
mod key_check;
mod max_profile_limits;
mod played_calls;
mod site_check;

pub use checked_script::{CheckedScript, push_checked_script};
pub use finding_lines::{push_findings, site_page};
pub use key_check::find_in_keys;
pub use played_calls::PlayedCalls;
pub use site_check::SiteCheck;
