//! The commands that read a site and its history, and print pages on it: `replay`, `check`, `show`
//! and `explain`.
#![tactic(auto)]

mod checking;
mod explain_reader;
mod explaining;
mod lost_profiles;
mod picture_name;
mod replaying;
mod showing;
mod unconfirmed;
mod zone_file;

pub use checking::check_file;
pub use explaining::explain_file;
pub use replaying::replay_file;
pub use showing::show_file;
