//! Checks the profiles that a point has, gets or loses.
#![tactic(auto)]

mod boot_check;
mod change_check;
mod fuse_check;
mod hidden;
mod installed_check;
mod never;
mod together;

pub use boot_check::check_boot;
pub use change_check::{ProfileChange, check_change, has_no_criterion, takes_place_of};
pub use fuse_check::{check_fuse, check_raise, check_unlimited, fuse_limit};
pub use installed_check::check_installed_profiles;
pub use never::{NeverRated, never_rated};
