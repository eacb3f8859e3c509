//! The commands that serve a site, `run` and `serve`, and the one that makes a key for it, `key`.
#![tactic(auto)]

mod key_making;
mod running;
mod serving;

pub use key_making::make_key;
pub use running::run_file;
pub use serving::serve_file;
