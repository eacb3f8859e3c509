//! Input and output of the program's commands, why they stop, and the exit statuses.
#![tactic(auto)]

mod at_option;
mod key_file;
mod login;
mod moment;
mod pages;
mod payload_file;
mod program_fault;
mod script_input;
mod site_file;
mod unzoned;

pub use at_option::script_end;
pub use key_file::{read_key_bytes, read_key_file};
pub use login::read_login;
pub use moment::now;
pub use pages::{Screen, as_printed, note_refused_lines, page_status, print_page, write_file};
pub use payload_file::read_payload_file;
pub use program_fault::{ProgramFault, summary_status};
pub use script_input::read_script_of;
pub use site_file::{read_digested_site, read_site_bytes, read_site_file, say_unread};
pub use unzoned::note_unzoned;
