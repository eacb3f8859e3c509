//! The folder in which `central run` keeps a site: its journal, which is written, synced, restored,
//! and read while the site runs.
#![tactic(auto)]

mod call_lines;
mod earlier_boots;
mod folder_fault;
mod journal_file;
mod journal_lines;
mod journal_script;
mod log_lines;
mod named_file;
mod opening;
mod reserve_file;
mod restored_journal;
mod restoring;
mod script_end;

pub use folder_fault::FolderFault;
pub use journal_file::JournalFile;
pub use journal_lines::{JournalLines, JournalPart};
pub use journal_script::{ScriptLines, print_journal, read_journal_script, say_torn, unread};
pub use named_file::{NamedFile, report_error};
pub use opening::{OpenJournal, open_journal, open_to_read};
pub use restoring::{Resumed, restore_shared, say_other_site};
pub use script_end::ScriptEnd;
