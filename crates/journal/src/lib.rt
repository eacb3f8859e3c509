//! The journal of a site: a file of lines, each a step of the central system that changed
//! something. This crate writes and reads lines, restores a book from them, and then removes the
//! links of its points. Steps come to the file in order: noted under the book's lock, taken,
//! written and synced. `specs/Line.antt` defines a line, `specs/Restore.antt` its effect on the
//! state, and `specs/Account.antt` the states that the file accounts for.
#![tactic(auto)]

mod drawn_number;
mod entry;
mod forgetting;
mod header;
mod journal;
mod laws;
mod line;
mod line_fault;
mod line_laws;
mod line_word;
mod lines;
mod lost_links;
mod made_step;
mod noted_run;
mod noted_step;
mod noted_steps;
mod numbered_entry;
mod reading;
mod receipt;
mod restore_fault;
mod restored;
mod restored_links;
mod restored_replies;
mod restoring;
mod synced_file;
mod written_steps;

pub use drawn_number::number_drawn;
pub use entry::Entry;
pub use forgetting::requests_can_be_left_out;
pub use header::{Format, Header, HeaderFault, push_header, read_header};
pub use journal::{Journal, JournalFault, NoJournal};
pub use laws::{answered_survives, entries_are_restored};
pub use line::{Line, Noted, Sender, push_line};
pub use line_fault::LineFault;
pub use line_laws::lines_read_back;
pub use lines::{split_line, whole_lines};
pub use lost_links::lose_links;
pub use made_step::MadeStep;
pub use noted_run::noted_runs_are_restored;
pub use noted_step::{noted_by, noted_steps_are_restored};
pub use noted_steps::NotedSteps;
pub use numbered_entry::NumberedEntry;
pub use reading::{read_bytes, read_line};
pub use receipt::Receipt;
pub use restore_fault::RestoreFault;
pub use restored::{Restored, Unrestored, restore};
pub use restored_replies::UNREAD_REPLY;
pub use written_steps::WrittenSteps;
