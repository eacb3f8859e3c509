//! A log: bytes that are appended to a file and synced before they are acknowledged. `specs/`
//! defines the calls of a file and the bytes that a crash leaves.
#![tactic(auto)]

mod appended_file;
mod laws;
mod line_ends;
mod log;
mod log_fault;
mod memory_file;
mod record;
mod system_file;
mod write_fault;

pub use appended_file::AppendedFile;
pub use laws::{acknowledged_for_good, lines_are_recovered};
pub use line_ends::whole_length;
pub use log::Log;
pub use log_fault::LogFault;
pub use memory_file::{FileAnswer, MemoryFile};
pub use system_file::SystemFile;
pub use write_fault::WriteFault;
