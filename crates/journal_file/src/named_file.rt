//! A file with its name, for error messages.

use crate::folder_fault::FolderFault;
use std::alloc::AllocError;
use std::fs::File;
use std::io;
use std::io::{ErrorKind, Read};

/// An open file and its name.
#[derive(Drop)]
pub struct NamedFile {
    pub file: File,
    pub path: String,
}

impl NamedFile {
    /// Appends the next bytes of the file, at most `most`. Returns how many it read, which is fewer
    /// only at the end of the file.
    pub fn append_to<R: Eprint>(
        &mut self,
        rt: &R,
        bytes: &mut Vec<u8>,
        most: u64,
    ) -> Result<usize, FolderFault> {
        let read = self.file.by_ref().take(most).read_to_end(bytes);
        report_error(rt, self.path.as_str(), read, FolderFault::Read)
    }
}

/// Returns the value if the system call on a file or an address of this name succeeded. Otherwise
/// prints the name and the system's error to standard error, and returns this fault. A failed
/// allocation has its own fault, and nothing is printed.
pub fn report_error<T, F: From<AllocError> + Drop, R: Eprint>(
    rt: &R,
    name: &str,
    done: io::Result<T>,
    fault: F,
) -> Result<T, F> {
    match done {
        Ok(value) => Ok(value),
        Err(error) if error.kind() == ErrorKind::OutOfMemory => Err(F::from(AllocError)),
        Err(error) => {
            let _ = eprintln!(rt; "central: {name}: {error}");
            Err(fault)
        }
    }
}
