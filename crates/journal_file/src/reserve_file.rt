//! Disk space reserved for the journal.

use crate::opening::OWN_FILE;
use std::fs::{File, OpenOptions};
use std::io;
use std::io::{Seek, SeekFrom, Write};
use std::os::unix::fs::OpenOptionsExt;
use std::rt::Files;

/// The number of reserved bytes.
const RESERVED: u64 = 1_048_576;

/// The zeros of one write.
const ZEROS: [u8; 4_096] = [0; 4_096];

/// A file whose space is given up when the device is full, so that the entries noted by then can be
/// written. After that nothing is noted until the space is reserved again, so requests that need no
/// entry are still answered.
#[derive(Drop)]
pub struct ReserveFile {
    /// None if the device had no room for it at the start.
    file: Option<File>,
    is_filled: bool,
}

impl ReserveFile {
    /// Reserves space in the file of this name. If the device has no room, prints that to standard
    /// error, and returns an empty reserve: nothing else changes.
    pub fn make<R: Files<File = File> + Eprint>(rt: &R, path: &str) -> ReserveFile {
        match make_filled(rt, path) {
            Ok(file) => ReserveFile {
                file: Some(file),
                is_filled: true,
            },
            Err(error) => {
                let _ = eprintln!(rt; "central: {path}: no room is set aside: {error}");
                ReserveFile {
                    file: None,
                    is_filled: false,
                }
            }
        }
    }

    /// Reserves the space again. Returns whether there is as much as at the start.
    pub fn fill(&mut self) -> bool {
        if let Some(file) = &mut self.file {
            if !self.is_filled {
                self.is_filled = fill(file).is_ok();
            }
            return self.is_filled;
        }
        true
    }

    /// Gives up the space. Returns whether there was any.
    pub fn give_up(&mut self) -> bool {
        let was_filled = self.is_filled;
        self.is_filled = false;
        match &self.file {
            Some(file) => was_filled && file.set_len(0).is_ok(),
            None => false,
        }
    }
}

/// Opens the file of this name that reserves disk space for `run`'s journal file, creates it if
/// needed, and fills it with zeros.
fn make_filled<R: Files<File = File>>(rt: &R, path: &str) -> io::Result<File> {
    let mut options = OpenOptions::new();
    let mut file = options
        .write(true)
        .create(true)
        .mode(OWN_FILE)
        .open(rt, path)?;
    fill(&mut file)?;
    Ok(file)
}

/// Fills the file that reserves disk space for `run`'s journal file with zeros, so that the device
/// allocates its space. If there is too little, empties the file: a part is of no use.
fn fill(file: &mut File) -> io::Result<()> {
    let filled = write_zeros(file);
    if filled.is_err() {
        let _ = file.set_len(0);
    }
    filled
}

/// Writes the zeros that reserve disk space for `run`'s journal file to a file beside it, and syncs
/// that.
fn write_zeros(file: &mut File) -> io::Result<()> {
    // Extending the file with `set_len` would allocate no blocks.
    file.seek(SeekFrom::Start(0))?;
    for _part in 0..RESERVED / ZEROS.len() as u64 {
        file.write_all(&ZEROS)?;
    }
    file.sync_data()
}
