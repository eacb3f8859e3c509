//! The file of keys.

use crate::program_fault::ProgramFault;
use journal_file::report_error;
use replay::{InputFault, read_all};
use site_keys::Keys;
use std::alloc::AllocGlobal;
use std::fs;
use std::fs::File;
use std::rt::Files;

/// The largest size of a file of keys, in bytes.
const MAX_KEY_BYTES: usize = 1_048_576;

/// Reads the keys of a file. If it can't be read, prints its name to standard error.
pub fn read_key_file<R: Files<File = File> + Eprint + AllocGlobal>(
    rt: &R,
    path: &str,
) -> Result<Keys, ProgramFault> {
    let bytes = read_key_bytes(rt, path)?;
    Ok(Keys::read(rt.alloc(), bytes.as_slice())?)
}

/// Reads the bytes of a file of keys. If it can't be read, prints its name to standard error.
pub fn read_key_bytes<R: Files<File = File> + Eprint + AllocGlobal>(
    rt: &R,
    path: &str,
) -> Result<Vec<u8>, ProgramFault> {
    let opened = fs::open(rt, path);
    let mut file = report_error(rt, path, opened, ProgramFault::File)?;
    match read_all(rt.alloc(), &mut file, MAX_KEY_BYTES) {
        Ok(bytes) => Ok(bytes),
        Err(InputFault::OutOfMemory) => Err(ProgramFault::OutOfMemory),
        Err(InputFault::Read | InputFault::TooLong) => {
            let _ = eprintln!(rt;
                "central: {path}: it can't be read, or has more than {MAX_KEY_BYTES} bytes"
            );
            Err(ProgramFault::File)
        }
    }
}
