//! The file of a payload.

use crate::program_fault::ProgramFault;
use journal_file::report_error;
use std::alloc::AllocGlobal;
use std::fs;
use std::fs::File;
use std::io::Read;
use std::rt::Files;

/// The largest size of a payload's file, in bytes: no message may be longer.
const MAX_PAYLOAD_BYTES: u64 = 1_048_576;

/// Reads the text of a file. If it can't be read, prints its name and the cause to standard error.
pub fn read_payload_file<R: Files<File = File> + Eprint + AllocGlobal>(
    rt: &R,
    path: &str,
) -> Result<String, ProgramFault> {
    let opened = fs::open(rt, path);
    let mut file = report_error(rt, path, opened, ProgramFault::File)?;
    let mut bytes = Vec::new(rt.alloc());
    // One more byte is requested, to see whether the file is too long.
    let read = file
        .by_ref()
        .take(MAX_PAYLOAD_BYTES + 1)
        .read_to_end(&mut bytes);
    let length = report_error(rt, path, read, ProgramFault::File)?;
    if length as u64 > MAX_PAYLOAD_BYTES {
        return unusable(rt, path, "it is longer than a message may be");
    }
    match String::from_utf8(bytes) {
        Ok(text) => Ok(text),
        Err(_) => unusable(rt, path, "it isn't UTF-8"),
    }
}

/// Prints to standard error why the file of an option can't be used, and returns the fault:
/// `--set-profile` or `--remote-start` of `call`, or `--login` of `call` or `point`.
fn unusable<R: Eprint>(rt: &R, path: &str, why: &str) -> Result<String, ProgramFault> {
    let _ = eprintln!(rt; "central: {path}: {why}");
    Err(ProgramFault::File)
}
