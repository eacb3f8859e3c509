//! The name and the key of a client.

use crate::payload_file::read_payload_file;
use crate::program_fault::ProgramFault;
use std::alloc::AllocGlobal;
use std::fs::File;
use std::rt::Files;

/// Reads the name and the key of a file, if one is given. They have a colon between them.
pub fn read_login<R: Files<File = File> + Eprint + AllocGlobal>(
    rt: &R,
    path: Option<&str>,
) -> Result<Option<String>, ProgramFault> {
    let Some(path) = path else {
        return Ok(None);
    };
    let login = read_payload_file(rt, path)?;
    if login.as_str().contains(':') {
        Ok(Some(login))
    } else {
        Err(ProgramFault::Login)
    }
}
