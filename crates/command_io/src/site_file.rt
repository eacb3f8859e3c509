//! The site file, opened and read.

ghost use Rattle.std.specs.Prelude.{◌≡◌, ℕ, List, Ok, IfOk, IfErr};
ghost use Rattle.site_rules.specs.ByCases.SiteReading.{site_of};
ghost use Rattle.sha2.specs.Sha256.{sha256};
ghost use Rattle.command_io.specs.SiteStop.{IsSiteStop};

use crate::program_fault::ProgramFault;
use replay::{InputFault, read_all};
use sha2::{Digest, Sha256};
use site_rules::{MAX_SITE_BYTES, Site, SiteFault, read_site};
use std::alloc::AllocGlobal;
use std::fs;
use std::io::{ErrorKind, Read};
use std::rt::Files;

/// Reads the site of a file.
pub fn read_site_file<R: Files + AllocGlobal>(rt: &R, path: &str) -> Result<Site, ProgramFault>
    ensures site { IfOk result (λ site. (bytes : List ℕ) × (site_of bytes ≡ Ok site)) }
    ensures stop { IfErr result IsSiteStop }
{
    let bytes = read_site_bytes(rt, path)?;
    Ok(read_site(rt.alloc(), bytes.as_slice())?)
}

/// Reads the site of a file, and the SHA-256 of its bytes.
pub fn read_digested_site<R: Files + AllocGlobal>(
    rt: &R,
    path: &str,
) -> Result<(Site, [u8; 32]), ProgramFault>
    ensures site { IfOk result (λ read. (bytes : List ℕ) × (site_of bytes ≡ Ok read.0)
        × (read.1 ≡ sha256 bytes)) }
    ensures stop { IfErr result IsSiteStop }
{
    let bytes = read_site_bytes(rt, path)?;
    let site = read_site(rt.alloc(), bytes.as_slice())?;
    Ok((site, Sha256::digest(bytes.as_slice())))
}

/// Prints to standard error why a site file can't be read. Opens it again for the system's cause,
/// since the first attempt keeps to one line for `replay` and `serve`.
pub fn say_unread<R: Files + Eprint>(rt: &R, path: &str) {
    let cause = match fs::open(rt, path) {
        // A folder can be opened, and fails only when it is read.
        Ok(mut file) => file.read(&mut [0u8; 1]).err(),
        Err(error) => Some(error),
    };
    let _ = match cause {
        Some(error) => eprintln!(rt; "central: {path}: {error}"),
        None => eprintln!(rt; "central: {path}: it couldn't be read"),
    };
}

/// Reads the bytes of a site file.
pub fn read_site_bytes<R: Files + AllocGlobal>(rt: &R, path: &str) -> Result<Vec<u8>, ProgramFault>
    ensures stop { IfErr result IsSiteStop }
{
    let mut file = match fs::open(rt, path) {
        Ok(file) => file,
        Err(error) if error.kind() == ErrorKind::OutOfMemory => return Err(
            ProgramFault::OutOfMemory,
        ),
        Err(_) => return Err(ProgramFault::SiteFile),
    };
    match read_all(rt.alloc(), &mut file, MAX_SITE_BYTES) {
        Ok(bytes) => Ok(bytes),
        Err(InputFault::Read) => Err(ProgramFault::SiteFile),
        Err(InputFault::TooLong) => Err(ProgramFault::Site(SiteFault::TooLarge)),
        Err(InputFault::OutOfMemory) => Err(ProgramFault::OutOfMemory),
    }
}
