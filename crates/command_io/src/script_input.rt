//! The script that a command reads: from standard input or a file, or the journal of a folder.

ghost use Rattle.std.specs.Prelude.{◌≤◌, IfOk, vec_len};
ghost use Rattle.replay.specs.Limits.{max_script_bytes};

use crate::program_fault::ProgramFault;
use jobs::Source;
use journal_file::{read_journal_script, report_error};
use replay::{InputFault, MAX_SCRIPT_BYTES, ReplayFault, read_all};
use std::alloc::AllocGlobal;
use std::fs;
use std::fs::File;
use std::io::Read;
use std::rt::Files;

/// Reads the script to play: that of standard input or of a file, or the journal of a folder as a
/// script.
pub fn read_script_of<R: Files<File = File> + Input + Eprint + AllocGlobal>(
    rt: &R,
    source: Source<'_>,
) -> Result<Vec<u8>, ProgramFault>
    ensures short { IfOk result (λ script. vec_len script ≤ max_script_bytes) }
{
    match source {
        Source::Input => read_script(rt),
        Source::File(path) => read_script_file(rt, path),
        Source::Journal(folder) => Ok(read_journal_script(rt, folder)?),
    }
}

/// Reads the script of messages that `replay`, `check`, `show` or `explain` plays from standard
/// input.
fn read_script<R: Input + AllocGlobal>(rt: &R) -> Result<Vec<u8>, ProgramFault>
    ensures short { IfOk result (λ script. vec_len script ≤ max_script_bytes) }
{
    match read_all(rt.alloc(), &mut rt.reader(), MAX_SCRIPT_BYTES) {
        Ok(script) => Ok(script),
        Err(InputFault::Read) => Err(ProgramFault::Replay(ReplayFault::Read)),
        Err(InputFault::TooLong) => Err(ProgramFault::Replay(ReplayFault::ScriptTooLong)),
        Err(InputFault::OutOfMemory) => Err(ProgramFault::OutOfMemory),
    }
}

/// Reads the script of messages that `replay`, `check`, `show` or `explain` plays from the file of
/// `--script`. If it can't be read, prints its name and the cause to standard error.
fn read_script_file<R: Files<File = File> + Eprint + AllocGlobal>(
    rt: &R,
    path: &str,
) -> Result<Vec<u8>, ProgramFault>
    ensures short { IfOk result (λ script. vec_len script ≤ max_script_bytes) }
{
    let opened = fs::open(rt, path);
    let mut file = report_error(rt, path, opened, ProgramFault::File)?;
    let mut script = Vec::new(rt.alloc());
    // One more byte is requested, to see whether the file is too long.
    let read = file
        .by_ref()
        .take(MAX_SCRIPT_BYTES as u64 + 1)
        .read_to_end(&mut script);
    report_error(rt, path, read, ProgramFault::File)?;
    if script.len() > MAX_SCRIPT_BYTES {
        return Err(ProgramFault::Replay(ReplayFault::ScriptTooLong));
    }
    Ok(script)
}
