//! The job of `central replay`.

use command_io::{ProgramFault, read_script_of, read_site_file};
use jobs::{Replaying, Source};
use replay::{Summary, replay};
use site_rules::Site;
use std::alloc::AllocGlobal;
use std::fs::File;
use std::io;
use std::io::{BufWriter, Read, Write};
use std::rt::Files;

/// Plays the script of standard input or of a file, or the journal of a folder, on the site of a
/// file.
pub fn replay_file<R: Files<File = File> + Input + Print + Eprint + AllocGlobal>(
    rt: &R,
    replaying: Replaying<'_>,
) -> Result<Summary, ProgramFault> {
    let site = read_site_file(rt, replaying.site)?;
    match replaying.source {
        Source::Input => replay_from(rt, &mut rt.reader(), site),
        source => {
            let script = read_script_of(rt, source)?;
            replay_from(rt, &mut script.as_slice(), site)
        }
    }
}

/// Plays a script of messages on a site for the command `replay`, and prints the answers.
fn replay_from<R: Print + AllocGlobal, S: Read>(
    rt: &R,
    script: &mut S,
    site: Site,
) -> Result<Summary, ProgramFault> {
    let Ok(mut writer) = BufWriter::new(rt.alloc(), io::writer(rt)) else {
        return Err(ProgramFault::OutOfMemory);
    };
    match replay(rt.alloc(), script, &mut writer, site) {
        Ok(summary) => Ok(summary),
        Err(fault) => {
            // The answers before the fault are worth having. If they can't be written, this fault
            // is still the one reported.
            let _ = writer.flush();
            Err(ProgramFault::Replay(fault))
        }
    }
}
