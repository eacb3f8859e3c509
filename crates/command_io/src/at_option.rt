//! The end of a script or a journal that `--at` names.

use crate::program_fault::ProgramFault;
use crate::unzoned::note_unzoned;
use journal_file::ScriptEnd;
use ocpp_scalars::read_instant;

/// Returns the end up to which a script is played by `--at`: a number of lines, or a moment. Prints
/// a note if the moment has no zone.
pub fn script_end<R: Eprint>(rt: &R, at: Option<&str>) -> Result<ScriptEnd, ProgramFault> {
    let Some(at) = at else {
        return Ok(ScriptEnd::Whole);
    };
    if let Ok(lines) = at.parse::<u64>() {
        return Ok(ScriptEnd::Lines(lines));
    }
    match read_instant(at) {
        Ok(moment) => {
            note_unzoned(rt, "--at", at);
            Ok(ScriptEnd::Moment(moment))
        }
        Err(_) => Err(ProgramFault::NoScriptEnd),
    }
}
