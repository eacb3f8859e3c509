//! A whole script, from a reader to a writer.

ghost use Rattle.std.specs.Prelude.{◌≡◌, ◌+◌, ◌≤◌, IfOk, OnOk, IfErr, IfSome, IsErrOf, length, vec_len};
ghost use Rattle.std.specs.Io.KnownBytes.{Appends, Consumes, Keeps};
ghost use Rattle.replay.specs.Limits.{max_script_bytes};
ghost use Rattle.replay.specs.Input.{GaveAtMost, GaveMoreThan};
ghost use Rattle.replay.specs.Output.{AppendsPrefix, AppendsProperPrefix};
ghost use Rattle.replay.specs.PrintedLine.{printed_texts};
ghost use Rattle.replay.specs.Play.{line_played};
ghost use Rattle.replay.specs.Run.{output_of, fault_count, IsReading, IsWriting};

use crate::player::player::Player;
use crate::script::input::{InputFault, read_all};
use crate::script::lines::split_line;
use crate::script::output::{OutputFault, flush_all, write_text};
use crate::script::play::play_line;
use crate::script::printed_line::print_lines;
use site_rules::Site;
use std::alloc::{AllocError, Global};
use std::io::{Read, Write};

/// The longest script, in bytes.
pub const MAX_SCRIPT_BYTES: usize = 16_777_216;

/// The summary of a replay.
#[derive(Clone, Copy, PartialEq, Eq)]
pub struct Summary {
    /// The number of lines with a fault.
    pub script_faults: u64,
}

/// The reason why a replay stopped.
#[derive(Clone, Copy, Debug, PartialEq, Eq, thiserror::Error)]
pub enum ReplayFault {
    /// The script can't be read. Nothing was written.
    #[error("central: device: read")]
    Read,
    /// The script has more than 16,777,216 bytes. Nothing was written.
    #[error("central: script: ScriptTooLong")]
    ScriptTooLong,
    /// The output can't be written. A prefix of it was written.
    #[error("central: device: write")]
    Write,
    /// Memory ran out. A prefix of the output was written.
    #[error("central: OutOfMemory")]
    OutOfMemory,
}

impl From<AllocError> for ReplayFault {
    ghost use Rattle.replay.specs.declared.script.run.ReplayFault.{ReplayFault};

    ghost from_gives = { λ _ fault. fault ≡ ReplayFault.OutOfMemory };

    fn from(_error: AllocError) -> ReplayFault {
        ReplayFault::OutOfMemory
    }
}

impl From<OutputFault> for ReplayFault {
    ghost use Rattle.replay.specs.declared.script.run.ReplayFault.{ReplayFault};

    ghost from_gives = { λ _ fault. fault ≡ ReplayFault.Write };

    fn from(_fault: OutputFault) -> ReplayFault {
        ReplayFault::Write
    }
}

impl From<InputFault> for ReplayFault {
    ghost use Rattle.replay.specs.Run.{replay_fault};

    ghost from_gives = { λ fault stop. stop ≡ replay_fault fault };

    fn from(fault: InputFault) -> ReplayFault {
        match fault {
            InputFault::Read => ReplayFault::Read,
            InputFault::TooLong => ReplayFault::ScriptTooLong,
            InputFault::OutOfMemory => ReplayFault::OutOfMemory,
        }
    }
}

/// Reads a whole script, plays its lines on a site and writes the output of each in turn.
pub fn replay<R: Read, W: Write>(
    alloc: Global,
    reader: &mut R,
    writer: &mut W,
    site: Site,
) -> Result<Summary, ReplayFault>
    ensures whole { OnOk result (IfSome (R.remaining reader.old)
        (λ script. Appends (W.contents writer.old) (W.contents writer.new)
        (output_of site script))) }
    ensures faults { IfOk result (λ summary. IfSome (R.remaining reader.old)
        (λ script. summary.script_faults ≡ fault_count site script)) }
    ensures prefix { IfSome (R.remaining reader.old)
        (λ script. AppendsPrefix (W.contents writer.old) (W.contents writer.new)
        (output_of site script)) }
    ensures early { IfErr result
        (λ fault. IsReading fault → Keeps (W.contents writer.old) (W.contents writer.new)) }
    ensures short { OnOk result
        (GaveAtMost (R.remaining reader.old) (R.remaining reader.new) max_script_bytes) }
    ensures most { GaveAtMost (R.remaining reader.old) (R.remaining reader.new)
        (max_script_bytes + 1) }
    ensures long { IsErrOf result ReplayFault.ScriptTooLong
        → GaveMoreThan (R.remaining reader.old) (R.remaining reader.new) max_script_bytes }
{
    // All of it before the first output: nothing is printed for a script that is too long.
    let script = read_script(alloc, reader)?;
    write_output(alloc, writer, script.as_slice(), site)
}

/// Reads the whole script that the command `replay` plays, of at most 16,777,216 bytes.
fn read_script<R: Read>(alloc: Global, reader: &mut R) -> Result<Vec<u8>, ReplayFault>
    ensures whole { IfOk result
        (λ script. IfSome (R.remaining reader.old) (λ given. script.items ≡ given)) }
    ensures consumed { IfOk result
        (λ script. Consumes (R.remaining reader.old) (R.remaining reader.new) script.items) }
    ensures short { IfOk result (λ script. vec_len script ≤ max_script_bytes) }
    ensures most { GaveAtMost (R.remaining reader.old) (R.remaining reader.new)
        (max_script_bytes + 1) }
    ensures long { IsErrOf result ReplayFault.ScriptTooLong
        → GaveMoreThan (R.remaining reader.old) (R.remaining reader.new) max_script_bytes }
{
    Ok(read_all(alloc, reader, MAX_SCRIPT_BYTES)?)
}

/// Plays a whole script on a site for the command `replay`, and writes and flushes its output.
/// Returns the number of lines with a fault.
fn write_output<W: Write>(
    alloc: Global,
    writer: &mut W,
    script: &[u8],
    site: Site,
) -> Result<Summary, ReplayFault>
    requires { length script.now ≤ max_script_bytes }
    ensures whole { OnOk result
        (Appends (W.contents writer.old) (W.contents writer.new) (output_of site script.now)) }
    ensures faults { IfOk result
        (λ summary. summary.script_faults ≡ fault_count site script.now) }
    ensures prefix { AppendsPrefix (W.contents writer.old) (W.contents writer.new)
        (output_of site script.now) }
    ensures late { IfErr result IsWriting }
{
    let summary = write_lines(alloc, writer, script, site)?;
    flush_all(writer)?;
    Ok(summary)
}

/// Plays the lines of a script on a site for the command `replay`, and writes the output of each.
/// Returns the number of lines with a fault.
fn write_lines<W: Write>(
    alloc: Global,
    writer: &mut W,
    script: &[u8],
    site: Site,
) -> Result<Summary, ReplayFault>
    requires { length script.now ≤ max_script_bytes }
    ensures whole { OnOk result
        (Appends (W.contents writer.old) (W.contents writer.new) (output_of site script.now)) }
    ensures faults { IfOk result
        (λ summary. summary.script_faults ≡ fault_count site script.now) }
    ensures prefix { AppendsPrefix (W.contents writer.old) (W.contents writer.new)
        (output_of site script.now) }
    ensures late { IfErr result IsWriting }
{
    let mut player = Player::new(alloc, site)?;
    let mut rest = script;
    let mut number = 1;
    let mut script_faults = 0;
    while !rest.is_empty() {
        let (line, others) = split_line(rest);
        match write_line(writer, &mut player, number, line) {
            Ok(is_fault) => script_faults += u64::from(is_fault),
            Err(fault) => return Err(fault),
        }
        rest = others;
        number += 1;
    }
    Ok(Summary { script_faults })
}

/// Plays the line of this number of a script for the command `replay`, and writes its output.
/// Returns whether the line has a fault.
fn write_line<W: Write>(
    writer: &mut W,
    player: &mut Player,
    number: u64,
    line: &[u8],
) -> Result<bool, ReplayFault>
    ensures whole { OnOk result
        (Appends (W.contents writer.old) (W.contents writer.new)
        (printed_texts (line_played player.old number line.now).printed)) }
    ensures fault { IfOk result
        (λ is_fault. is_fault ≡ (line_played player.old number line.now).is_fault) }
    ensures after { OnOk result
        (player.new ≡ (line_played player.old number line.now).after) }
    ensures prefix { AppendsPrefix (W.contents writer.old) (W.contents writer.new)
        (printed_texts (line_played player.old number line.now).printed) }
    ensures part { IsErrOf result ReplayFault.Write
        → AppendsProperPrefix (W.contents writer.old) (W.contents writer.new)
        (printed_texts (line_played player.old number line.now).printed) }
    ensures late { IfErr result IsWriting }
{
    let outcome = play_line(player, number, line)?.outcome;
    let text = print_lines(player.alloc(), outcome.printed.as_slice())?;
    write_text(writer, text.as_str())?;
    Ok(outcome.is_fault)
}
