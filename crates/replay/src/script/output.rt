//! Writing of whole texts, however often the writer is interrupted.

ghost use Rattle.std.specs.Prelude.{◌≡◌, OnOk, OnErr};
ghost use Rattle.std.specs.Io.KnownBytes.{Appends, Keeps};
ghost use Rattle.replay.specs.Output.{AppendsPrefix, AppendsProperPrefix};

use std::io::{ErrorKind, Write};

/// A write failed; a prefix of the text may have been written.
#[derive(Clone, Copy, PartialEq, Eq)]
pub struct OutputFault;

/// Writes a whole text. If a write fails, only a proper prefix of the text was written. So an empty
/// text doesn't fail.
// `Write::write_all` doesn't state what was written before it failed, so this loop replaces it. The
// writes are counted, since a writer may be interrupted forever.
pub fn write_text<W: Write>(writer: &mut W, text: &str) -> Result<(), OutputFault>
    ensures whole { OnOk result (Appends (W.contents writer.old) (W.contents writer.new) text.now) }
    ensures prefix { AppendsPrefix (W.contents writer.old) (W.contents writer.new) text.now }
    ensures part { OnErr result
        (AppendsProperPrefix (W.contents writer.old) (W.contents writer.new) text.now) }
{
    let bytes = text.as_bytes();
    let mut done = 0;
    for _ in 0..u64::MAX {
        if done == bytes.len() {
            break;
        }
        match writer.write(bytes.split_at(done).1) {
            Ok(0) => return Err(OutputFault),
            Ok(count) => done += count,
            Err(error) if error.kind() == ErrorKind::Interrupted => {}
            Err(_) => return Err(OutputFault),
        }
    }
    if done < bytes.len() {
        return Err(OutputFault);
    }
    Ok(())
}

/// Flushes a writer, even if it is interrupted.
pub fn flush_all<W: Write>(writer: &mut W) -> Result<(), OutputFault>
    ensures { Keeps (W.contents writer.old) (W.contents writer.new) }
{
    // `Write::flush` gives up if it is interrupted.
    for _ in 0..u64::MAX {
        match writer.flush() {
            Ok(()) => return Ok(()),
            Err(error) if error.kind() == ErrorKind::Interrupted => {}
            Err(_) => return Err(OutputFault),
        }
    }
    Err(OutputFault)
}
