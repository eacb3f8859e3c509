//! A journal in the form of a script, for people and for the commands that read one.

ghost use Rattle.std.specs.Prelude.{◌≤◌, IfOk, vec_len};
ghost use Rattle.replay.specs.Limits.{max_script_bytes};

use crate::folder_fault::FolderFault;
use crate::journal_lines::{JournalLines, JournalPart};
use crate::named_file::NamedFile;
use crate::opening::open_to_read;
use journal::{Line, LineFault, Noted, RestoreFault, Unrestored, read_bytes, split_line};
use messages::Side;
use ocpp_scalars::push_instant;
use replay::{LONGEST_FRAME, MAX_SCRIPT_BYTES};
use std::alloc::{AllocError, AllocGlobal, Global};
use std::fs::File;
use std::io;
use std::io::Write;
use std::rt::Files;

/// A message that a point may have sent before a call to it. It changes nothing.
const BEFORE_A_CALL: &str = "[2,\"\",\"Heartbeat\",{}]";

/// Prints the journal of a folder as a script.
pub fn print_journal<R: Files<File = File> + Print + Eprint + AllocGlobal>(
    rt: &R,
    folder: &str,
) -> Result<(), FolderFault> {
    let mut file = open_to_read(rt, folder)?;
    let mut reading = ScriptReading::new(rt.alloc());
    let mut writer = io::writer(rt);
    for _part in 0..u64::MAX {
        let Some(script) = reading.next(rt, &mut file)? else {
            break;
        };
        let bytes = script.as_str().as_bytes();
        match writer.write_all(bytes).and_then(|()| writer.flush()) {
            Ok(()) => {}
            // A reader that closes the pipe, as `head` does, has all it wanted.
            Err(error) if error.kind() == io::ErrorKind::BrokenPipe => return Ok(()),
            Err(_) => return Err(FolderFault::Print),
        }
    }
    say_torn(rt, &file, &reading.journal);
    Ok(())
}

/// Reads the journal of a folder as a script of at most MAX_SCRIPT_BYTES bytes.
pub fn read_journal_script<R: Files<File = File> + Eprint + AllocGlobal>(
    rt: &R,
    folder: &str,
) -> Result<Vec<u8>, FolderFault>
    ensures short { IfOk result (λ script. vec_len script ≤ max_script_bytes) }
{
    let mut file = open_to_read(rt, folder)?;
    let mut reading = ScriptReading::new(rt.alloc());
    let mut bytes = Vec::new(rt.alloc());
    for _part in 0..u64::MAX {
        let Some(script) = reading.next(rt, &mut file)? else {
            break;
        };
        bytes.extend_from_slice(script.as_str().as_bytes())?;
        if bytes.len() > MAX_SCRIPT_BYTES {
            break;
        }
    }
    if bytes.len() > MAX_SCRIPT_BYTES {
        return Err(FolderFault::ScriptTooLong);
    }
    say_torn(rt, &file, &reading.journal);
    Ok(bytes)
}

/// Prints a note if a journal ends in a torn line. A running central system may be writing that
/// line.
pub fn say_torn<R: Eprint>(rt: &R, file: &NamedFile, journal: &JournalLines) {
    let torn = journal.torn();
    if torn > 0 {
        let _ = eprintln!(rt;
            "central: {}: its last line is torn, and isn't read: {torn} bytes",
            file.path
        );
    }
}

/// Returns the fault of a line of this number that isn't a journal line.
pub fn unread(line: u64, fault: LineFault) -> FolderFault {
    FolderFault::Unrestored(Unrestored {
        line,
        fault: RestoreFault::Line(fault),
    })
}

/// A journal that is read as lines of a script.
#[derive(Drop)]
struct ScriptReading {
    alloc: Global,
    journal: JournalLines,
    lines: ScriptLines,
}

impl ScriptReading {
    /// Returns the reading of a journal's file as a script, before its first line. It is for
    /// `central journal`, `replay` and `check --trace`.
    fn new(alloc: Global) -> ScriptReading {
        ScriptReading {
            alloc,
            journal: JournalLines::new(alloc),
            lines: ScriptLines::new(alloc),
        }
    }

    /// Returns the script lines for the next lines of a journal's file, or None after the last one.
    /// They are for `central journal`, `replay` and `check --trace`.
    fn next<R: Eprint>(
        &mut self,
        rt: &R,
        file: &mut NamedFile,
    ) -> Result<Option<String>, FolderFault> {
        let mut script = String::new(self.alloc);
        match self.journal.next(rt, file)? {
            Some(lines) => {
                push_lines(&mut script, lines, &mut self.lines)?;
                Ok(Some(script))
            }
            None => Ok(None),
        }
    }
}

/// Appends to the script made of a journal's file the script lines for these lines of the journal.
/// It is for `central journal`, `replay` and `check --trace`.
fn push_lines(
    script: &mut String,
    lines: JournalPart<'_>,
    taken: &mut ScriptLines,
) -> Result<(), FolderFault> {
    let (mut rest, mut number) = (lines.bytes, lines.first);
    for _line in 0..lines.bytes.len() {
        let Some((line, others)) = split_line(rest) else {
            break;
        };
        match read_bytes(line) {
            Ok(line) => push_line(script, &line, taken)?,
            Err(fault) => return Err(unread(number, fault)),
        }
        rest = others;
        number = number.saturating_add(1);
    }
    Ok(())
}

/// Appends to the script made of a journal's file the script line for this line of the journal, if
/// there is one. It is for `central journal`, `replay` and `check --trace`.
fn push_line(
    script: &mut String,
    line: &Line<'_>,
    taken: &mut ScriptLines,
) -> Result<(), AllocError> {
    match taken.take_in(line)? {
        Some((side, frame)) => push_message(script, line, side, frame),
        None => Ok(()),
    }
}

/// Counts the lines of a journal's script as they are taken in.
#[derive(Drop)]
pub struct ScriptLines {
    alloc: Global,
    count: u64,
    /// The point that sent the message of the last line, unless an operator did.
    sender: Option<String>,
}

impl ScriptLines {
    /// Returns the state before any line.
    pub fn new(alloc: Global) -> ScriptLines {
        ScriptLines {
            alloc,
            count: 0,
            sender: None,
        }
    }

    /// Returns the number of lines so far. It is the number of the last one in the output of
    /// `central journal`.
    pub fn count(&self) -> u64 {
        self.count
    }

    /// Takes in a line of the journal. Returns the side and the message of its script line, if it
    /// has one. Replaying a script sends a call after each message of the point. For a call sent at
    /// another time, the script has a message of the point that changes nothing.
    pub fn take_in<'a>(&mut self, line: &Line<'a>) -> Result<Option<(Side, &'a str)>, AllocError> {
        let (side, frame) = match line.noted {
            Noted::Message { sender, frame, .. } => (sender.side(), frame),
            Noted::Reply { frame, .. } => (Side::Point, frame),
            Noted::Sent { .. } if self.is_from(line.point) => return Ok(None),
            Noted::Sent { .. } => (Side::Point, BEFORE_A_CALL),
            Noted::Verdict { .. } | Noted::Attached { .. } | Noted::Lost { .. } => return Ok(None),
        };
        self.sender = match side {
            Side::Operator => None,
            Side::Point => Some(String::from_str(self.alloc, line.point)?),
        };
        self.count = self.count.saturating_add(1);
        Ok(Some((side, frame)))
    }

    /// Returns whether this point also sent the last message of the script that is made from a
    /// journal's file. Then a call needs no message of the point before it.
    fn is_from(&self, point: &str) -> bool {
        match &self.sender {
            Some(sender) => sender.as_str() == point,
            None => false,
        }
    }
}

/// Appends a message of the journal as a line to the script made of its file, as `replay` reads it.
/// A message that is too long for a script line becomes `[]`.
fn push_message(
    script: &mut String,
    line: &Line<'_>,
    side: Side,
    frame: &str,
) -> Result<(), AllocError> {
    push_instant(script, line.moment)?;
    script.push_str(match side {
        Side::Operator => " operator ",
        Side::Point => " point ",
    })?;
    script.push_str(line.point)?;
    script.push_str(" ")?;
    script.push_str(if frame.len() > LONGEST_FRAME {
        "[]"
    } else {
        frame
    })?;
    script.push_str("\n")
}
