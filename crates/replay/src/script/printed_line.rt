//! A line that a script prints, and its text.

ghost use Rattle.std.specs.Prelude.{◌≡◌, ◌++◌, IfOk, OnOk, string_bytes};
ghost use Rattle.replay.specs.PrintedLine.{response_line, sent_line, held_line, fault_line};
ghost use Rattle.replay.specs.PrintedLine.{printed_text, printed_texts};

use crate::script::line::ScriptLineFault;
use messages::{Call, Response, push_call, push_response};
use ocpp_scalars::Refusal;
use ocppj_frame::MessageId;
use site_core::PointId;
use std::alloc::{AllocError, Global};

/// A line that a script prints.
#[derive(Drop)]
pub enum PrintedLine {
    /// The answer to the CALL of this id.
    Answer { id: MessageId, response: Response },
    /// A call that goes out to the point of this identity.
    Call { point: PointId, call: Call },
    /// The request of this number is held.
    Held(u64),
    /// The script's line of this number has this fault.
    Fault { line: u64, fault: ScriptLineFault },
}

impl PrintedLine {
    /// Returns whether it names a fault of its line, or is an answer that refuses a message. A
    /// schedule that is too long isn't counted: it changes nothing, as the schedule wouldn't, and
    /// is unknown if the schedule wasn't compiled.
    pub fn is_refusal(&self) -> bool {
        match self {
            PrintedLine::Fault { .. } => true,
            PrintedLine::Answer { response, .. } => {
                !matches!(response, Response::Rejected(Refusal::ResultTooLong))
                    && matches!(response, Response::Rejected(_) | Response::Error(_))
            }
            PrintedLine::Call { .. } | PrintedLine::Held(_) => false,
        }
    }
}

/// Returns the texts of lines, one after another.
pub fn print_lines(alloc: Global, lines: &[PrintedLine]) -> Result<String, AllocError>
    ensures { IfOk result (λ text. string_bytes text ≡ printed_texts lines.now) }
{
    if lines.is_empty() {
        return Ok(String::new(alloc));
    }
    // Room from the start for a short line, so that it isn't copied as it grows.
    let mut text = String::with_capacity(alloc, 128)?;
    for line in lines {
        push_line(&mut text, line)?;
    }
    Ok(text)
}

/// Appends the text of a line that `replay` prints for a script's line: an answer, a call, the
/// number of a held request or a fault.
fn push_line(text: &mut String, line: &PrintedLine) -> Result<(), AllocError>
    ensures { OnOk result
        (string_bytes text.new ≡ string_bytes text.old ++ printed_text line.now) }
{
    match line {
        PrintedLine::Answer { id, response } => push_answer(text, id.as_str(), response),
        PrintedLine::Call { point, call } => push_sent(text, point.as_str(), call),
        PrintedLine::Held(number) => push_held(text, *number),
        PrintedLine::Fault { line, fault } => push_fault(text, *line, *fault),
    }
}

/// Appends the line that begins with `> `, in which a replayed script prints the answer to the CALL
/// of this id.
fn push_answer(text: &mut String, id: &str, response: &Response) -> Result<(), AllocError>
    ensures { OnOk result
        (string_bytes text.new ≡ string_bytes text.old ++ response_line id.now response.now) }
{
    text.push_str("> ")?;
    push_response(text, id, response)?;
    text.push_str("\n")?;
    Ok(())
}

/// Appends the line that begins with `* `, in which a replayed script prints a call that goes out
/// to a point.
fn push_sent(text: &mut String, point: &str, call: &Call) -> Result<(), AllocError>
    ensures { OnOk result
        (string_bytes text.new ≡ string_bytes text.old ++ sent_line point.now call.now) }
{
    text.push_str("* ")?;
    text.push_str(point)?;
    text.push_str(" ")?;
    push_call(text, call)?;
    text.push_str("\n")?;
    Ok(())
}

/// Appends the line in which a replayed script prints the number of a schedule request that it
/// holds.
fn push_held(text: &mut String, number: u64) -> Result<(), AllocError>
    ensures { OnOk result
        (string_bytes text.new ≡ string_bytes text.old ++ held_line number) }
{
    write!(text, "held {number}\n")?;
    Ok(())
}

/// Appends the line that begins with `! `, in which a replayed script prints the fault of its line
/// of this number.
fn push_fault(text: &mut String, line: u64, fault: ScriptLineFault) -> Result<(), AllocError>
    ensures { OnOk result
        (string_bytes text.new ≡ string_bytes text.old ++ fault_line line fault) }
{
    write!(text, "! {line} {fault}\n")?;
    Ok(())
}
