//! A line of a script that was played: its contents and its outcome.

use crate::script::line::{ScriptLine, ScriptLineFault};
use crate::script::point_change::PointChange;
use crate::script::printed_line::PrintedLine;

/// The outcome of a line of a script.
#[derive(Drop)]
pub struct LineOutcome {
    /// The lines that it prints.
    pub printed: Vec<PrintedLine>,
    /// Whether it has a fault.
    pub is_fault: bool,
    /// The change at its point.
    pub change: PointChange,
}

/// A line of a script that was played.
#[derive(Drop)]
pub struct PlayedLine<'a> {
    /// Its number, from 1.
    pub number: u64,
    /// The line without its ending.
    pub line: &'a [u8],
    /// Its contents on the site, or its fault; `None` if it is empty.
    pub said: Option<Result<ScriptLine<'a>, ScriptLineFault>>,
    pub outcome: LineOutcome,
}
