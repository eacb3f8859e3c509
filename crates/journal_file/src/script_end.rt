//! The end up to which a script or a journal is played.

use ocpp_scalars::{Instant, read_instant};

/// The end up to which a script or a journal is played.
#[derive(Clone, Copy, PartialEq, Eq)]
pub enum ScriptEnd {
    /// The whole of it.
    Whole,
    /// This many lines.
    Lines(u64),
    /// The lines before the first one that is later than this moment.
    Moment(Instant),
}

impl ScriptEnd {
    /// Returns the number of the last line of a script that is played, or None if all are.
    pub fn last_line(self, script: &[u8]) -> Option<u64> {
        match self {
            ScriptEnd::Whole => None,
            ScriptEnd::Lines(lines) => Some(lines),
            ScriptEnd::Moment(moment) => Some(lines_until(script, moment)),
        }
    }

    /// Returns whether this end comes before a line of a journal, given its number in the script
    /// and its moment.
    pub fn is_before(self, number: u64, moment: Instant) -> bool {
        match self {
            ScriptEnd::Whole => false,
            ScriptEnd::Lines(lines) => lines < number,
            ScriptEnd::Moment(last) => last < moment,
        }
    }
}

/// Counts the lines in a script of messages before the first one that is later than this moment.
/// `explain` and `show` play a script or a journal up to such a moment by `--at`.
fn lines_until(script: &[u8], moment: Instant) -> u64 {
    let mut lines = 0u64;
    for line in script.split(|byte| *byte == b'\n') {
        if moment_of(line).is_some_and(|later| later > moment) {
            break;
        }
        lines = lines.saturating_add(1);
    }
    lines
}

/// Returns the moment at the beginning of a line in a script of messages, to find the end by `--at`
/// of `explain` and `show`. None if the line has no moment.
fn moment_of(line: &[u8]) -> Option<Instant> {
    let text = std::str::from_utf8(line).ok()?;
    let (moment, _) = text.split_once(' ')?;
    read_instant(moment).ok()
}
