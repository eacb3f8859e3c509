//! Findings in a site file or a script: their severities, places and messages.

ghost use Rattle.std.specs.Prelude.{◌≡◌};
ghost use Rattle.findings.specs.ExitStatus.{exit_status, has_fault, has_warning, joined_status};

use std::alloc::{AllocError, Global};
use std::fmt;

/// The severity of a finding.
#[derive(Clone, Copy, PartialEq, Eq)]
pub enum Severity {
    /// The file isn't accepted, the line isn't played, or its message is refused.
    Fault,
    /// It is accepted, but probably does something unintended.
    Warning,
    /// It is accepted, and worth a look.
    Remark,
}

/// The place of a finding.
#[derive(PartialEq, Eq, Drop)]
pub enum Location {
    /// The whole file.
    File,
    /// A character of the file, both counted from 1.
    Character { line: u64, column: u64 },
    /// A point of the site file, counted from 0, and its identity if it has one.
    Point { index: usize, id: Option<String> },
    /// A line of a script or a journal, counted from 1, and the identity of its point if it has
    /// one.
    Line { number: u64, point: Option<String> },
    /// The state of the point of this identity at the end of a script or a journal.
    End(String),
}

/// A mistake, or something worth a look.
#[derive(Drop)]
pub struct Finding {
    pub severity: Severity,
    pub place: Location,
    /// The problem, in one line, with the value wanted where there is one.
    pub message: String,
}

impl Location {
    /// Returns the place of a line, whose point isn't known yet.
    pub fn line(number: u64) -> Location {
        Location::Line {
            number,
            point: None,
        }
    }
}

impl Finding {
    /// Makes a fault.
    pub fn fault(place: Location, message: String) -> Finding {
        Finding {
            severity: Severity::Fault,
            place,
            message,
        }
    }

    /// Makes a warning.
    pub fn warning(place: Location, message: String) -> Finding {
        Finding {
            severity: Severity::Warning,
            place,
            message,
        }
    }

    /// Makes a remark.
    pub fn remark(place: Location, message: String) -> Finding {
        Finding {
            severity: Severity::Remark,
            place,
            message,
        }
    }
}

impl fmt::Display for Severity {
    fn fmt<W: fmt::Write>(&self, f: &mut fmt::Formatter<W>) -> fmt::Result {
        match self {
            Severity::Fault => f.write_str("fault"),
            Severity::Warning => f.write_str("warning"),
            Severity::Remark => f.write_str("remark"),
        }
    }
}

impl fmt::Display for Location {
    fn fmt<W: fmt::Write>(&self, f: &mut fmt::Formatter<W>) -> fmt::Result {
        match self {
            Location::File => f.write_str("the file"),
            Location::Character { line, column } => write!(f, "line {line}, column {column}"),
            Location::Point { index, id } => {
                write!(f, "points[{index}]")?;
                write_identity(f, id)
            }
            Location::Line { number, point } => {
                write!(f, "line {number}")?;
                write_identity(f, point)
            }
            Location::End(point) => write!(f, "{point}, at the end"),
        }
    }
}

/// Writes the identity of a point after the place of a finding of `check`, if it has one.
fn write_identity<W: fmt::Write>(
    f: &mut fmt::Formatter<W>,
    identity: &Option<String>,
) -> fmt::Result {
    match identity {
        Some(identity) => write!(f, " ({identity})"),
        None => Ok(()),
    }
}

/// Writes one line: the place, the severity unless it is a fault, and the message.
impl fmt::Display for Finding {
    fn fmt<W: fmt::Write>(&self, f: &mut fmt::Formatter<W>) -> fmt::Result {
        let place = &self.place;
        let message = self.message.as_str();
        match self.severity {
            Severity::Fault => write!(f, "{place}: {message}"),
            severity => write!(f, "{place}: {severity}: {message}"),
        }
    }
}

/// Names the point of this identity in those findings in a line that name none.
pub fn name_point(alloc: Global, findings: &mut [Finding], point: &str) -> Result<(), AllocError> {
    for finding in findings {
        if let Location::Line { point: named, .. } = &mut finding.place {
            if named.is_none() {
                *named = Some(String::from_str(alloc, point)?);
            }
        }
    }
    Ok(())
}

/// Sorts the findings of several passes over a script or a journal by line. Those of one line keep
/// their order. Findings without a line come first, and those in the points at the end come last.
pub fn sort_by_line(findings: &mut Vec<Finding>) -> Result<(), AllocError> {
    findings.sort_by_key(|finding| line_of(&finding.place))
}

/// Returns a finding's line in a script or a journal, by which `check` sorts its findings. Without
/// a line it is a number below or above all lines.
fn line_of(place: &Location) -> u64 {
    match place {
        Location::Line { number, .. } => *number,
        Location::File | Location::Character { .. } | Location::Point { .. } => 0,
        Location::End(_) => u64::MAX,
    }
}

/// Returns the exit status of a check: 1 with a fault, 2 with warnings only, otherwise 0. Remarks
/// have no effect.
pub fn exit_status(findings: &[Finding]) -> u8
    ensures { result ≡ exit_status findings.now }
{
    if has_fault(findings) {
        1
    } else if has_warning(findings) {
        2
    } else {
        0
    }
}

/// Returns the exit status of two checks together, given that of each.
pub fn joined_status(first: u8, second: u8) -> u8
    ensures { result ≡ joined_status first second }
{
    if first == 1 || second == 1 {
        1
    } else {
        first.max(second)
    }
}

/// Returns whether one of these findings is a fault.
pub fn has_fault(findings: &[Finding]) -> bool
    ensures { result ≡ has_fault findings.now }
{
    findings
        .iter()
        .any(|finding| matches!(finding.severity, Severity::Fault))
}

/// Returns, for the exit status of `check`, whether one of these findings is a warning, in a site
/// file, a file of keys, a script or a journal.
fn has_warning(findings: &[Finding]) -> bool
    ensures { result ≡ has_warning findings.now }
{
    findings
        .iter()
        .any(|finding| matches!(finding.severity, Severity::Warning))
}
