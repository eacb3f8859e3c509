//! Writes findings, one on each line.

use findings::{Finding, Location, Severity};
use std::alloc::{AllocError, Global};
use std::fmt::Write;

/// The name before each finding in a script.
const SCRIPT: &str = "script";

/// Writes the findings in a site file, one on each line, by severity. Equal warnings and remarks on
/// points share a line.
// Faults come first, since they would be hard to find among the remarks on many points.
pub fn site_page(alloc: Global, name: &str, findings: &[Finding]) -> Result<String, AllocError> {
    let mut page = String::new(alloc);
    for severity in [Severity::Fault, Severity::Warning, Severity::Remark] {
        push_of_severity(&mut page, name, findings, severity)?;
    }
    Ok(page)
}

/// Appends a line for each finding, with the name of its source before it.
pub fn push_findings(
    page: &mut String,
    name: &str,
    findings: &[Finding],
) -> Result<(), AllocError> {
    for finding in findings {
        push_finding(page, name, finding)?;
    }
    Ok(())
}

/// Appends to the output of `check` a line for each finding in a script or a journal. The findings
/// are sorted by line, and equal ones at the end share a line.
pub(crate) fn push_history_findings(
    page: &mut String,
    findings: &[Finding],
) -> Result<(), AllocError> {
    let is_at_end = |finding: &Finding| matches!(finding.place, Location::End(_));
    let first = findings
        .iter()
        .position(is_at_end)
        .unwrap_or(findings.len());
    let (in_lines, at_end) = findings.split_at(first);
    push_findings(page, SCRIPT, in_lines)?;
    for number in 0..at_end.len() {
        push_once(page, SCRIPT, at_end, number)?;
    }
    Ok(())
}

/// Appends a line to the output of `check` for each finding of this severity in a site file.
fn push_of_severity(
    page: &mut String,
    name: &str,
    findings: &[Finding],
    severity: Severity,
) -> Result<(), AllocError> {
    for (number, finding) in findings.iter().enumerate() {
        if finding.severity == severity {
            push_once(page, name, findings, number)?;
        }
    }
    Ok(())
}

/// Appends the line of a finding to the output of `check`, with the name of the checked file, or
/// the word `script`, before it.
fn push_finding(page: &mut String, name: &str, finding: &Finding) -> Result<(), AllocError> {
    match writeln!(page, "{name}: {finding}") {
        Ok(()) => Ok(()),
        Err(_) => Err(AllocError),
    }
}

/// Appends the finding at this index to the output of `check`, unless an earlier point has the same
/// one.
fn push_once(
    page: &mut String,
    name: &str,
    findings: &[Finding],
    number: usize,
) -> Result<(), AllocError> {
    let Some(finding) = findings.get(number) else {
        return Ok(());
    };
    let (earlier, rest) = findings.split_at(number);
    if earlier.iter().any(|other| are_alike(finding, other)) {
        return Ok(());
    }
    push_counted(page, name, finding, rest)
}

/// Returns whether two findings are both warnings on points, or both remarks, with the same
/// message. Then they share a line in the output of `check`.
// A fault has to be mended at each point, so each one has a line.
fn are_alike(finding: &Finding, other: &Finding) -> bool {
    is_on_point(finding)
        && is_on_point(other)
        && finding.severity != Severity::Fault
        && finding.severity == other.severity
        && finding.message.as_str() == other.message.as_str()
}

/// Returns whether a finding is on a point of the site file, or on one at the end of a script or a
/// journal. Such findings may share a line in the output of `check`.
fn is_on_point(finding: &Finding) -> bool {
    matches!(finding.place, Location::Point { .. } | Location::End(_))
}

/// Appends a finding to the output of `check`. If later points have the same one, they share its
/// line, which names the last of them and their number.
fn push_counted(
    page: &mut String,
    name: &str,
    finding: &Finding,
    rest: &[Finding],
) -> Result<(), AllocError> {
    let (count, last) = count_alike(finding, rest);
    if count < 2 {
        return push_finding(page, name, finding);
    }
    let (severity, message) = (finding.severity, finding.message.as_str());
    let written = match (&finding.place, &last.place) {
        (Location::End(from), Location::End(to)) => writeln!(
            page,
            "{name}: {from} to {to}, {count} points, at the end: {severity}: {message}"
        ),
        (from, to) => writeln!(
            page,
            "{name}: {from} to {to}, {count} points: {severity}: {message}"
        ),
    };
    match written {
        Ok(()) => Ok(()),
        Err(_) => Err(AllocError),
    }
}

/// Returns the number of findings of `check` with the same message as this one, and the last of
/// them, to report all in one line.
fn count_alike<'a>(finding: &'a Finding, others: &'a [Finding]) -> (usize, &'a Finding) {
    let mut count = 0usize;
    let mut last = finding;
    for other in others {
        if are_alike(finding, other) {
            count = count.saturating_add(1);
            last = other;
        }
    }
    (count, last)
}
