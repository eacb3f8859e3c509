//! Checks a file of keys: its faults, and the clients that it lets in.

use findings::{Finding, Location, Severity};
use site_keys::{Keys, KeysFault};
use site_rules::Site;
use std::alloc::{AllocError, Global};

/// The finding in a line.
#[derive(Drop)]
struct InLine<'a> {
    severity: Severity,
    message: String,
    /// The point that the line lets in, if it does.
    point: Option<&'a str>,
}

/// Checks a file of keys, line by line. If the site is known, warns of a line that lets in a point
/// that the site lacks, and of a point that no line lets in.
pub fn find_in_keys(
    alloc: Global,
    bytes: &[u8],
    site: Option<&Site>,
) -> Result<Vec<Finding>, AllocError> {
    let mut findings = Vec::new(alloc);
    let mut points = Vec::new(alloc);
    let mut number = 0u64;
    for line in bytes.split(|byte| *byte == b'\n') {
        number = number.saturating_add(1);
        let Some(found) = found_in_line(alloc, line, site)? else {
            continue;
        };
        let InLine {
            severity,
            message,
            point,
        } = found;
        if let Some(point) = point {
            points.push(point)?;
        }
        findings.push(found_at(Location::line(number), severity, message))?;
    }
    if let Some(site) = site {
        find_left_out(alloc, points.as_slice(), site, &mut findings)?;
    }
    Ok(findings)
}

/// Makes a finding of `check` in a file of keys, of this severity and at this place.
fn found_at(place: Location, severity: Severity, message: String) -> Finding {
    Finding {
        severity,
        place,
        message,
    }
}

/// Returns the finding of `check` in a line of a file of keys: a fault, or the client that the line
/// lets in. A skipped line has none.
fn found_in_line<'a>(
    alloc: Global,
    line: &'a [u8],
    site: Option<&Site>,
) -> Result<Option<InLine<'a>>, AllocError> {
    // A file is read up to its first fault. Each line is such a file too, so all faults are found.
    match Keys::read(alloc, line) {
        Ok(_) => {}
        Err(KeysFault::Line { fault, .. }) => {
            return Ok(Some(InLine {
                severity: Severity::Fault,
                message: fault.to_string(alloc)?,
                point: None,
            }));
        }
        Err(KeysFault::OutOfMemory) => return Err(AllocError),
    }
    match user_of(line) {
        Some((role, name)) => Ok(Some(found_for_client(alloc, role, name, site)?)),
        None => Ok(None),
    }
}

/// Returns the finding of `check` that a line of a file of keys lets in a client. It is a warning
/// if the site lacks the point.
fn found_for_client<'a>(
    alloc: Global,
    role: &str,
    name: &'a str,
    site: Option<&Site>,
) -> Result<InLine<'a>, AllocError> {
    let is_point = role == "point";
    let is_missing = is_point && site.is_some_and(|site| site.place_of(name).is_none());
    let (severity, behind) = if is_missing {
        (Severity::Warning, ", which the site file hasn't")
    } else {
        (Severity::Remark, "")
    };
    Ok(InLine {
        severity,
        message: format!(in alloc; "it lets in {role} {name}{behind}")?,
        point: if is_point { Some(name) } else { None },
    })
}

/// Returns the role and the name of the client in a line of a file of keys, for `check`. A skipped
/// line has none.
fn user_of(line: &[u8]) -> Option<(&str, &str)> {
    let text = str::from_utf8(line).ok()?;
    if text.starts_with('#') {
        return None;
    }
    let (role, rest) = text.split_once(' ')?;
    let (name, _) = rest.split_once(' ')?;
    Some((role, name))
}

/// Adds to the findings of `check` a warning for each point of the site that no line of a file of
/// keys lets in.
fn find_left_out(
    alloc: Global,
    let_in: &[&str],
    site: &Site,
    findings: &mut Vec<Finding>,
) -> Result<(), AllocError> {
    for place in 0..site.len() {
        let Some(point) = site.point(place) else {
            continue;
        };
        if !let_in.iter().any(|name| *name == point.id) {
            let message = format!(in alloc; "no line lets in point {}", point.id)?;
            findings.push(found_at(Location::File, Severity::Warning, message))?;
        }
    }
    Ok(())
}
