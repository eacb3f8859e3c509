//! Finds all faults of a site file.

use crate::broken_json::first_break;
use crate::finding::{Finding, Location};
use crate::found::{Glance, KnownField};
use crate::site_pass::SitePass;
use crate::site_points::CheckedPoints;
use crate::text_place::place_in_text;
use json::{Invalid, Reader, Scratch};
use ocppj_frame::mark_text;
use profile::{Named, Unit};
use site_rules::{MAX_SITE_BYTES, SiteFault, read_site};
use std::alloc::{AllocError, Global};

/// The index of `points` among a site's fields.
const POINTS: usize = 1;

/// Returns the faults of a site file in the order of their checks, each point's remark after its
/// faults, and then the warnings. The first fault is the one that `site_rules::read_site` names;
/// there is none if that reads a site.
pub fn check_site(alloc: Global, bytes: &[u8]) -> Result<Vec<Finding>, AllocError> {
    let fault = read_site(alloc, bytes).err();
    match (fault, std::str::from_utf8(bytes)) {
        (Some(SiteFault::OutOfMemory), _) => Err(AllocError),
        (Some(SiteFault::TooLarge), _) => {
            let count = bytes.len();
            let message = format!(in alloc; "{count} bytes; at most {MAX_SITE_BYTES} are allowed")?;
            alone(alloc, Location::File, message)
        }
        (_, Err(error)) => {
            let offset = error.valid_up_to();
            let message = format!(in alloc; "it isn't UTF-8 from the byte at offset {offset} on")?;
            alone(alloc, Location::File, message)
        }
        (Some(SiteFault::NotJson), Ok(text)) => check_broken(alloc, text),
        (_, Ok(text)) => check_text(alloc, text),
    }
}

/// Returns a list of the one fault with which `check` of a site file ends.
fn alone(alloc: Global, place: Location, message: String) -> Result<Vec<Finding>, AllocError> {
    let mut findings = Vec::new(alloc);
    findings.push(Finding::fault(place, message))?;
    Ok(findings)
}

/// Returns the fault with which `check` ends in a site file that isn't JSON: where it breaks.
fn check_broken(alloc: Global, text: &str) -> Result<Vec<Finding>, AllocError> {
    let fault = first_break(alloc, text)?;
    let message = format!(in alloc; "the JSON breaks where {fault}")?;
    alone(alloc, place_in_text(text, fault.offset), message)
}

/// Returns the findings of `check` in a site file from which a JSON tree can be read.
fn check_text(alloc: Global, text: &str) -> Result<Vec<Finding>, AllocError> {
    if let Some(findings) = pass_over(alloc, text, false)? {
        return Ok(findings);
    }
    // A malformed number breaks the JSON. But the file is read if a later field of the same name
    // replaces it. In a marked text it is a string, so its check goes on.
    let mut room = Vec::new(alloc);
    let marked = mark_text(text, &mut room)?;
    match pass_over(alloc, marked, true)? {
        Some(mut findings) => {
            add_break(alloc, text, &mut findings)?;
            Ok(findings)
        }
        None => check_broken(alloc, text),
    }
}

/// Adds to the findings of `check` a warning of where a site file breaks that is read all the same.
fn add_break(alloc: Global, text: &str, findings: &mut Vec<Finding>) -> Result<(), AllocError> {
    let fault = first_break(alloc, text)?;
    let message = format!(in alloc;
        "the JSON breaks where {fault}; a later field of the same name counts"
    )?;
    findings.push(Finding::warning(place_in_text(text, fault.offset), message))?;
    Ok(())
}

/// Goes through the text of a site file, which may be marked, and returns the findings of `check`,
/// or none if the text isn't JSON.
fn pass_over(
    alloc: Global,
    text: &str,
    is_marked: bool,
) -> Result<Option<Vec<Finding>>, AllocError> {
    let mut scratch = Scratch::new(alloc);
    let mut reader = Reader::new(text, &mut scratch)?;
    let mut pass = SitePass::new(alloc, text, is_marked);
    let mut findings = Vec::new(alloc);
    if read_whole(&mut pass, &mut reader, &mut findings).is_err() {
        return Ok(None);
    }
    pass.append_to(&mut findings)?;
    Ok(Some(findings))
}

/// Reads the value that a site file is, and adds the findings of `check` in it.
fn read_whole<'a>(
    pass: &mut SitePass<'a>,
    reader: &mut Reader<'a>,
    findings: &mut Vec<Finding>,
) -> Result<(), Invalid> {
    if pass.begins(reader, b'{') {
        return read_site_object(pass, reader, findings);
    }
    let whole = pass.read_value(reader)?;
    let outcome = add_no_object(pass.alloc, whole, findings);
    pass.note(outcome);
    Ok(())
}

/// Reads the object of a site file, which has begun, and adds the findings of `check` in it.
fn read_site_object<'a>(
    pass: &mut SitePass<'a>,
    reader: &mut Reader<'a>,
    findings: &mut Vec<Finding>,
) -> Result<(), Invalid> {
    let mut fields = [
        KnownField::new("unit", "\"A\" or \"W\""),
        KnownField::new("points", "a list of 1 to 1000 objects"),
    ];
    let mut points = CheckedPoints::new(pass.alloc);
    read_fields(pass, reader, &mut fields, &mut points)?;
    let outcome = add_site(pass.alloc, &fields, &mut points, findings);
    pass.note(outcome);
    Ok(())
}

/// Reads the unit and the points of a site file for `check`.
fn read_fields<'a>(
    pass: &mut SitePass<'a>,
    reader: &mut Reader<'a>,
    fields: &mut [KnownField<'a>],
    points: &mut CheckedPoints,
) -> Result<(), Invalid> {
    // Each field has at least one byte, so this range ends the loop without a proof of its own.
    for _ in 0..pass.text.len() {
        let Some(place) = pass.next_field(reader, fields)? else {
            break;
        };
        let value = read_field(pass, reader, place, points)?;
        if let Some(field) = fields.get_mut(place) {
            field.value = Some(value);
        }
    }
    Ok(())
}

/// Reads the value of a site file's field for `check`, with the contents of the list of points.
fn read_field<'a>(
    pass: &mut SitePass<'a>,
    reader: &mut Reader<'a>,
    place: usize,
    points: &mut CheckedPoints,
) -> Result<Glance<'a>, Invalid> {
    if place != POINTS || !pass.begins(reader, b'[') {
        return pass.read_value(reader);
    }
    // Of duplicate fields the last one counts. The earlier points are freed first.
    *points = CheckedPoints::new(pass.alloc);
    points.read(pass, reader)?;
    Ok(Glance::List)
}

/// Adds to the findings of `check` the fault that a site file is a JSON value other than an object.
fn add_no_object(
    alloc: Global,
    whole: Glance<'_>,
    findings: &mut Vec<Finding>,
) -> Result<(), AllocError> {
    let message = format!(in alloc;
        "{whole}; expected an object such as {{\"unit\":\"A\",\"points\":[..]}}"
    )?;
    findings.push(Finding::fault(Location::File, message))?;
    Ok(())
}

/// Adds to the findings of `check` the faults of a site file's `unit` and `points`, with the
/// findings in the points.
fn add_site(
    alloc: Global,
    fields: &[KnownField<'_>; 2],
    list: &mut CheckedPoints,
    findings: &mut Vec<Finding>,
) -> Result<(), AllocError> {
    let [unit, points] = fields;
    if !is_unit(unit.value) {
        add_field_fault(alloc, unit, findings)?;
    }
    match points.value {
        Some(Glance::List) => list.append_to(findings),
        _ => add_field_fault(alloc, points, findings),
    }
}

/// Adds to the findings of `check` the fault of a site file's `unit` or `points`.
fn add_field_fault(
    alloc: Global,
    field: &KnownField<'_>,
    findings: &mut Vec<Finding>,
) -> Result<(), AllocError> {
    let message = format!(in alloc; "{field}")?;
    findings.push(Finding::fault(Location::File, message))?;
    Ok(())
}

/// Returns, for a finding of `check`, whether a value in a site file is valid as its `unit`.
fn is_unit(value: Option<Glance<'_>>) -> bool {
    match value {
        Some(Glance::Text(text)) => Unit::named(text).is_some(),
        _ => false,
    }
}
