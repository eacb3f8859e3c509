//! The state of a site as a table.

use command_io::ProgramFault;
use json::{Error, Scratch, Value};
use page_text::Page;
use show_pages::Table;
use site_status::push_without_controls;
use std::alloc::{AllocError, Global};

/// The column headings of a table of points.
const HEADINGS: [&str; 10] = [
    "point",
    "connected since",
    "last text",
    "booted",
    "confirmed",
    "in flight since",
    "waiting",
    "waiting since",
    "rejected",
    "unheld",
];

/// The cell of a value that wasn't observed.
const NONE: &str = "-";

/// The state of a site, as printed.
#[derive(Drop)]
pub struct StatusTable {
    /// The table, with warnings below it.
    pub text: String,
    /// Whether the site is well, and each connected point is known to have its profiles.
    pub is_healthy: bool,
}

/// Returns the table of a state in the form of `/state.json`.
pub fn status_table(alloc: Global, state: &str) -> Result<StatusTable, ProgramFault> {
    let mut scratch = Scratch::new(alloc);
    let state = match Value::parse(alloc, state, &mut scratch) {
        Ok(state) => state,
        Err(Error::OutOfMemory) => return Err(ProgramFault::OutOfMemory),
        Err(_) => return Err(ProgramFault::NoStatus),
    };
    let (Some(health), Some(Value::Array(points))) = (
        text_in(&state, "health"),
        state.get("points"),
    ) else {
        return Err(ProgramFault::NoStatus);
    };
    let mut page = Page::new(alloc);
    push_points(&mut page, points);
    if health != "ok" {
        write!(page, "the site: {health}\n");
    }
    Ok(StatusTable {
        text: page.finish()?,
        is_healthy: health == "ok" && !points.iter().any(|point| lacks_profiles(point)),
    })
}

/// Appends the table of charge points that the command `status` prints, and their warnings.
fn push_points(page: &mut Page, points: &[Value<'_>]) {
    let mut table = Table::new(page.allocator(), &HEADINGS);
    for point in points {
        push_row(&mut table, page.allocator(), point);
    }
    table.push_to(page, 0);
    for point in points {
        push_unheld(page, point);
        push_warning(page, point);
    }
}

/// Returns whether a charge point is connected, and isn't known to have each profile that is meant
/// for it. Then the command `status` doesn't say that all is well.
fn lacks_profiles(point: &Value<'_>) -> bool {
    text_in(point, "connectedSince").is_some() && number_in(point, "unheld") != Some("0")
}

/// Appends a line below the table of `status` for each profile that a charge point isn't known to
/// have.
fn push_unheld(page: &mut Page, point: &Value<'_>) {
    let (Some(id), Some(Value::Array(profiles))) = (text_in(point, "id"), point.get("profiles"))
    else {
        return;
    };
    for profile in profiles {
        if text_in(profile, "state") != Some("held") {
            push_profile(page, id, profile);
        }
    }
}

/// Appends a line below the table of `status` with the state of an installed profile at its charge
/// point.
fn push_profile(page: &mut Page, point: &str, profile: &Value<'_>) {
    let id = number_in(profile, "chargingProfileId").unwrap_or(NONE);
    let purpose = text_in(profile, "chargingProfilePurpose").unwrap_or(NONE);
    let connector = number_in(profile, "connectorId").unwrap_or(NONE);
    let state = text_in(profile, "state").unwrap_or(NONE);
    write!(
        page,
        "{point}: {purpose} {id} at connector {connector} is {state}\n"
    );
}

/// Appends the row of a charge point to the table of `status`.
fn push_row(table: &mut Table, alloc: Global, point: &Value<'_>) {
    table.begin_row();
    table.cell(text_in(point, "id").unwrap_or(NONE));
    table.cell(text_in(point, "connectedSince").unwrap_or(NONE));
    table.cell(text_in(point, "lastText").unwrap_or(NONE));
    table.cell(text_in(point, "booted").unwrap_or(NONE));
    table.cell(number_in(point, "confirmed").unwrap_or(NONE));
    table.cell(text_in(point, "inFlightSince").unwrap_or(NONE));
    table.cell(number_in(point, "waiting").unwrap_or(NONE));
    table.cell(text_in(point, "waitingSince").unwrap_or(NONE));
    table.made_cell(rejected_cell(alloc, point));
    table.cell(number_in(point, "unheld").unwrap_or(NONE));
}

/// Returns a cell in the table of `status`: the number of calls that a point rejected, and the last
/// of them with its reason.
fn rejected_cell(alloc: Global, point: &Value<'_>) -> Result<String, AllocError> {
    let mut cell = String::from_str(alloc, number_in(point, "rejections").unwrap_or(NONE))?;
    let Some(rejected) = point.get("rejected") else {
        return Ok(cell);
    };
    if let (Some(call), Some(reason)) = (number_in(rejected, "call"), text_in(rejected, "reason")) {
        write!(cell, ": call {call}")?;
        if let Some(action) = text_in(rejected, "action") {
            write!(cell, ", {action}")?;
        }
        cell.push_str(", ")?;
        // The reason is the point's own text: a line break in it would spoil the table.
        push_without_controls(&mut cell, reason)?;
    }
    Ok(cell)
}

/// Appends a warning for a charge point below the table of `status`, if it may have lost profiles.
fn push_warning(page: &mut Page, point: &Value<'_>) {
    let (Some(true), Some(id)) = (flag_in(point, "mayHaveForgotten"), text_in(point, "id")) else {
        return;
    };
    write!(
        page,
        "{id}: it may have lost profiles: audit it, or install them anew\n"
    );
}

/// Returns the text in a field of the status port's `/state.json`, if there is one, for the tables
/// of `status`.
fn text_in<'a>(object: &Value<'a>, key: &str) -> Option<&'a str> {
    object.get(key)?.as_str()
}

/// Returns the number in a field of the status port's `/state.json`, as it is written, if there is
/// one, for the tables of `status`.
fn number_in<'a>(object: &Value<'a>, key: &str) -> Option<&'a str> {
    object.get(key)?.as_number()
}

/// Returns the truth value in a field of the status port's `/state.json`, if there is one, for the
/// tables of `status`.
fn flag_in(object: &Value<'_>, key: &str) -> Option<bool> {
    object.get(key)?.as_bool()
}
