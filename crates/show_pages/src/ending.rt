//! Sentences about what a script leaves undone.

use crate::words::push_count;
use page_text::Page;
use replay::Held;
use site_core::Machine;
use site_history::{HeldLines, PointCalls, UnsentCall};
use std::alloc::{AllocError, Global};

/// The end of a site's history.
#[derive(Clone, Copy)]
pub struct Ending<'a> {
    pub machine: &'a Machine,
    /// The progress of the calls to each point, in the order of the site file.
    pub points: &'a [PointCalls],
    /// The requests of a script that are still held, and the lines that held requests.
    pub held: &'a [Held],
    pub held_lines: &'a HeldLines,
}

/// Returns a sentence a line for what a site's history leaves undone. These are requests that no
/// line released, calls that never went out or were never answered, calls that a point rejected,
/// and starts that it accepted and never made. A point that never sent a message isn't reported if
/// only call 0 waits, which clears its earlier profiles.
pub fn ending_text(alloc: Global, ending: &Ending<'_>) -> Result<String, AllocError> {
    let mut page = Page::new(alloc);
    push_held(&mut page, ending);
    let machine = ending.machine;
    for (place, calls) in ending.points.iter().enumerate() {
        if let Some(point) = machine.site().point(place) {
            push_rejected(&mut page, point.id, calls);
            push_starts(&mut page, point.id, machine);
            push_unanswered(&mut page, point.id, calls);
            push_waiting(&mut page, point.id, calls);
        }
    }
    page.finish()
}

/// Appends, at the end of `check`'s output, a sentence on each request for a schedule that a script
/// held and never released.
fn push_held(page: &mut Page, ending: &Ending<'_>) {
    for held in ending.held {
        let number = held.number;
        match ending.held_lines.line_of(number) {
            Some(line) => {
                let since = line.line;
                let point = &line.point;
                write!(
                    page,
                    "{point}: request {number} was held at line {since} and never released\n"
                );
            }
            None => write!(page, "request {number} was held and never released\n"),
        }
    }
}

/// Appends, at the end of `check`'s output, a sentence on each call of a script or a journal that
/// the charge point rejected.
fn push_rejected(page: &mut Page, id: &str, calls: &PointCalls) {
    for rejected in &calls.rejected {
        let line = rejected.line;
        let status = &rejected.status;
        let number = rejected.call.number;
        let what = &rejected.call.what;
        let sent = rejected.call.line;
        write!(
            page,
            "{id}: call {number} ({what}), which went out after line {sent}, was answered {status} at line {line}\n"
        );
    }
}

/// Appends, at the end of `check`'s output, a sentence on each remote start that the charge point
/// accepted and never made.
fn push_starts(page: &mut Page, id: &str, machine: &Machine) {
    let Some(outbox) = machine.outbox_of(id) else {
        return;
    };
    for start in machine.waiting_of(id) {
        let connector = start.connector;
        let number = start.call;
        let id_tag = start.id_tag.as_str();
        // A start whose call isn't confirmed yet is reported as a call, below.
        if number < outbox.first_number() {
            write!(
                page,
                "{id}: the point accepted call {number}, a start at connector {connector} by idTag {id_tag}, and no transaction began there since\n"
            );
        }
    }
}

/// Appends, at the end of `check`'s output, a sentence on the call to the point that is in flight
/// after the script or journal, if any.
fn push_unanswered(page: &mut Page, id: &str, calls: &PointCalls) {
    if let Some(call) = &calls.in_flight {
        let number = call.number;
        let what = &call.what;
        let line = call.line;
        write!(
            page,
            "{id}: call {number} ({what}) went out after line {line} and was never answered\n"
        );
    }
}

/// Appends, at the end of `check`'s output, a sentence on the calls to the point that never went
/// out in the script or journal, if any.
fn push_waiting(page: &mut Page, id: &str, calls: &PointCalls) {
    // No line added call 0, so a point for which only that waits has no sentence.
    let Some(line) = first_line(&calls.waiting) else {
        return;
    };
    let why = match &calls.in_flight {
        Some(_) => "a call goes out once the one before it is answered",
        None => "a call goes out after a message of the point",
    };
    write!(page, "{id}: ");
    push_count(page, calls.waiting.len(), "call");
    write!(page, " never went out, waiting since line {line}: {why}\n");
}

/// Returns the first line of a script or a journal that added one of these calls that never went
/// out. A sentence at the end of `check`'s output names it.
fn first_line(waiting: &[UnsentCall]) -> Option<u64> {
    let (line, _moment) = waiting.iter().find_map(|unsent| unsent.added)?;
    Some(line)
}
