//! How calls came out at their points, and those that still wait.

use crate::journal_state::state_of_journal;
use crate::outcome_reader::OutcomeReader;
use command_io::{ProgramFault, read_site_file};
use jobs::Calling;
use journal_file::FolderFault;
use journal_reader::NoReader;
use operator_calls::Visit;
use site_core::{Machine, Outbox};
use site_history::PointCalls;
use site_rules::Site;
use std::alloc::AllocGlobal;
use std::fs::File;
use std::rt::{Clock, Files};

/// The exit status if a point rejected a call, or didn't reply in time, or if that isn't known.
const NOT_DONE: u8 = 5;

/// Prints which of the visited points aren't connected, or have calls that wait behind another, by
/// the journal of the folder, if one is named. With `--wait` first waits for their replies, and
/// prints which calls they rejected. Returns the exit status by that.
pub fn say_outcomes<R: Files<File = File> + Clock + Eprint + AllocGlobal>(
    rt: &R,
    calling: Calling<'_>,
    visits: &[Visit],
) -> Result<u8, ProgramFault> {
    let (Some(folder), Some(path)) = (calling.folder, calling.site) else {
        return Ok(0);
    };
    if calling.dry_run {
        return Ok(0);
    }
    let site = read_site_file(rt, path)?;
    match say_followed(rt, calling.wait, folder, site, visits) {
        Ok(status) => Ok(status),
        // The calls are sent and answered by now: the fault changes the status only of who waits
        // for the points' replies.
        Err(fault) => {
            let _ = eprintln!(rt; "central: which calls wait isn't known: {fault}");
            Ok(calling.wait.map_or(0, |_seconds| NOT_DONE))
        }
    }
}

/// Follows the journal of a folder, up to this many seconds if the command `call` waits for
/// replies. Prints to standard error how its calls came out. Returns the exit status by that.
fn say_followed<R: Files<File = File> + Clock + Eprint + AllocGlobal>(
    rt: &R,
    wait: Option<u64>,
    folder: &str,
    site: Site,
    visits: &[Visit],
) -> Result<u8, FolderFault> {
    let Some(seconds) = wait else {
        let machine = state_of_journal(rt, folder, site, &mut NoReader)?;
        say_of_points(rt, &machine, visits);
        return Ok(0);
    };
    let mut reader = OutcomeReader::new(rt, rt.alloc(), site.len(), visits, seconds)?;
    let machine = state_of_journal(rt, folder, site, &mut reader)?;
    let status = say_rejected(rt, &machine, visits, &reader);
    say_of_points(rt, &machine, visits);
    Ok(status)
}

/// Prints to standard error which calls of the command `call` their points rejected, and which
/// points didn't reply in time. Returns the exit status by that.
fn say_rejected<R: Clock + Eprint>(
    rt: &R,
    machine: &Machine,
    visits: &[Visit],
    reader: &OutcomeReader<'_, R>,
) -> u8 {
    let mut status = 0;
    for (number, visit) in visits.iter().enumerate() {
        let id = visit.id.as_str();
        let calls = machine
            .site()
            .place_of(id)
            .and_then(|place| reader.calls.points().get(place));
        if let Some(calls) = calls {
            status = status.max(say_rejected_by(rt, visit, calls));
        }
        if reader.is_awaited(machine, number) {
            let seconds = reader.seconds;
            let _ = eprintln!(rt; "central: {id} didn't reply within {seconds} s");
            status = NOT_DONE;
        }
    }
    status
}

/// Prints to standard error which calls of the command `call` a point rejected. Returns the exit
/// status by that.
fn say_rejected_by<R: Eprint>(rt: &R, visit: &Visit, calls: &PointCalls) -> u8 {
    let mut status = 0;
    for rejected in &calls.rejected {
        let number = rejected.call.number;
        if number < visit.next_call || visit.calls.is_empty() {
            continue;
        }
        let (id, answer, what) = (&visit.id, &rejected.status, &rejected.call.what);
        let _ = eprintln!(rt; "central: {id} answered {answer} to call {number}, {what}");
        status = NOT_DONE;
    }
    status
}

/// Prints to standard error which of the points that the command `call` visited aren't connected,
/// or have calls that wait.
fn say_of_points<R: Eprint>(rt: &R, machine: &Machine, visits: &[Visit]) {
    for visit in visits {
        let outbox = machine.outbox_of(visit.id.as_str());
        if let (Some(outbox), false) = (outbox, visit.calls.is_empty()) {
            say_of_point(rt, visit.id.as_str(), outbox);
        }
    }
}

/// Prints to standard error if a point that the command `call` visited isn't connected, or has
/// calls that wait behind the one in flight.
fn say_of_point<R: Eprint>(rt: &R, id: &str, outbox: &Outbox) {
    if outbox.link().is_none() {
        let (count, waits) = counted(outbox.len());
        let _ = eprintln!(rt; "central: {id} isn't connected: {count} {waits}");
        return;
    }
    let behind = outbox.len().saturating_sub(1);
    if outbox.is_in_flight() && behind > 0 {
        let (count, waits) = counted(behind);
        let _ = eprintln!(rt; "central: {id} hasn't answered a call: {count} {waits} behind it");
    }
}

/// Returns how many calls wait for a point, and the words for it in a line of the command `call` on
/// standard error.
fn counted(calls: usize) -> (usize, &'static str) {
    (
        calls,
        if calls == 1 {
            "call waits"
        } else {
            "calls wait"
        },
    )
}
