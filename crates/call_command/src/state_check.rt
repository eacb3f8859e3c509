//! Checks calls against the state of their points before they are sent.

use crate::journal_state::state_of_journal;
use command_io::{ProgramFault, now};
use journal_reader::NoReader;
use operator_calls::{Caller, GivenCall, SharedWarnings, Visit, script_of_calls};
use replay::ReplayFault;
use site_checks::PlayedCalls;
use site_core::Machine;
use site_rules::Site;
use std::alloc::AllocGlobal;
use std::fs::File;
use std::rt::{Clock, Files};

/// Keeps in the visits only the calls that their points would accept, in the state after the
/// journal of a folder and the calls before. Prints the findings. Notes which number the next call
/// to each point has.
pub fn check_visits<R: Files<File = File> + Clock + Print + Eprint + AllocGlobal>(
    caller: &mut Caller<'_, R>,
    folder: &str,
    site: Site,
    calls: &[GivenCall],
    visits: &mut Vec<Visit>,
) -> Result<(), ProgramFault> {
    if visits
        .iter()
        .any(|visit| site.place_of(visit.id.as_str()).is_none())
    {
        return Err(ProgramFault::NoSuchPoint);
    }
    let machine = state_of_journal(caller.rt, folder, site, &mut NoReader)?;
    note_next_calls(&machine, visits);
    check_from(caller, machine, calls, visits)
}

/// Keeps in the visits of the command `call` only the calls that their points would accept. The
/// state is this one of the site after the calls before. Prints the findings.
fn check_from<R: Clock + Print + Eprint + AllocGlobal>(
    caller: &mut Caller<'_, R>,
    machine: Machine,
    calls: &[GivenCall],
    visits: &mut Vec<Visit>,
) -> Result<(), ProgramFault> {
    let alloc = caller.rt.alloc();
    let Some(script) = script_of_calls(alloc, now(caller.rt)?, calls, visits.as_slice())? else {
        return Err(ProgramFault::Replay(ReplayFault::ScriptTooLong));
    };
    let mut played = PlayedCalls::begin(alloc, machine, script.as_slice())?;
    let mut shared = SharedWarnings::new(alloc);
    for visit in visits {
        let passed = passed_calls(caller, &mut played, &mut shared, calls, &*visit)?;
        visit.calls = passed;
    }
    Ok(caller.say_shared(&shared)?)
}

/// Records, before the command `call` sends anything, which number the next call to each of its
/// points has. By these numbers it knows its own calls while it waits for the points' replies.
fn note_next_calls(machine: &Machine, visits: &mut Vec<Visit>) {
    for visit in visits {
        if let Some(outbox) = machine.outbox_of(visit.id.as_str()) {
            visit.next_call = outbox.next_number();
        }
    }
}

/// Returns those calls of the command `call` for a point that have no fault by the point's state,
/// or all with `--force`. They are the next lines of the script that is played.
fn passed_calls<R: Print + Eprint + AllocGlobal>(
    caller: &mut Caller<'_, R>,
    played: &mut PlayedCalls<'_>,
    shared: &mut SharedWarnings,
    calls: &[GivenCall],
    visit: &Visit,
) -> Result<Vec<usize>, ProgramFault> {
    let alloc = caller.rt.alloc();
    let mut passed = Vec::new(alloc);
    for place in &visit.calls {
        let Some(call) = calls.get(*place) else {
            continue;
        };
        let findings = played.find_in_next(alloc, visit.id.as_str(), call.frame.as_str())?;
        if caller.passes_at(visit.label(), call, findings.as_slice(), shared)? {
            passed.push(*place)?;
        }
    }
    Ok(passed)
}
