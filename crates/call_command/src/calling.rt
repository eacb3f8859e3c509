//! The job of `central call`.

use crate::given_calls::given_calls;
use crate::sending::{send_calls, send_lines};
use crate::state_check::check_visits;
use crate::undoing::{hold_undo, undo_of};
use crate::waiting_calls::say_outcomes;
use client::{Address, ClientRuntime};
use client_lines::Lines;
use command_io::{ProgramFault, read_login, read_site_file};
use jobs::Calling;
use operator_calls::{
    Caller, GivenCall, SendOptions, Undo, Visit, is_without_point, point_of_url, url_of_point,
    visits_of_site,
};
use site_rules::Site;
use std::alloc::{AllocError, AllocGlobal, Global};
use std::fs::File;
use std::mem;
use std::rt::{Clock, Files};

/// Sends the calls of the options, or the lines of standard input. Returns the exit status.
pub fn call_site<R: ClientRuntime + Files<File = File> + Input>(
    rt: &R,
    calling: Calling<'_>,
) -> Result<u8, ProgramFault> {
    check_url(rt.alloc(), calling)?;
    let mut caller = Caller::new(rt, send_options(rt, calling)?);
    if calling.gives_calls() {
        let outcome = send_given(&mut caller, calling)?;
        return Ok(caller.status().max(outcome));
    }
    send_lines(&mut caller, &mut Lines::new(rt.alloc(), rt.reader())?)?;
    Ok(caller.status())
}

/// Sends the calls of the command `call`'s options to the central system, each for its points.
/// Returns the exit status by what the points replied, if `call` waits for that.
fn send_given<R: ClientRuntime + Files<File = File>>(
    caller: &mut Caller<'_, R>,
    calling: Calling<'_>,
) -> Result<u8, ProgramFault> {
    let mut undo = undo_in(caller.rt, calling)?;
    let site = site_in(caller.rt, calling)?;
    let calls = calls_of(caller, calling, &mut undo)?;
    let visits = visits_of(caller, calling, &undo, site, calls.as_slice())?;
    send_calls(caller, calls.as_slice(), visits.as_slice())?;
    say_outcomes(caller.rt, calling, visits.as_slice())
}

/// Returns the calls that the options of the command `call` give, those of an undo first. Leaves
/// out faulty ones, and prints why.
fn calls_of<R: Files<File = File> + Print + Eprint + AllocGlobal>(
    caller: &mut Caller<'_, R>,
    calling: Calling<'_>,
    undo: &mut Option<Undo>,
) -> Result<Vec<GivenCall>, ProgramFault> {
    let mut given = undo_calls(caller.rt.alloc(), undo);
    given.append(&mut given_calls(caller.rt, calling)?)?;
    Ok(caller.passed(given)?)
}

/// Returns the options of the command `call` for sending messages. Reads the login from its file.
fn send_options<'a, R: Files<File = File> + Eprint + AllocGlobal>(
    rt: &R,
    calling: Calling<'a>,
) -> Result<SendOptions<'a>, ProgramFault> {
    Ok(SendOptions {
        url: calling.url,
        login: read_login(rt, calling.login)?,
        force: calling.force,
        dry_run: calling.dry_run,
    })
}

/// Returns the site of the site file that the options of the command `call` name, if they name one.
fn site_in<R: Files<File = File> + Eprint + AllocGlobal>(
    rt: &R,
    calling: Calling<'_>,
) -> Result<Option<Site>, ProgramFault> {
    match calling.site {
        Some(path) => Ok(Some(read_site_file(rt, path)?)),
        None => Ok(None),
    }
}

/// Returns which calls the command `call` sends for which points: that of the undone line or of the
/// URL, or all. Leaves out calls that are held back, and prints why.
fn visits_of<R: Files<File = File> + Clock + Print + Eprint + AllocGlobal>(
    caller: &mut Caller<'_, R>,
    calling: Calling<'_>,
    undo: &Option<Undo>,
    site: Option<Site>,
    calls: &[GivenCall],
) -> Result<Vec<Visit>, ProgramFault> {
    let alloc = caller.rt.alloc();
    let mut visits = match undo {
        Some(undo) => undo_visit(alloc, calling.url, undo, calls.len())?,
        None => plain_visits(alloc, calling, &site, calls.len())?,
    };
    if let Some(undo) = undo {
        hold_undo(caller, undo, calls, &mut visits)?;
    }
    if let (Some(folder), Some(site)) = (calling.folder, site) {
        check_visits(caller, folder, site, calls, &mut visits)?;
    }
    Ok(visits)
}

/// Refuses a URL of the command `call` that can't be an operator's, and options without those that
/// they need.
fn check_url(alloc: Global, calling: Calling<'_>) -> Result<(), ProgramFault> {
    let wants_site = calling.all || calling.folder.is_some();
    if wants_site != calling.site.is_some() {
        return Err(ProgramFault::AllWithoutSite);
    }
    if wants_site && !calling.gives_calls() {
        return Err(ProgramFault::AllWithoutCalls);
    }
    if calling.undo.is_some() && (calling.all || calling.folder.is_none()) {
        return Err(ProgramFault::UndoWithoutData);
    }
    if calling.wait.is_some() && calling.folder.is_none() {
        return Err(ProgramFault::WaitWithoutData);
    }
    check_point_of_url(alloc, calling)
}

/// Refuses a URL of the command `call` that isn't an operator's, or that of one point if the calls
/// go to all.
fn check_point_of_url(alloc: Global, calling: Calling<'_>) -> Result<(), ProgramFault> {
    // An undo has its point from the line, so its URL may lack the identity.
    let lacks_point = calling.all || calling.undo.is_some() && is_without_point(calling.url);
    if !lacks_point {
        Address::of_operator(alloc, calling.url)?;
        return Ok(());
    }
    if calling.all && Address::of_operator(alloc, calling.url).is_ok() {
        return Err(ProgramFault::AllElsewhere);
    }
    // The URLs of the points differ only in the identity.
    Address::of_operator(alloc, url_of_point(alloc, calling.url, "ID")?.as_str())?;
    Ok(())
}

/// Returns the undo of a journal's line that the command `call --undo` requests, if that option is
/// given.
fn undo_in<R: Files<File = File> + Clock + Eprint + AllocGlobal>(
    rt: &R,
    calling: Calling<'_>,
) -> Result<Option<Undo>, ProgramFault> {
    let (Some(number), Some(folder), Some(path)) = (calling.undo, calling.folder, calling.site)
    else {
        return Ok(None);
    };
    // Playing the undo consumes this site; `call_site` reads one of its own.
    let site = read_site_file(rt, path)?;
    Ok(Some(undo_of(rt, folder, site, number)?))
}

/// Takes the calls out of the undo that the command `call --undo` requests, if there is one. They
/// are sent before those of the other options.
fn undo_calls(alloc: Global, undo: &mut Option<Undo>) -> Vec<GivenCall> {
    match undo {
        Some(undo) => mem::replace(&mut undo.calls, Vec::new(alloc)),
        None => Vec::new(alloc),
    }
}

/// Returns the points for which the command `call` sends this many calls: all of the site, or that
/// of the URL.
fn plain_visits(
    alloc: Global,
    calling: Calling<'_>,
    site: &Option<Site>,
    count: usize,
) -> Result<Vec<Visit>, AllocError> {
    match site {
        Some(site) if calling.all => visits_of_site(alloc, site, count),
        _ => {
            let mut visits = Vec::new(alloc);
            visits.push(Visit::of_url(alloc, calling.url, count)?)?;
            Ok(visits)
        }
    }
}

/// Returns the visit by which the command `call --undo` sends its calls for the point of the undone
/// line. Refuses an operator's URL that names another point.
fn undo_visit(
    alloc: Global,
    url: &str,
    undo: &Undo,
    count: usize,
) -> Result<Vec<Visit>, ProgramFault> {
    let named = point_of_url(url);
    let Some(visit) = Visit::at_point(alloc, named, undo.point.as_str(), count)? else {
        return Err(ProgramFault::UndoElsewhere);
    };
    let mut visits = Vec::new(alloc);
    visits.push(visit)?;
    Ok(visits)
}
