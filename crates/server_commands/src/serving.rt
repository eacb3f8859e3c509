//! The job of `central serve`.

ghost use Rattle.std.specs.Prelude.{◌≤◌};

use command_io::{ProgramFault, read_site_file};
use jobs::{MAX_SESSIONS, Serving};
use ocpp_scalars::SystemClock;
use server::{ServeFault, serve};
use site_rules::Site;
use std::alloc::AllocGlobal;
use std::marker::Sync;
use std::net::{TcpListener, TcpStream};
use std::rt::{Clock, Files, Net};
use std::sync::Wait;
use std::thread::Threads;
use version_store::Totals;

// The command line has its limit from another crate, so this proves that it is the server's.
const _: () = prove!(MAX_SESSIONS == server::MAX_SESSIONS);

/// Serves the site of a file. Prints where it listens, and in the end how many changes were made
/// and how many answers handed out.
pub fn serve_file<
    R: Files
        + Print
        + AllocGlobal
        + Clock
        + Net<Listener = TcpListener, Stream = TcpStream>
        + Threads
        + Wait
        + Sync,
>(rt: &R, serving: Serving<'_>) -> Result<(), ProgramFault>
    requires workers { 1 ≤ serving.workers }
    requires sessions { 1 ≤ serving.sessions }
{
    let site = read_site_file(rt, serving.site)?;
    let Ok(listener) = TcpListener::bind(rt, serving.listen) else {
        return Err(ProgramFault::Socket);
    };
    let totals = serve_listening(rt, serving, site, listener)?;
    print_totals(rt, totals)
}

/// Does the job of the command `serve` on a listener: prints where that listens, and serves the
/// site.
fn serve_listening<
    R: Print
        + AllocGlobal
        + Clock
        + Net<Listener = TcpListener, Stream = TcpStream>
        + Threads
        + Wait
        + Sync,
>(rt: &R, serving: Serving<'_>, site: Site, listener: TcpListener) -> Result<Totals, ProgramFault>
    requires workers { 1 ≤ serving.workers }
    requires sessions { 1 ≤ serving.sessions }
{
    if println!(rt; "listening {}", serving.listen).is_err() {
        return Err(ProgramFault::Write);
    }
    match serve(
        rt,
        rt.alloc(),
        site,
        listener,
        serving.workers as usize,
        serving.sessions,
        &SystemClock { rt },
    ) {
        Ok(totals) => Ok(totals),
        Err(fault) => Err(stop_of(fault)),
    }
}

/// Prints the last line of the command `serve` to standard output: the numbers of changes and
/// answers.
fn print_totals<R: Print>(rt: &R, totals: Totals) -> Result<(), ProgramFault> {
    match println!(rt;
        "done changes {} answers {}",
        totals.changes, totals.answers
    ) {
        Ok(()) => Ok(()),
        Err(_) => Err(ProgramFault::Write),
    }
}

/// Returns why the program stops when the server of the command `run` or `serve` fails.
pub(crate) fn stop_of(fault: ServeFault) -> ProgramFault {
    match fault {
        ServeFault::Socket => ProgramFault::Socket,
        ServeFault::OutOfMemory => ProgramFault::OutOfMemory,
    }
}
