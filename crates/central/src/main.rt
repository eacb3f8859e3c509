//! The central system as a program. `central replay` plays a script from standard input on a site,
//! and writes its output to standard output. `central run` serves the site to operators and charge
//! points over WebSocket, and continues where it stopped; `central serve` does so for a number of
//! connections, and keeps nothing. `central call` and `central point` are the other ends: an
//! operator's client, and a simulated charge point.
#![tactic(auto)]

ghost use Rattle.std.specs.Prelude.{◌≤◌};

mod last_line;

use crate::last_line::say_fault;
use call_command::call_site;
use clap::error::ErrorKind;
use client_commands::{run_point, show_status};
use command_io::{ProgramFault, Screen, as_printed, say_unread, summary_status};
use command_line::job_of;
use jobs::{Job, Running};
use journal_file::{FolderFault, print_journal};
use page_commands::{check_file, explain_file, replay_file, show_file};
use server_commands::{make_key, run_file, serve_file};
use std::alloc::AllocGlobal;
use std::fs::File;
use std::io::IsTerminal;
use std::marker::{Send, Sync};
use std::net::{Net, TcpListener, TcpStream};
use std::process::ExitCode;
use std::random::RandomSource;
use std::rt::{Clock, Env, Files, Runtime};
use std::sync::Wait;
use std::thread::Threads;
use std::{env, io};

/// Runs the program `central` on this machine, and returns its exit status.
fn main(rt: HostRuntime) -> ExitCode {
    let screen = Screen {
        is_terminal: rt.stdout().is_terminal(),
    };
    ExitCode::from(run(&rt, screen))
}

/// Does the job of the command line of the program `central`, and prints to standard error why it
/// failed, if it did. Returns the program's exit status.
fn run<
    R: Runtime
        + Files<File = File>
        + AllocGlobal
        + Net<Listener = TcpListener, Stream = TcpStream>
        + RandomSource
        + Threads
        + Wait
        + Sync
        + Send
        + Copy
        + Drop
        + 'static,
>(rt: &R, screen: Screen) -> u8 {
    match do_job(rt, screen) {
        Ok(status) => status,
        Err(fault) => {
            say_fault(rt, &fault);
            fault.status()
        }
    }
}

/// Does the job that the command line of the program `central` names, or prints why there is none.
fn do_job<
    R: Runtime
        + Files<File = File>
        + AllocGlobal
        + Net<Listener = TcpListener, Stream = TcpStream>
        + RandomSource
        + Threads
        + Wait
        + Sync
        + Send
        + Copy
        + Drop
        + 'static,
>(rt: &R, screen: Screen) -> Result<u8, ProgramFault> {
    let words = command_words(rt)?;
    match job_of(rt.alloc(), words.as_slice()) {
        Ok(Job::Replay(replaying)) => Ok(summary_status(replay_file(rt, replaying)?)),
        Ok(Job::Run(running)) => run_site(rt, running),
        Ok(Job::Status { url }) => show_status(rt, url),
        Ok(Job::Journal { folder }) => {
            print_journal(rt, folder)?;
            Ok(0)
        }
        Ok(Job::Key(making)) => {
            make_key(rt, making)?;
            Ok(0)
        }
        Ok(Job::Serve(serving)) => {
            serve_file(rt, serving)?;
            Ok(0)
        }
        // Without `--site` no site file is read, so nothing is named.
        Ok(Job::Call(calling)) => {
            let status = call_site(rt, calling);
            naming_site_file(rt, calling.site.unwrap_or(""), status)
        }
        Ok(Job::Point(pointing)) => {
            let status = run_point(rt, pointing);
            naming_site_file(rt, pointing.site, status)
        }
        Ok(Job::Explain(explaining)) => {
            let status = explain_file(rt, screen, explaining);
            naming_site_file(rt, explaining.site, status)
        }
        Ok(Job::Check(checking)) => {
            let status = check_file(rt, checking);
            naming_site_file(rt, checking.site, status)
        }
        Ok(Job::Show(showing)) => {
            let status = show_file(rt, showing);
            naming_site_file(rt, showing.site, status)
        }
        Err(error) => refuse(rt, error),
    }
}

/// Does the job of `run` on a site. If the site's file has a fault, also prints to standard error
/// which command reports all faults.
fn run_site<
    R: Files<File = File>
        + Print
        + Eprint
        + AllocGlobal
        + Clock
        + RandomSource
        + Net<Listener = TcpListener, Stream = TcpStream>
        + Threads
        + Wait
        + Copy
        + Send
        + Sync
        + Drop
        + 'static,
>(rt: &R, running: Running<'_>) -> Result<u8, ProgramFault>
    requires workers { 1 ≤ running.workers }
    requires seats { 1 ≤ running.seats }
{
    let path = running.site;
    let run = naming_folder(rt, running.folder, run_file(rt, running));
    match naming_site_file(rt, path, run) {
        Ok(()) => Ok(0),
        Err(ProgramFault::Site(fault)) => {
            let fault = ProgramFault::Site(fault);
            // Printed here rather than by `run`, so that the hint follows it.
            say_fault(rt, &fault);
            let _ = eprintln!(rt; "central: see central check --site {path}");
            Ok(fault.status())
        }
        Err(fault) => Err(fault),
    }
}

/// Prints to standard error the name of the site file that couldn't be read, if `run`, `call`,
/// `point`, `explain`, `check` or `show` stopped because of that.
fn naming_site_file<T, R: Files<File = File> + Eprint>(
    rt: &R,
    path: &str,
    done: Result<T, ProgramFault>,
) -> Result<T, ProgramFault> {
    if let Err(ProgramFault::SiteFile) = &done {
        say_unread(rt, path);
    }
    done
}

/// Prints to standard error the name of the site's folder that another `central run` uses, if that
/// is why the job of `run` stopped.
fn naming_folder<T, R: Eprint>(
    rt: &R,
    path: &str,
    done: Result<T, ProgramFault>,
) -> Result<T, ProgramFault> {
    if let Err(ProgramFault::Folder(FolderFault::InUse)) = &done {
        let _ = eprintln!(rt; "central: {path}: another central run has it");
    }
    done
}

/// Returns the words of the command line of the program `central`, the program's name first.
fn command_words<R: Env + AllocGlobal>(rt: &R) -> Result<Vec<String>, ProgramFault> {
    let words = match env::args(rt) {
        Ok(words) => words,
        Err(error) if error.kind() == io::ErrorKind::OutOfMemory => return Err(
            ProgramFault::OutOfMemory,
        ),
        Err(_) => return Err(ProgramFault::Words),
    };
    let Ok(words) = words.collect(rt.alloc()) else {
        return Err(ProgramFault::OutOfMemory);
    };
    Ok(words)
}

/// Prints why the command line of the program `central` has no job, or the help that it requests.
/// Returns the exit status.
fn refuse<R: Print + Eprint>(rt: &R, error: clap::Error) -> Result<u8, ProgramFault> {
    if error.kind() == ErrorKind::OutOfMemory {
        return Err(ProgramFault::OutOfMemory);
    }
    let printed = error.print(rt);
    if error.use_stderr() {
        return Ok(4);
    }
    as_printed(printed)?;
    Ok(0)
}
