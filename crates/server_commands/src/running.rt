//! The job of `central run`.

ghost use Rattle.std.specs.Prelude.{◌≡◌, ◌≤◌, ◌+◌, true, IfOk};

use crate::serving::stop_of;
use command_io::{ProgramFault, read_digested_site, read_key_file};
use ghost_list::{ListName, Unnamed};
use jobs::{MAX_SEATS, MAX_WORKERS, Running};
use journal_file::{
    FolderFault, JournalFile, OpenJournal, Resumed, open_journal, report_error, restore_shared,
};
use server::{
    SeatContext, SeatOptions, SeatedBook, StatusPort, WatchedSite, begin_status, run_seats,
};
use site_keys::Keys;
use site_rules::Site;
use std::alloc::{AllocError, AllocGlobal, Global};
use std::fs::File;
use std::io::ErrorKind;
use std::marker::Brand;
use std::net::{Net, TcpListener, TcpStream};
use std::random::RandomSource;
use std::rt::{Clock, Files};
use std::sync::ledger::{Blank, Ledger};
use std::sync::{Arc, Wait};
use std::thread;
use std::thread::Threads;
use version_store::Pass;
use world::Shareable;

// The command line has its limits from another crate, so this proves that they are the server's.
const _: () = prove!(MAX_SEATS == server::MAX_SEATS);

const _: () = prove!(MAX_WORKERS == server::MAX_WORKERS as u64);

/// The inputs of a run, read and opened.
#[derive(Drop)]
struct Plan<'a> {
    site: Site,
    /// The SHA-256 of the site file.
    digest: [u8; 32],
    opened: OpenJournal,
    seats: u64,
    clients: ClientPort<'a>,
    workers: u64,
    options: SeatOptions,
    /// The listener of the status port, if there is one.
    status: Option<TcpListener>,
    /// The address of the status port, if it answers only requests for this machine.
    status_address: Option<&'a str>,
}

/// The port to which the clients of a run connect.
#[derive(Drop)]
struct ClientPort<'a> {
    listener: TcpListener,
    address: &'a str,
}

/// Runs the site of a file with the journal of a folder, and resumes where the journal ends.
/// Returns only if it can't go on.
pub fn run_file<
    R: Files<File = File>
        + Print
        + Eprint
        + AllocGlobal
        + Clock
        + RandomSource
        + Net<Listener = TcpListener, Stream = TcpStream>
        + Threads
        + Wait
        + Copy
        + Shareable,
>(rt: &R, running: Running<'_>) -> Result<(), ProgramFault>
    requires workers { 1 ≤ running.workers }
    requires seats { 1 ≤ running.seats }
{
    let plan = plan_of(rt, &running)?;
    // One pass more than seats, for the restore.
    let Some(passes) = running.seats.checked_add(1) else {
        return Err(ProgramFault::OutOfMemory);
    };
    let blanks = (Blank::new(passes), Blank::new(passes));
    run_counted::<Brand, Brand, Brand, R>(rt, plan, blanks, (Unnamed::new(), Unnamed::new()))
}

/// Reads the files of the command `run`, and opens its journal and its ports.
fn plan_of<
    'a,
    R: Files<File = File> + Eprint + AllocGlobal + Net<Listener = TcpListener, Stream = TcpStream>,
>(rt: &R, running: &Running<'a>) -> Result<Plan<'a>, ProgramFault>
    ensures workers { IfOk result (λ plan. plan.workers ≡ running.now.workers) }
    ensures seats { IfOk result (λ plan. plan.seats ≡ running.now.seats) }
{
    let installs_again = installs_again(running.after_boot)?;
    let (site, digest) = read_digested_site(rt, running.site)?;
    let options = SeatOptions {
        call_timeout: running.call_timeout,
        keys: read_keys(rt, running.keys)?,
        address: String::from_str(rt.alloc(), running.listen)?,
        installs_again,
    };
    let opened = open_journal(rt, running.folder)?;
    let is_open = options.keys.is_some();
    let clients = ClientPort {
        listener: listen(rt, running.listen, is_open, ProgramFault::NoKeys)?,
        address: running.listen,
    };
    Ok(Plan {
        site,
        digest,
        opened,
        seats: running.seats,
        clients,
        workers: running.workers,
        options,
        status: listen_for_status(rt, running)?,
        status_address: if running.is_status_open {
            None
        } else {
            running.status
        },
    })
}

/// Returns whether `run` installs a point's profiles again after a boot, by `--after-boot`.
fn installs_again(after_boot: Option<&str>) -> Result<bool, ProgramFault> {
    match after_boot {
        None => Ok(true),
        Some("nothing") => Ok(false),
        Some(_) => Err(ProgramFault::AfterBoot),
    }
}

/// Reads the site's keys from the file of `run`'s option `--keys`, if one is given.
fn read_keys<R: Files<File = File> + Eprint + AllocGlobal>(
    rt: &R,
    path: Option<&str>,
) -> Result<Option<Keys>, ProgramFault> {
    match path {
        Some(path) => Ok(Some(read_key_file(rt, path)?)),
        None => Ok(None),
    }
}

/// Listens at the status port of `run`, if one is wanted.
fn listen_for_status<R: Eprint + Net<Listener = TcpListener, Stream = TcpStream>>(
    rt: &R,
    running: &Running<'_>,
) -> Result<Option<TcpListener>, ProgramFault> {
    let Some(address) = running.status else {
        return Ok(None);
    };
    let listener = listen(
        rt,
        address,
        running.is_status_open,
        ProgramFault::StatusOpen,
    )?;
    Ok(Some(listener))
}

/// Listens at an address with a port, for the clients or the status requests of `run`. Unless the
/// port is open to others, the address has to be a loopback address: any other is the fault
/// `closed`.
fn listen<R: Eprint + Net<Listener = TcpListener, Stream = TcpStream>>(
    rt: &R,
    address: &str,
    is_open: bool,
    closed: ProgramFault,
) -> Result<TcpListener, ProgramFault> {
    let bound = TcpListener::bind(rt, address);
    if let Err(error) = &bound {
        if error.kind() == ErrorKind::InvalidInput {
            return Err(ProgramFault::NoPort);
        }
    }
    let listener = report_error(rt, address, bound, ProgramFault::Socket)?;
    let told = listener.local_addr();
    let local = report_error(rt, address, told, ProgramFault::Socket)?;
    if is_open || local.ip().is_loopback() {
        Ok(listener)
    } else {
        Err(closed)
    }
}

/// Does the job of the command `run` on a site whose changes and answers these two ledgers count.
/// These two ghost lists record its states and syncs.
fn run_counted<
    C: Ledger + Shareable,
    A: Ledger + Shareable,
    N: ListName + Shareable,
    R: Files<File = File>
        + Print
        + Eprint
        + AllocGlobal
        + Clock
        + RandomSource
        + Net<Stream = TcpStream>
        + Threads
        + Wait
        + Copy
        + Shareable,
>(
    rt: &R,
    plan: Plan<'_>,
    blanks: (Blank, Blank),
    ghost_lists: (Unnamed, Unnamed),
) -> Result<(), ProgramFault>
    requires workers { 1 ≤ plan.workers }
    requires changes { (blanks.0.name ≡ C.name) × (blanks.0.parts ≡ C.parts)
        × (blanks.0.parts ≡ plan.seats + 1) }
    requires answers { (blanks.1.name ≡ A.name) × (blanks.1.parts ≡ A.parts)
        × (blanks.1.parts ≡ plan.seats + 1) }
    requires ghost_lists { (ghost_lists.0.name ≡ N.name) × (ghost_lists.1.name ≡ N.companion) }
    requires recorded { N.is_recorded ≡ true }
{
    let Plan {
        site,
        digest,
        opened,
        seats,
        clients,
        workers,
        options,
        status,
        status_address,
    } = plan;
    let (states, syncs) = ghost_lists;
    let book: SeatedBook<C, A, N> = SeatedBook::make(rt.alloc(), blanks, site, seats, states)?;
    let SeatedBook {
        shared,
        restoring,
        seats,
    } = book;
    // Before the restore, which may take long: until then /health answers 503.
    let port = begin_port(rt, status, status_address)?;
    let (journal, resumed) = restore_shared(rt, opened, &digest, &shared, restoring, syncs)?;
    print_resumed(rt, &resumed)?;
    let journal = Arc::new(rt.alloc(), journal)?;
    begin_lines(rt, &journal)?;
    let site = SeatContext::make(*rt, rt.alloc(), shared, journal, options)?;
    site.resume(resumed.restored)?;
    let site = Arc::new(rt.alloc(), site)?;
    port.watch(&site)?;
    serve_restored(&site, clients, seats, workers)
}

/// Serves the restored site of the command `run` with these passes, one for each seat, until its
/// journal breaks.
fn serve_restored<
    C: Ledger + Shareable,
    A: Ledger + Shareable,
    N: ListName + Shareable,
    R: Print + Eprint + AllocGlobal + Clock + Threads + Wait + Copy + Shareable,
>(
    site: &Arc<SeatContext<C, A, R, JournalFile<R, N>, N>, Global>,
    clients: ClientPort<'_>,
    passes: Vec<Pass<C, A>>,
    workers: u64,
) -> Result<(), ProgramFault>
    requires { 1 ≤ workers }
{
    let ClientPort { listener, address } = clients;
    if let Err(fault) = run_seats(site, listener, passes, workers as usize) {
        return Err(stop_of(fault));
    }
    if println!(site.seats.rt; "listening {address}").is_err() {
        return Err(ProgramFault::Write);
    }
    // Without its journal no answer may leave, so the program ends, and its unit restarts it.
    site.journal.until_broken();
    Err(ProgramFault::Folder(FolderFault::Write))
}

/// Starts the status port of the command `run`, if one is wanted. It answers already while the site
/// is being restored.
fn begin_port<
    R: AllocGlobal + Clock + RandomSource + Threads + Wait + Copy + Shareable,
    S: WatchedSite + Shareable,
>(
    rt: &R,
    status: Option<TcpListener>,
    address: Option<&str>,
) -> Result<Arc<StatusPort<R, S>, Global>, ProgramFault> {
    let address = owned(rt.alloc(), address)?;
    let port = Arc::new(rt.alloc(), StatusPort::new(*rt, rt.alloc(), address))?;
    if let Some(listener) = status {
        if let Err(fault) = begin_status(&port, listener) {
            return Err(stop_of(fault));
        }
    }
    Ok(port)
}

/// Returns a copy of the address of the status port of the command `run`, if there is one.
fn owned(alloc: Global, text: Option<&str>) -> Result<Option<String>, AllocError> {
    match text {
        Some(text) => Ok(Some(String::from_str(alloc, text)?)),
        None => Ok(None),
    }
}

/// Starts the thread of the command `run` that writes lines for people about the journal to
/// standard error.
fn begin_lines<
    R: Eprint + AllocGlobal + Clock + Threads + Wait + Shareable,
    N: ListName + Shareable,
>(rt: &R, journal: &Arc<JournalFile<R, N>, Global>) -> Result<(), ProgramFault> {
    let own = Arc::try_clone(journal)?;
    let writer = thread::Builder::new().spawn(rt, move || own.write_lines());
    match writer {
        Ok(_) => Ok(()),
        Err(_) => Err(ProgramFault::OutOfMemory),
    }
}

/// Prints to standard output the figures of the site that the command `run` restored from its
/// journal.
fn print_resumed<R: Print>(rt: &R, resumed: &Resumed) -> Result<(), ProgramFault> {
    let Resumed {
        points,
        profiles,
        transactions,
        calls,
        ..
    } = resumed;
    match println!(rt;
        "resumed {points} points, {profiles} profiles, {transactions} transactions, {calls} calls waiting"
    ) {
        Ok(()) => Ok(()),
        Err(_) => Err(ProgramFault::Write),
    }
}
