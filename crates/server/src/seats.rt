//! A server that runs forever: it serves N connections at a time, and any number one after another.

ghost use Rattle.std.specs.Prelude.{◌≡◌, ◌≤◌, ◌+◌, true, IfOk, length};

use crate::seat::{context_of, keep_seat};
use crossbeam_channel::{Receiver, bounded};
use ghost_list::{ListName, Unnamed};
use journal::Journal;
use server_ports::{JobSenders, SeatContext, Seats, ServeFault, accept_connections, begin_workers};
use site_rules::Site;
use std::alloc::{AllocError, Global};
use std::net::{TcpListener, TcpStream};
use std::rt::Clock;
use std::sync::ledger::{Blank, Ledger};
use std::sync::{Arc, Wait};
use std::thread;
use std::thread::Threads;
use version_store::{Pass, Shared};
use world::Shareable;

/// The most connections at a time.
pub const MAX_SEATS: u64 = 1_000;

/// The stack of a thread that serves connections, in bytes.
const SEAT_STACK: usize = 2 * 1_048_576;

/// The book of a site that seats will serve, and its passes.
#[derive(Drop)]
pub struct SeatedBook<C: Ledger, A: Ledger, N: ListName> {
    pub shared: Shared<C, A, N>,
    /// The pass for restoring the book, before it is served.
    pub restoring: Pass<C, A>,
    /// A pass for each seat.
    pub seats: Vec<Pass<C, A>>,
}

impl<C: Ledger, A: Ledger, N: ListName> SeatedBook<C, A, N> {
    /// Makes the book of a site where nothing was done yet, with a pass for each seat. The two
    /// ledgers count its changes and its answers, and the ghost list records its states.
    pub fn make(
        alloc: Global,
        blanks: (Blank, Blank),
        site: Site,
        seats: u64,
        states: Unnamed,
    ) -> Result<SeatedBook<C, A, N>, AllocError>
        requires changes { (blanks.0.name ≡ C.name) × (blanks.0.parts ≡ C.parts)
            × (blanks.0.parts ≡ seats + 1) }
        requires answers { (blanks.1.name ≡ A.name) × (blanks.1.parts ≡ A.parts)
            × (blanks.1.parts ≡ seats + 1) }
        requires states { states.name ≡ N.name }
        requires recorded { N.is_recorded ≡ true }
        ensures { IfOk result (λ book. length book.seats.items ≡ seats) }
    {
        let (changes, answers) = blanks;
        // This never fails: each ledger has `seats + 1` parts, which is a u64.
        let Some(count) = seats.checked_add(1) else {
            return Err(AllocError);
        };
        let (shared, passes) = Shared::make_with(alloc, changes, answers, site, count, states)?;
        let mut passes = passes;
        let Some(restoring) = passes.pop() else {
            unreachable!()
        };
        Ok(SeatedBook {
            shared,
            restoring,
            seats: passes,
        })
    }
}

/// Starts to serve a site on a listener, with a seat for each pass: a thread that keeps the pass
/// and serves one connection after another. Workers on other threads compile. All threads run as
/// long as the program does. Returns the number of seats: fewer than passes if a thread couldn't
/// be made, but at least one.
pub fn run_seats<
    C: Ledger + Shareable,
    A: Ledger + Shareable,
    R: Threads + Wait + Clock + Eprint + Copy + Shareable,
    J: Journal<N> + Shareable,
    N: ListName + Shareable,
>(
    site: &Arc<SeatContext<C, A, R, J, N>, Global>,
    listener: TcpListener,
    passes: Vec<Pass<C, A>>,
    workers: usize,
) -> Result<usize, ServeFault>
    requires workers { 1 ≤ workers }
    ensures some { IfOk result (λ seats. 1 ≤ seats) }
    ensures at_most { IfOk result (λ seats. seats ≤ length passes.items) }
{
    let seats: &Arc<Seats<R>, Global> = &site.seats;
    let wanted = passes.len();
    let jobs = begin_workers(&*seats, &site.shared, workers)?;
    let (streams, queue) = bounded(seats.alloc, wanted)?;
    let begun = begin_seats(site, &jobs, &queue, passes)?;
    if begun == 0 {
        return Err(ServeFault::OutOfMemory);
    }
    if begun < wanted {
        let _ = eprintln!(seats.rt;
            "central: {begun} seats of {wanted}: for the others no thread could be made"
        );
    }
    seats.watch.set_seats(&seats.rt, begun as u64);
    begin_writer(seats)?;
    let own = Arc::try_clone(seats)?;
    let accepting = thread::Builder::new().spawn(&seats.rt, move || {
        accept_connections(&own, &listener, &streams)
    });
    match accepting {
        Ok(_) => Ok(begun),
        Err(_) => Err(ServeFault::OutOfMemory),
    }
}

/// Starts the server's thread that writes lines for people to standard error.
fn begin_writer<R: Wait + Threads + Eprint + Shareable>(
    seats: &Arc<Seats<R>, Global>,
) -> Result<(), ServeFault> {
    let own = Arc::try_clone(seats)?;
    let writer = thread::Builder::new().spawn(&seats.rt, move || own.notices.write_all(&own.rt));
    match writer {
        Ok(_) => Ok(()),
        Err(_) => Err(ServeFault::OutOfMemory),
    }
}

/// Starts a seat of the server, a thread that serves connections, for each pass, which counts the
/// seat's changes and answers. Returns the number of started seats.
fn begin_seats<
    C: Ledger + Shareable,
    A: Ledger + Shareable,
    R: Threads + Wait + Clock + Copy + Shareable,
    J: Journal<N> + Shareable,
    N: ListName + Shareable,
>(
    site: &Arc<SeatContext<C, A, R, J, N>, Global>,
    jobs: &JobSenders,
    queue: &Receiver<TcpStream>,
    passes: Vec<Pass<C, A>>,
) -> Result<usize, ServeFault>
    ensures { IfOk result (λ seats. seats ≤ length passes.items) }
{
    let mut begun = 0usize;
    for pass in passes {
        if begin_seat(site, jobs, queue, pass)? {
            // The seat counts as free before the first connection is accepted.
            site.seats.free.add(&site.seats.rt);
            begun += 1;
        }
    }
    Ok(begun)
}

/// Starts a seat of the server: a thread that serves connections from this queue. Returns false if
/// no thread can be made for it.
fn begin_seat<
    C: Ledger + Shareable,
    A: Ledger + Shareable,
    R: Threads + Wait + Clock + Copy + Shareable,
    J: Journal<N> + Shareable,
    N: ListName + Shareable,
>(
    site: &Arc<SeatContext<C, A, R, J, N>, Global>,
    jobs: &JobSenders,
    queue: &Receiver<TcpStream>,
    pass: Pass<C, A>,
) -> Result<bool, ServeFault> {
    let own = Arc::try_clone(site)?;
    let (jobs, queue) = (jobs.share()?, queue.clone()?);
    let seat = thread::Builder::new()
        .stack_size(SEAT_STACK)
        .spawn(&site.seats.rt, move || {
            let context = context_of(&own, jobs.jobs());
            keep_seat(&own.seats, &context, &queue, pass)
        });
    Ok(seat.is_ok())
}
