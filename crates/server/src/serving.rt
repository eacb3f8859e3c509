//! The server of `serve`: it accepts N connections, and ends once all of them have ended.

ghost use Rattle.std.specs.Prelude.{◌≡◌, ◌≤◌, IfOk, length};

use crate::connections::{EndedSessions, run_connections};
use compile_pool::{MAX_JOBS, Open, run_pool};
use crossbeam_channel::bounded;
use journal::NoJournal;
use ocpp_scalars::Moments;
use server_ports::ServeFault;
use session::Context;
use site_rules::Site;
use std::alloc::{AllocError, Global};
use std::marker::{Brand, Send, Sync};
use std::net::TcpListener;
use std::sync::ledger::{Blank, Ledger};
use std::sync::{Mutex, Wait};
use std::thread;
use std::thread::Threads;
use version_store::{Pass, Shared, Totals};

/// The most workers.
pub const MAX_WORKERS: usize = 8;

/// The most connections in all.
pub const MAX_SESSIONS: u64 = 64;

/// Serves a site: accepts N connections, each served on a thread of its own, and ends when all
/// have ended. Workers on other threads compile. After the last connection the listener is closed.
/// Returns how many changes all sessions made and how many answers they handed out.
pub fn serve<R: Threads + Wait + Sync, M: Moments + Sync>(
    rt: &R,
    alloc: Global,
    site: Site,
    listener: TcpListener,
    workers: usize,
    sessions: u64,
    clock: &M,
) -> Result<Totals, ServeFault>
    requires workers { 1 ≤ workers }
    requires sessions { 1 ≤ sessions }
{
    let plan = ServePlan {
        alloc,
        workers,
        sessions,
        clock,
    };
    let (changes, answers) = (Blank::new(sessions), Blank::new(sessions));
    run_counted::<Brand, Brand, R, M>(rt, plan, site, listener, (changes, answers))
}

/// The options of `serve`.
#[derive(Drop)]
struct ServePlan<'a, M> {
    alloc: Global,
    workers: usize,
    sessions: u64,
    clock: &'a M,
}

/// Runs the server of `serve` for a site whose changes and answers these two ledgers count.
fn run_counted<
    C: Ledger + Send + Sync,
    A: Ledger + Send + Sync,
    R: Threads + Wait + Sync,
    M: Moments + Sync,
>(
    rt: &R,
    plan: ServePlan<'_, M>,
    site: Site,
    listener: TcpListener,
    blanks: (Blank, Blank),
) -> Result<Totals, ServeFault>
    requires workers { 1 ≤ plan.workers }
    requires sessions { 1 ≤ plan.sessions }
    requires changes { (blanks.0.name ≡ C.name) × (blanks.0.parts ≡ C.parts)
        × (blanks.0.parts ≡ plan.sessions) }
    requires answers { (blanks.1.name ≡ A.name) × (blanks.1.parts ≡ A.parts)
        × (blanks.1.parts ≡ plan.sessions) }
{
    let (changes, answers) = blanks;
    let made: Result<(Shared<C, A>, _), _> = Shared::make(
        plan.alloc,
        changes,
        answers,
        site,
        plan.sessions,
    );
    let Ok((shared, passes)) = made else {
        return Err(ServeFault::OutOfMemory);
    };
    let Ok(served) = run_beside_workers(rt, plan, listener, &shared, passes) else {
        return Err(ServeFault::OutOfMemory);
    };
    // Each session has returned its pass, so none is missing.
    let Ok(totals) = shared.settle(served.passes) else {
        unreachable!()
    };
    if served.is_accepting {
        Ok(totals)
    } else {
        Err(ServeFault::Socket)
    }
}

/// Serves the connections of `serve` while workers compile schedules on threads of their own. If no
/// thread can be made for the workers, the sessions compile their jobs themselves.
fn run_beside_workers<
    C: Ledger + Send + Sync,
    A: Ledger + Send + Sync,
    R: Threads + Wait + Sync,
    M: Moments + Sync,
>(
    rt: &R,
    plan: ServePlan<'_, M>,
    listener: TcpListener,
    shared: &Shared<C, A>,
    passes: Vec<Pass<C, A>>,
) -> Result<EndedSessions<Pass<C, A>>, AllocError>
    requires { 1 ≤ plan.workers }
    ensures { IfOk result (λ served. length served.passes.items ≡ length passes.items) }
{
    let ServePlan {
        alloc,
        workers,
        clock,
        ..
    } = plan;
    let (jobs, queue) = bounded(alloc, MAX_JOBS)?;
    thread::scope(
        thread::scope_env(),
        rt,
        |scope| -> Result<EndedSessions<Pass<C, A>>, AllocError>
            requires { 1 ≤ workers }
            ensures { IfOk result (λ served. length served.passes.items ≡ length passes.items) }
        {
            let pool = scope.spawn(
                move || -> usize
                    requires { 1 ≤ workers }
                { run_pool(rt, alloc, workers, &queue, shared, &Open) },
            );
            drop(pool);
            let (journal, reading) = (NoJournal, Mutex::new(()));
            let context = Context::unrecorded(rt, alloc, shared, &jobs, clock, &journal, &reading);
            let served = run_connections(rt, alloc, &context, listener, passes);
            shared.lock(rt).finish();
            shared.wake();
            // The scope joins the workers, which end once the last sender is dropped.
            drop(jobs);
            served
        },
    )
}
