//! Workers: from a job to a posted answer.

ghost use Rattle.std.specs.Prelude.{◌≡◌, ◌≤◌, true, false, Err, IfErr, IfOk};
ghost use Rattle.std.specs.Arc.{arc_value};
ghost use Rattle.ocpp_scalars.specs.declared.refusal.Refusal.{Refusal};
ghost use Rattle.version_store.specs.Answers.{awaits};
ghost use Rattle.compile_pool.specs.Workers.{IsOfJob, PostsOrDrops};

use crate::gate::Gate;
use crossbeam_channel::Receiver;
use ghost_list::ListName;
use meaning::Ask;
use point_book::PointBook;
use std::alloc::Global;
use std::marker::{Send, Sync};
use std::sync::ledger::Ledger;
use std::sync::{Arc, Wait};
use std::thread;
use std::thread::Threads;
use sweep_compiler::Compiled;
use version_store::{Book, Job, Shared};

/// Compiles the composite schedule of a worker's job, for the book that its point had when the
/// request was taken. If memory runs out, that is the answer.
fn compile_job(alloc: Global, job: Job) -> (u64, Compiled)
    ensures number { result.0 ≡ job.number }
    ensures compiled { IsOfJob job result.1 }
{
    let (number, book, ask) = job.into_parts();
    (number, Compiled::make(alloc, book, ask))
}

/// Posts to the book a worker's compiled answer to a request for a composite schedule, or drops it
/// if the book refuses it. Then the request was answered or handed out meanwhile.
fn post_or_drop<C: Ledger, A: Ledger, N: ListName>(
    book: &mut Book<C, A, N>,
    number: u64,
    compiled: Compiled,
)
    ensures { PostsOrDrops book.old number compiled book.new }
{
    let _ = book.post(number, compiled);
}

/// Compiles a job outside the lock, posts the answer under it, and wakes the session that waits.
/// Workers call it, and sessions that send no job to a worker.
pub fn answer_job<C: Ledger, A: Ledger, R: Wait, N: ListName>(
    rt: &R,
    alloc: Global,
    shared: &Shared<C, A, N>,
    job: Job,
) {
    let (number, compiled) = compile_job(alloc, job);
    let mut book = shared.lock(rt);
    post_or_drop(&mut book, number, compiled);
    // Unlocked before the wake-up, since the woken session locks the book first.
    drop(book);
    shared.wake_for(number);
}

/// Answers a request that no client waits for any more by `OutOfMemory`, so that no worker begins
/// it. A request with an answer keeps that.
// `OutOfMemory` is a right answer to every request, and no session has to be woken for it.
pub fn answer_unmade<C: Ledger, A: Ledger, R: Wait, N: ListName>(
    rt: &R,
    shared: &Shared<C, A, N>,
    number: u64,
    book: Arc<PointBook>,
    ask: Ask,
) {
    let unmade = Compiled::unmade(book, ask);
    let mut book = shared.lock(rt);
    post_or_drop(&mut book, number, unmade);
}

/// Returns a worker's job whose request for a composite schedule has no answer yet. Otherwise it
/// comes back as an error: its session has ended, or the central system is stopped.
fn job_to_begin<C: Ledger, A: Ledger, N: ListName>(
    book: &Book<C, A, N>,
    job: Job,
) -> Result<Job, Job>
    ensures begun { IfOk result (λ begun. begun ≡ job) }
    ensures awaited { IfOk result (λ begun. awaits book.now.present job.number ≡ true) }
    ensures unwanted { IfErr result (λ back. awaits book.now.present job.number ≡ false) }
{
    if book.awaits(job.number()) {
        Ok(job)
    } else {
        Err(job)
    }
}

/// Answers jobs, one after the other, until all senders of the channel are gone. Drops a job whose
/// request has an answer, or isn't kept.
pub fn worker<C: Ledger, A: Ledger, R: Wait, G: Gate, N: ListName>(
    rt: &R,
    alloc: Global,
    jobs: &Receiver<Job>,
    shared: &Shared<C, A, N>,
    gate: &G,
) {
    for _turn in rt.forever() {
        let Ok(job) = jobs.recv(rt) else {
            break;
        };
        gate.enter(job.number());
        // The guard is dropped at the end of this statement: the lock isn't held while compiling.
        let begun = job_to_begin(&shared.lock(rt), job);
        if let Ok(job) = begun {
            gate.begin(job.number());
            answer_job(rt, alloc, shared, job);
        }
    }
}

/// Answers jobs on this thread and on up to `workers - 1` more, until all senders of the channel
/// are gone. Returns the number of these threads: fewer than `workers` if one couldn't be made.
pub fn run_pool<
    C: Ledger + Send + Sync,
    A: Ledger + Send + Sync,
    R: Threads + Wait + Sync,
    G: Gate + Sync,
    N: ListName + Send + Sync,
>(
    rt: &R,
    alloc: Global,
    workers: usize,
    jobs: &Receiver<Job>,
    shared: &Shared<C, A, N>,
    gate: &G,
) -> usize
    requires { 1 ≤ workers }
    ensures { (1 ≤ result) × (result ≤ workers) }
{
    thread::scope(
        thread::scope_env(),
        rt,
        |scope| -> usize
            requires { 1 ≤ workers }
            ensures { (1 ≤ result) × (result ≤ workers) }
        {
            let mut ran = 1usize;
            for _thread in 1..workers {
                if scope
                    .spawn(move || worker(rt, alloc, jobs, shared, gate))
                    .is_ok()
                {
                    ran += 1;
                }
            }
            // This thread works too, so that jobs are answered even if no thread can be made.
            worker(rt, alloc, jobs, shared, gate);
            ran
        },
    )
}
