//! The workers of `run`, and the channels to them.

ghost use Rattle.std.specs.Prelude.{◌≡◌, ◌≤◌, ◌+◌, ◌/◌};

use crate::seats::Seats;
use crate::serve_fault::ServeFault;
use compile_pool::{Jobs, MAX_JOBS, Open, run_pool};
use crossbeam_channel::{Sender, bounded};
use ghost_list::ListName;
use std::alloc::{AllocError, Global};
use std::sync::ledger::Ledger;
use std::sync::{Arc, Wait};
use std::thread;
use std::thread::Threads;
use version_store::{Job, Shared};
use world::Shareable;

/// The most long jobs that wait for workers: half of the requests that may be open at a time.
// The other half is left to short jobs, which long ones would otherwise keep out.
const MAX_LONG_JOBS: usize = MAX_JOBS / 2;

/// The senders of jobs to the workers: to those of short jobs, and to those of long ones.
#[derive(Drop)]
pub struct JobSenders {
    short: Sender<Job>,
    long: Sender<Job>,
}

impl JobSenders {
    /// Returns clones of the senders, for another thread.
    pub fn share(&self) -> Result<JobSenders, AllocError> {
        Ok(JobSenders {
            short: self.short.clone()?,
            long: self.long.clone()?,
        })
    }

    /// Returns the senders for a session.
    pub fn jobs(&self) -> Jobs<'_> {
        Jobs::new(&self.short, &self.long)
    }
}

/// Starts the workers on threads of their own. Half of them take short jobs, and half of them long
/// ones: at least one each. If no thread can be made, no worker takes the jobs, and sessions
/// compile themselves.
pub fn begin_workers<
    C: Ledger + Shareable,
    A: Ledger + Shareable,
    R: Threads + Wait + Copy + Shareable,
    N: ListName + Shareable,
>(
    seats: &Seats<R>,
    shared: &Arc<Shared<C, A, N>, Global>,
    workers: usize,
) -> Result<JobSenders, ServeFault>
    requires { 1 ≤ workers }
{
    // With one worker there are two threads, so that short jobs never wait for a long one.
    let for_long = (workers / 2).max(1);
    let for_short = (workers - workers / 2).max(1);
    Ok(JobSenders {
        short: begin_pool(seats, shared, for_short, MAX_JOBS)?,
        long: begin_pool(seats, shared, for_long, MAX_LONG_JOBS)?,
    })
}

/// Starts `workers` threads of `run`, which compile schedules for sessions, on one queue of at most
/// `most_waiting` jobs. Returns its sender.
fn begin_pool<
    C: Ledger + Shareable,
    A: Ledger + Shareable,
    R: Threads + Wait + Copy + Shareable,
    N: ListName + Shareable,
>(
    seats: &Seats<R>,
    shared: &Arc<Shared<C, A, N>, Global>,
    workers: usize,
    most_waiting: usize,
) -> Result<Sender<Job>, ServeFault>
    requires { 1 ≤ workers }
{
    let (jobs, queue) = bounded(seats.alloc, most_waiting)?;
    let (rt, alloc) = (seats.rt, seats.alloc);
    let shared = Arc::try_clone(shared)?;
    let pool = thread::Builder::new().spawn(
        &seats.rt,
        move || -> usize
            requires { 1 ≤ workers }
        { run_pool(&rt, alloc, workers, &queue, &shared, &Open) },
    );
    // If no thread could be made, the queue was dropped with its closure, and each send fails.
    drop(pool);
    Ok(jobs)
}
