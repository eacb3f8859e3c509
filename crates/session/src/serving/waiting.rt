//! The wait of a session for the answer to its request.

ghost use Rattle.std.specs.Prelude.{◌≡◌, false, IfSome};
ghost use Rattle.std.specs.Sync.Mutex.{mutex_guard_value};
ghost use Rattle.version_store.specs.Answers.{awaits};
ghost use Rattle.version_store.specs.Store.{IsStore};

use compile_pool::Jobs;
use ghost_list::ListName;
use std::sync::ledger::Ledger;
use std::sync::{MutexGuard, Wait};
use version_store::{Book, Job, Shared};

/// The outcome of sending a job to the workers.
#[derive(Drop)]
pub enum Sending {
    Sent,
    /// The session compiles the job itself: no worker takes it, or waking one would take longer.
    Own(Job),
    /// Too many jobs wait for the workers.
    NoRoom(Job),
}

/// A way for a session to wait for the answer to its request.
pub trait Waiting {
    /// Sends the job of a session's schedule request to the workers that compile schedules.
    fn send_job<R: Wait>(&mut self, rt: &R, jobs: Jobs<'_>, job: Job) -> Sending;

    /// Returns the book once a session's schedule request of this number is answered or isn't kept,
    /// or `None` if the client leaves before.
    fn until_answered<'s, R: Wait, C: Ledger, A: Ledger, N: ListName>(
        &mut self,
        rt: &R,
        shared: &'s Shared<C, A, N>,
        number: u64,
    ) -> Option<MutexGuard<'s, Book<C, A, N>>>
        ensures store { IfSome result (λ book. IsStore (mutex_guard_value book)) }
        ensures answered { IfSome result
            (λ book. awaits (mutex_guard_value book).present number ≡ false) };
}
