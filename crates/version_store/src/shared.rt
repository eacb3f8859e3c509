//! The book as threads share it.

ghost use Rattle.std.specs.Prelude.{◌≡◌, ◌<◌, ◌≤◌, true, false, IfOk, IfErr, IfSome, All, length};
ghost use Rattle.std.specs.Sync.Mutex.{mutex_guard_value};
ghost use Rattle.version_store.specs.Answers.{awaits};
ghost use Rattle.version_store.specs.Store.{IsStore};
ghost use Rattle.version_store.specs.Passes.{unused_pass, totals_together};

use crate::book::Book;
use crate::missing::Missing;
use crate::pass::Pass;
use crate::recorded_states::NoName;
use crate::totals::Totals;
use ghost_list::{ListName, Unnamed};
use site_rules::Site;
use std::alloc::{AllocError, Global};
use std::marker::Model;
use std::rt::Clock;
use std::sync::ledger::{Blank, Ledger};
use std::sync::{Condvar, Mutex, MutexGuard, Wait};
use std::time::Duration;

/// The book of the central system, which one thread at a time has. Only that thread calls its
/// methods, so the invariant of a book holds between any calls of any threads.
#[derive(Drop)]
pub struct Shared<C: Ledger, A: Ledger, N: ListName = NoName> {
    book: Mutex<Book<C, A, N>>,
    /// The condition variables of threads that wait for an answer, chosen by the request's number.
    places: Vec<Condvar>,
    sessions: u64,
}

/// The number of condition variables: as many as kept requests, so that few requests share one.
// With one for all, each answer would wake every session that waits.
const PLACES: u64 = 64;

impl<C: Ledger, A: Ledger, N: ListName> Model for Shared<C, A, N> {
    ghost use Rattle.std.specs.Prelude.{ℕ, ◌≡◌, length};

    ghost Value = { ℕ };

    ghost view = { λ shared. shared.sessions };

    ghost invariant = { λ shared. (shared.sessions ≡ C.parts) × (shared.sessions ≡ A.parts)
        × (length shared.places.items ≡ 64) };
}

impl<C: Ledger, A: Ledger> Shared<C, A> {
    /// Makes the book of a site at its opening, with an unused pass for each session.
    pub fn make(
        alloc: Global,
        changes: Blank,
        answers: Blank,
        site: Site,
        sessions: u64,
    ) -> Result<(Shared<C, A>, Vec<Pass<C, A>>), AllocError>
        requires changes { (changes.name ≡ C.name) × (changes.parts ≡ C.parts)
            × (changes.parts ≡ sessions) }
        requires answers { (answers.name ≡ A.name) × (answers.parts ≡ A.parts)
            × (answers.parts ≡ sessions) }
        requires some { 0 < sessions }
        ensures sessions { IfOk result (λ made. made.0 ≡ sessions) }
        ensures passes { IfOk result (λ made. length made.1.items ≡ sessions) }
        ensures unused { IfOk result (λ made. All (λ pass. pass ≡ unused_pass) made.1.items) }
    {
        let (book, passes) = Book::make(alloc, changes, answers, site, sessions)?;
        let shared = Shared::of_book(alloc, book, sessions)?;
        Ok((shared, passes))
    }
}

impl<C: Ledger, A: Ledger, N: ListName> Shared<C, A, N> {
    /// Makes the same, with the book's states recorded in a ghost list.
    pub fn make_with(
        alloc: Global,
        changes: Blank,
        answers: Blank,
        site: Site,
        sessions: u64,
        states: Unnamed,
    ) -> Result<(Shared<C, A, N>, Vec<Pass<C, A>>), AllocError>
        requires changes { (changes.name ≡ C.name) × (changes.parts ≡ C.parts)
            × (changes.parts ≡ sessions) }
        requires answers { (answers.name ≡ A.name) × (answers.parts ≡ A.parts)
            × (answers.parts ≡ sessions) }
        requires some { 0 < sessions }
        requires states { states.name ≡ N.name }
        requires recorded { N.is_recorded ≡ true }
        ensures sessions { IfOk result (λ made. made.0 ≡ sessions) }
        ensures passes { IfOk result (λ made. length made.1.items ≡ sessions) }
        ensures unused { IfOk result (λ made. All (λ pass. pass ≡ unused_pass) made.1.items) }
    {
        let (book, passes) = Book::make_with(alloc, changes, answers, site, sessions, states)?;
        let shared = Shared::of_book(alloc, book, sessions)?;
        Ok((shared, passes))
    }

    /// Puts the central system's book, which has this many passes, behind a lock for threads to
    /// share.
    fn of_book(
        alloc: Global,
        book: Book<C, A, N>,
        sessions: u64,
    ) -> Result<Shared<C, A, N>, AllocError>
        requires { (sessions ≡ C.parts) × (sessions ≡ A.parts) }
        ensures { IfOk result (λ shared. shared ≡ sessions) }
    {
        Ok(Shared {
            book: Mutex::new(book),
            places: new_places(alloc)?,
            sessions,
        })
    }

    /// Ends the book with all passes that were made. Returns the numbers of changes made and of
    /// answers handed out, which are the sums of the passes.
    pub fn settle(self, passes: Vec<Pass<C, A>>) -> Result<Totals, Missing>
        ensures together { IfOk result (λ totals. totals ≡ totals_together passes.items) }
        ensures whole { IfOk result (λ totals. self ≤ length passes.items) }
        ensures missing { IfErr result (λ missing.
            (missing.given ≡ length passes.items) × (missing.made ≡ self)
            × (missing.given < missing.made)) }
    {
        let given = passes.len();
        if (given as u64) < self.sessions {
            return Err(Missing {
                given,
                made: self.sessions,
            });
        }
        let book = self.book.into_inner();
        Ok(book.settle(passes))
    }
}

impl<C: Ledger, A: Ledger, N: ListName> Shared<C, A, N> {
    /// Returns the number of sessions that have a pass.
    pub fn sessions(&self) -> u64
        ensures { result ≡ self.now }
    {
        self.sessions
    }

    /// Locks the book, once no other thread has it. The invariant of a book holds, whatever other
    /// threads did meanwhile.
    pub fn lock<R: Wait>(&self, rt: &R) -> MutexGuard<'_, Book<C, A, N>>
        ensures { IsStore (mutex_guard_value result) }
    {
        let book = self.lock_after_dropping_fold(rt);
        // Only for its clause, which is the book's invariant.
        book.stored();
        book
    }

    /// Locks the central system's book for a thread. Drops the remains of a fold of its history
    /// while it is unlocked, so that no thread waits for that.
    fn lock_after_dropping_fold<R: Wait>(&self, rt: &R) -> MutexGuard<'_, Book<C, A, N>> {
        let mut book = self.book.lock(rt);
        let Some(folded) = book.take_folded() else {
            return book;
        };
        drop(book);
        let room = folded.into_room();
        let mut book = self.book.lock(rt);
        book.give_room(room);
        book
    }

    /// Wakes all threads that wait for an answer. A thread calls it after `finish`.
    pub fn wake(&self) {
        for place in &self.places {
            place.notify_all();
        }
    }

    /// Wakes the threads that wait for the answer to the request of a number. A thread calls it
    /// after it has posted the answer.
    pub fn wake_for(&self, number: u64) {
        self.place_of(number).notify_all();
    }

    /// Returns the shared book's condition variable of the threads that wait for the answer to the
    /// request for a composite schedule of this number.
    fn place_of(&self, number: u64) -> &Condvar {
        &self.places[(number % PLACES) as usize]
    }

    /// Waits until the request of a number has its answer, or isn't kept, and locks the book.
    pub fn until_answered<R: Wait>(&self, rt: &R, number: u64) -> MutexGuard<'_, Book<C, A, N>>
        ensures store { IsStore (mutex_guard_value result) }
        ensures answered { awaits (mutex_guard_value result).present number ≡ false }
    {
        let book = self.lock(rt);
        let place = self.place_of(number);
        // Tested again at each wake-up, since several requests may share a condition variable.
        let book = place.wait_while(rt, book, |book| book.awaits(number));
        book.stored();
        book
    }

    /// Does the same for at most a given time. Returns none if that passes first.
    pub fn until_answered_within<R: Wait + Clock>(
        &self,
        rt: &R,
        number: u64,
        time: Duration,
    ) -> Option<MutexGuard<'_, Book<C, A, N>>>
        ensures store { IfSome result (λ book. IsStore (mutex_guard_value book)) }
        ensures answered { IfSome result
            (λ book. awaits (mutex_guard_value book).present number ≡ false) }
    {
        let book = self.lock(rt);
        let place = self.place_of(number);
        let (book, waited) = place.wait_timeout_while(rt, book, time, |book| book.awaits(number));
        if waited.timed_out() {
            return None;
        }
        book.stored();
        Some(book)
    }
}

/// Makes the shared book's condition variables of the threads that wait for answers to requests for
/// composite schedules.
fn new_places(alloc: Global) -> Result<Vec<Condvar>, AllocError>
    ensures { IfOk result (λ places. length places.items ≡ 64) }
{
    let mut places = Vec::new(alloc);
    for _place in 0..PLACES {
        places.push(Condvar::new())?;
    }
    Ok(places)
}
