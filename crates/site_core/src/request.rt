//! A kept request for a composite schedule.

ghost use Rattle.std.specs.Prelude.{◌≡◌, ◌↔◌, IsTrue, IfOk, MatchResult};
ghost use Rattle.site_core.specs.Post.{IsRefusedFor};
ghost use Rattle.site_core.specs.ByCases.Requests.{MayBePosted};

use crate::shared_book::SharedBook;
use meaning::{Ask, Composite};
use ocpp_scalars::Refusal;
use std::alloc::AllocError;
use std::marker::Model;
use sweep_compiler::Compiled;

/// The most requests for composite schedules that are kept, answered or not.
pub const MAX_REQUESTS: usize = 64;

/// A request for a composite schedule that is kept until its answer is handed out. The book has the
/// connector of the `Ask`.
#[derive(Drop)]
pub(crate) struct KeptRequest {
    pub number: u64,
    /// The place of its point in the site file.
    pub place: usize,
    /// The point's book when the request was taken.
    pub book: SharedBook,
    pub ask: Ask,
    /// None before it is compiled.
    pub answer: Option<Result<Composite, Refusal>>,
}

impl Model for KeptRequest {
    ghost use Rattle.std.specs.Prelude.{◌≤◌, length};
    ghost use Rattle.site_core.specs.State.{Kept};

    ghost Value = { Kept };

    ghost view = { λ r. record {
      number = r.number;
      place = r.place;
      book = r.book;
      ask = r.ask;
      answer = r.answer;
    } };

    ghost invariant = { λ r. r.ask.connector ≤ length r.book.ceilings };
}

impl KeptRequest {
    /// Copies the request, sharing the book.
    pub fn copy(&self) -> Result<KeptRequest, AllocError>
        ensures { IfOk result (λ copy. copy ≡ self.now) }
    {
        Ok(KeptRequest {
            number: self.number,
            place: self.place,
            book: self.book.share()?,
            ask: self.ask,
            answer: copy_of_answer(&self.answer)?,
        })
    }

    /// Checks whether a brought answer is for this request. The refusals are `AlreadyAnswered`, and
    /// then `StrangerInput`, if it is for another book or another `Ask`.
    pub fn check_post(&self, brought: &Compiled) -> Result<(), Refusal>
        ensures { MatchResult result (λ _. MayBePosted self.now brought.now)
            (λ refusal. IsRefusedFor self.now brought.now refusal) }
    {
        if self.answer.is_some() {
            return Err(Refusal::AlreadyAnswered);
        }
        // Compared by value: the kit can't compare two `Arc`s by pointer, and an equal book has the
        // same right answers.
        if !self.book.book().same(brought.book()) || !is_same(&self.ask, brought.ask()) {
            return Err(Refusal::StrangerInput);
        }
        Ok(())
    }
}

/// Whether two requests for composite schedules that the machine keeps or answers have the same
/// connector, start and duration.
fn is_same(one: &Ask, other: &Ask) -> bool
    ensures { IsTrue result ↔ (one.now ≡ other.now) }
{
    one.connector == other.connector && one.start == other.start && one.duration == other.duration
}

/// Copies the answer to a request for a composite schedule that the machine keeps, if it has one:
/// the schedule or a refusal.
fn copy_of_answer(
    answer: &Option<Result<Composite, Refusal>>,
) -> Result<Option<Result<Composite, Refusal>>, AllocError>
    ensures { IfOk result (λ copy. copy ≡ answer.now) }
{
    match answer {
        None => Ok(None),
        Some(Ok(schedule)) => Ok(Some(Ok(schedule.copy()?))),
        Some(Err(refusal)) => Ok(Some(Err(*refusal))),
    }
}
