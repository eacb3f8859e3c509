//! The steps of requests for composite schedules, and the end.

ghost use Rattle.std.specs.Prelude.{◌≡◌, ◌<◌, ◌≤◌, None, Some, Ok, Err, IfOk, IfErr, length};
ghost use Rattle.site_core.specs.State.{book_at};
ghost use Rattle.site_core.specs.declared.reply.Reply.{Reply};
ghost use Rattle.site_core.specs.Step.{HasAskedConnector, outlook_of, refusal_to_take, takes, taking, Compiles, no_answer, compiles, answers, finishes, cause_of};
ghost use Rattle.site_core.specs.declared.step.Step.TheVariants as steps;
ghost use Rattle.site_core.specs.Step.{Steps};
ghost use Rattle.site_core.specs.Requests.{request_of};
ghost use Rattle.site_core.specs.Post.{Posts, IsRefusedPost};
ghost use Rattle.site_core.specs.ByCases.Made.{IsMade, IsNotMade};

use crate::ask::ask_at;
use crate::charge_points::point_at;
use crate::machine::Machine;
use crate::numbers::MAX_NUMBER;
use crate::reply::Reply;
use crate::request::{KeptRequest, MAX_REQUESTS};
use crate::requests::{compile_request, hand_out, post_answer, stop_all};
use crate::shared_book::SharedBook;
use crate::step::Take;
use crate::via::Via;
use meaning::{Ask, Composite};
use ocpp_scalars::Refusal;
use sweep_compiler::Compiled;

impl Machine {
    /// Makes the step Take of the machine: keeps a request for a composite schedule of a charge
    /// point (chapter 5.7), until its answer is handed out.
    #[inline(never)]
    pub(super) fn take(&mut self, take: &Take) -> Result<Reply, Refusal>
        ensures made { IfOk result (λ reply. IsMade (takes self.old take.now) reply self.new) }
        ensures refused { IfErr result (λ refusal.
            IsNotMade self.old (takes self.old take.now) refusal self.new) }
        ensures asked { IfOk result HasAskedConnector }
    {
        let (place, ask) = self.asked(take)?;
        let point = point_at(&self.points, place);
        // Shared, not copied: the first change of the point copies the book, so the request keeps
        // it as it is now.
        let kept = point.share_book()?;
        let replied = point.share_book()?;
        let number = self.numbers.request + 1;
        let reply = taken(number, replied, &ask);
        self.requests.push(KeptRequest {
            number,
            place,
            book: kept,
            ask,
            answer: None,
        })?;
        self.numbers.request = number;
        Ok(reply)
    }

    /// Returns the outlook of the machine's step Take, a request for a composite schedule, as if
    /// memory always lasted: that it is kept, or the refusal.
    pub(super) fn take_outlook(&self, take: &Take) -> Result<bool, Refusal>
        ensures { result ≡ outlook_of self.now (takes self.now take.now) }
    {
        self.asked(take)?;
        Ok(true)
    }

    /// Returns the place in the site file of the point that a Take (the machine's step for a
    /// request for a composite schedule) names, and its `Ask`. Otherwise returns the reason why the
    /// request isn't kept, as if memory always lasted.
    fn asked(&self, take: &Take) -> Result<(usize, Ask), Refusal>
        ensures taking { IfOk result (λ found.
            takes self.now take.now ≡ Ok (taking self.now found.0 found.1)) }
        ensures refused { IfErr result (λ refusal. takes self.now take.now ≡ Err refusal) }
        ensures within { IfOk result (λ found. found.0 < length self.now.points) }
        ensures connector { IfOk result (λ found.
            found.1.connector ≤ length (book_at self.now found.0).ceilings) }
        ensures last { IfOk result (λ found. refusal_to_take self.now take.now ≡ None) }
    {
        let place = self.place_for(&take.point, Via::Name)?;
        let ask = ask_at(self.site.unit(), point_at(&self.points, place).book(), take)?;
        match self.refusal_to_take(take) {
            Some(refusal) => Err(refusal),
            None => Ok((place, ask)),
        }
    }

    /// Returns the reason why the machine doesn't keep a request for a composite schedule with an
    /// `Ask`, as if memory always lasted.
    fn refusal_to_take(&self, take: &Take) -> Option<Refusal>
        ensures { result ≡ refusal_to_take self.now take.now }
    {
        if self.requests.len() >= MAX_REQUESTS {
            return Some(Refusal::TooManyOpen);
        }
        if self.numbers.request == MAX_NUMBER {
            return Some(Refusal::VersionsExhausted);
        }
        // A session that has seen a newer version came from a later store, and must not be answered
        // from this older one.
        if take.seen > self.numbers.version {
            return Some(Refusal::Behind {
                seen: take.seen,
                found: self.numbers.version,
            });
        }
        None
    }

    /// Makes the step Compile of the machine: compiles the composite schedule of the kept request
    /// with this number, and keeps it as the request's answer.
    #[inline(never)]
    pub(super) fn compile(&mut self, number: u64) -> Result<Reply, Refusal>
        ensures made { IfOk result (λ reply. Compiles self.old number reply self.new) }
        ensures refused { IfErr result (λ refusal.
            (cause_of (compiles self.old number no_answer) ≡ Some refusal)
            × (self.new ≡ self.old)) }
        ensures asked { IfOk result HasAskedConnector }
    {
        compile_request(self.alloc, &mut self.requests, number)?;
        Ok(Reply::Compiled)
    }

    /// Compiles the request of a number (chapter 5.7) with an answer that was compiled elsewhere,
    /// and returns a second copy of the answer. The refusals are `UnknownRequest`,
    /// `AlreadyAnswered` and, for an answer to another book or another `Ask`, `StrangerInput`. Then
    /// nothing has changed, and the brought answer comes back. Allocates nothing.
    pub fn post(
        &mut self,
        number: u64,
        brought: Compiled,
    ) -> Result<Result<Composite, Refusal>, (Refusal, Compiled)>
        ensures posts { IfOk result (λ again. Posts self.old number brought self.new) }
        ensures step { IfOk result (λ again.
            Steps self.old (steps.Compile number) Reply.Compiled self.new) }
        ensures again { IfOk result (λ again. again ≡ brought.answer) }
        ensures refused { IfErr result (λ refused.
            IsRefusedPost (request_of number self.old.requests) brought refused.0) }
        ensures kept { IfErr result (λ refused. self.new ≡ self.old) }
        ensures back { IfErr result (λ refused. refused.1 ≡ brought) }
    {
        let again = post_answer(&mut self.requests, number, brought)?;
        Ok(again)
    }

    /// Makes the step Answer of the machine: hands out the answer to the kept request for a
    /// composite schedule with this number.
    #[inline(never)]
    pub(super) fn answer(&mut self, number: u64) -> Result<Reply, Refusal>
        ensures made { IfOk result (λ reply. IsMade (answers self.old number) reply self.new) }
        ensures refused { IfErr result (λ refusal.
            (cause_of (answers self.old number) ≡ Some refusal) × (self.new ≡ self.old)) }
        ensures asked { IfOk result HasAskedConnector }
    {
        hand_out(&mut self.requests, number)
    }

    /// Makes the step Finish: stops the machine, and answers by `Stopped` each kept request for a
    /// composite schedule that has no answer.
    #[inline(never)]
    pub(super) fn finish(&mut self) -> Reply
        ensures made { finishes self.old ≡ record { reply = result; after = self.new } }
        ensures asked { HasAskedConnector result }
    {
        if !self.is_stopped {
            stop_all(&mut self.requests);
            self.is_stopped = true;
        }
        Reply::Finished
    }
}

/// Makes the machine's reply to a request for a composite schedule that it keeps, with its number,
/// its point's book and its `Ask`.
fn taken(number: u64, book: SharedBook, ask: &Ask) -> Reply
    ensures { result ≡ Reply.Taken number book ask.now }
{
    Reply::Taken {
        number,
        book,
        ask: *ask,
    }
}
