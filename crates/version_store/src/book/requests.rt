//! The book's methods for requests for composite schedules, and for the end.

ghost use Rattle.std.specs.Prelude.{ℕ, ◌≡◌, ◌≤◌, true, None, IfOk, IfErr, IfSome, IfNone};
ghost use Rattle.site_core.specs.declared.step.Step.TheVariants as steps;
ghost use Rattle.site_core.specs.declared.reply.Reply.{Reply};
ghost use Rattle.site_core.specs.Requests.{request_of};
ghost use Rattle.site_core.specs.Step.{is_reply_to};
ghost use Rattle.site_core.specs.Right.{IsRight};
ghost use Rattle.site_core.specs.Post.{IsRefusedPost};
ghost use Rattle.version_store.specs.Calls.{Calls, Makes, IsRefusalOf, IsBehind, PostsTo, take_of};
ghost use Rattle.version_store.specs.Answers.{HandsOutRight, reply_of, awaits};

use crate::answer::Answer;
use crate::book::Book;
use crate::job::Job;
use crate::pass::Pass;
use ghost_list::ListName;
use ocpp_scalars::{Instant, Refusal};
use profile::Unit;
use site_core::{PointId, Reply, Step, Take};
use std::sync::ledger::Ledger;
use sweep_compiler::Compiled;

impl<C: Ledger, A: Ledger, N: ListName> Book<C, A, N> {
    /// Keeps a request for the composite schedule (chapter 5.7) of a connector of a point.
    /// Connector 0 is the whole point. The schedule covers `duration` seconds from `start` on, in
    /// `unit` if one is given. Returns the job to compile and post.
    pub fn take(
        &mut self,
        pass: &mut Pass<C, A>,
        point: PointId,
        connector: u32,
        start: Instant,
        duration: u32,
        unit: Option<Unit>,
    ) -> Result<Job, Refusal>
        ensures calls { IfOk result (λ job. Calls self.old pass.old
            (steps.Take (take_of point connector start duration unit pass.old))
            (Reply.Taken job.number job.book job.ask) self.new pass.new) }
        ensures refusal { IfErr result (λ refusal. IsRefusalOf self.old
            (steps.Take (take_of point connector start duration unit pass.old)) refusal) }
        ensures fresh { IfOk result (λ job.
            pass.old.seen ≤ self.old.present.numbers.version) }
        ensures behind { IfErr result (λ refusal. (seen found : ℕ)
            → refusal ≡ Refusal.Behind seen found
            → IsBehind self.old.present.numbers.version pass.old.seen seen found) }
        ensures kept { IfErr result (λ refusal. (self.new ≡ self.old) × (pass.new ≡ pass.old)) }
    {
        let take = Take {
            point,
            connector,
            start,
            duration,
            unit,
            seen: pass.seen(),
        };
        match self.make_step(pass, Step::Take(take)) {
            Ok(Reply::Taken { number, book, ask }) => Ok(Job::new(number, book, ask)),
            Ok(_) => unreachable!(),
            Err(refused) => Err(refused.refusal),
        }
    }

    /// Answers the request of a number by a compiled answer for its book and `Ask`. On a refusal
    /// the answer comes back. Takes no memory.
    pub fn post(&mut self, number: u64, compiled: Compiled) -> Result<(), (Refusal, Compiled)>
        ensures posts { IfOk result (λ _. PostsTo self.old number compiled self.new) }
        ensures refusal { IfErr result (λ refused. IsRefusedPost
            (request_of number self.old.present.requests) compiled refused.0) }
        ensures kept { IfErr result (λ refused. self.new ≡ self.old) }
        ensures back { IfErr result (λ refused. refused.1 ≡ compiled) }
    {
        // Not recorded: the recorded states leave requests out, since a journal doesn't restore
        // them.
        self.history.post(number, compiled)?;
        Ok(())
    }

    /// Hands out the answer to the request of a number, and removes the request. Returns none if it
    /// has no answer yet. Takes no memory.
    pub fn collect(&mut self, pass: &mut Pass<C, A>, number: u64) -> Result<Option<Answer>, Refusal>
        ensures calls { IfOk result (λ answer. Calls self.old pass.old (steps.Answer number)
            (reply_of answer) self.new pass.new) }
        ensures numbered { IfOk result (λ answer. IfSome answer (λ a. a.number ≡ number)) }
        ensures right { IfOk result
            (λ answer. IfSome answer (λ a. IsRight a.book a.ask a.answer)) }
        ensures awaited { IfOk result
            (λ answer. IfNone answer (awaits self.old.present number ≡ true)) }
        ensures refusal { IfErr result (λ refusal. (refusal ≡ Refusal.UnknownRequest)
            × (request_of number self.old.present.requests ≡ None)) }
        ensures kept { IfErr result (λ refusal. (self.new ≡ self.old) × (pass.new ≡ pass.old)) }
    {
        match self.hand_out(pass, number)? {
            Reply::Answered { book, ask, answer } => {
                Ok(Some(Answer::new(number, book, ask, answer)))
            }
            Reply::NotYet => Ok(None),
            _ => unreachable!(),
        }
    }

    /// Whether the request of a number is kept and has no answer yet.
    pub fn awaits(&self, number: u64) -> bool
        ensures { result ≡ awaits self.now.present number }
    {
        matches!(self.present().outlook(&Step::Answer(number)), Ok(false))
    }

    /// Stops the central system: each request without an answer is answered `Stopped`, and only
    /// collecting goes on. Takes no memory.
    pub fn finish(&mut self)
        ensures { Makes self.old steps.Finish Reply.Finished self.new }
    {
        if !self.is_stopped() {
            self.history.finish();
            self.recorder.record(self.history.present());
        }
    }

    /// Replies to a session with the answer to its request of this number for a composite schedule,
    /// or NotYet. Counts the answer for the session's pass to the book.
    fn hand_out(&mut self, pass: &mut Pass<C, A>, number: u64) -> Result<Reply, Refusal>
        ensures calls { IfOk result (λ reply. Calls self.old pass.old (steps.Answer number) reply
            self.new pass.new) }
        ensures right { IfOk result HandsOutRight }
        ensures own { IfOk result (λ reply. is_reply_to (steps.Answer number) reply ≡ true) }
        ensures refusal { IfErr result (λ refusal. (refusal ≡ Refusal.UnknownRequest)
            × (request_of number self.old.present.requests ≡ None)) }
        ensures kept { IfErr result (λ refusal. (self.new ≡ self.old) × (pass.new ≡ pass.old)) }
    {
        let reply = self.history.hand_out(number)?;
        let version = self.history.present().version();
        self.ledgers
            .count(pass, &reply, self.history.made(), version);
        Ok(reply)
    }
}
