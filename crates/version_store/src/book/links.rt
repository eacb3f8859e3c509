//! The book's methods for links to points, for the calls that are sent over them, and for boots.
//! They aren't counted as changes of a session.

ghost use Rattle.std.specs.Prelude.{◌≡◌, IfOk, IfErr};
ghost use Rattle.site_core.specs.declared.step.Step.TheVariants as steps;
ghost use Rattle.site_core.specs.declared.reply.Reply.{Reply};
ghost use Rattle.version_store.specs.Calls.{Calls, Makes, IsRefusalOf, sending};

use crate::book::Book;
use crate::pass::Pass;
use crate::recorder::make_recorded_or_drop;
use ghost_list::ListName;
use messages::Call;
use ocpp_scalars::{Instant, Refusal};
use site_core::{PointId, Reply, Step};
use std::sync::ledger::Ledger;

impl<C: Ledger, A: Ledger, N: ListName> Book<C, A, N> {
    /// Gives a point a new link (OCPP-J 1.6, 3), over which its calls are sent from now on.
    pub fn attach(&mut self, pass: &mut Pass<C, A>, point: PointId) -> Result<u64, Refusal>
        ensures calls { IfOk result (λ link. Calls self.old pass.old (steps.Attach point)
            (Reply.Attached link) self.new pass.new) }
        ensures refusal { IfErr result (λ refusal.
            IsRefusalOf self.old (steps.Attach point) refusal) }
        ensures kept { IfErr result (λ refusal. (self.new ≡ self.old) × (pass.new ≡ pass.old)) }
    {
        match self.reply_to(pass, Step::Attach(point))? {
            Reply::Attached(link) => Ok(link),
            _ => unreachable!(),
        }
    }

    /// Returns the first call that waits for a point, to be sent over its link. Returns none if no
    /// call waits or one is in flight.
    pub fn send(&mut self, point: PointId, link: u64) -> Result<Option<Call>, Refusal>
        ensures makes { IfOk result (λ call. Makes self.old (steps.Send point link) (sending call)
            self.new) }
        ensures refusal { IfErr result (λ refusal.
            IsRefusalOf self.old (steps.Send point link) refusal) }
        ensures kept { IfErr result (λ refusal. self.new ≡ self.old) }
    {
        let step = Step::Send { point, link };
        match make_recorded_or_drop(&mut self.history, &mut self.recorder, step)? {
            Reply::Sent(call) => Ok(Some(call)),
            Reply::Nothing => Ok(None),
            _ => unreachable!(),
        }
    }

    /// Records that a point has answered the call of this number, which was in flight, and whether
    /// its reply has the status Accepted.
    pub fn confirm(
        &mut self,
        point: PointId,
        link: u64,
        call: u64,
        accepted: bool,
    ) -> Result<(), Refusal>
        ensures makes { IfOk result (λ _. Makes self.old
            (steps.Confirm point link call accepted) Reply.Confirmed self.new) }
        ensures refusal { IfErr result (λ refusal.
            IsRefusalOf self.old (steps.Confirm point link call accepted) refusal) }
        ensures kept { IfErr result (λ refusal. self.new ≡ self.old) }
    {
        let step = Step::Confirm {
            point,
            link,
            call,
            accepted,
        };
        match make_recorded_or_drop(&mut self.history, &mut self.recorder, step)? {
            Reply::Confirmed => Ok(()),
            _ => unreachable!(),
        }
    }

    /// Records that a link to a point is lost. A call that was in flight waits again.
    pub fn lost(&mut self, point: PointId, link: u64) -> Result<(), Refusal>
        ensures makes { IfOk result (λ _. Makes self.old (steps.Lost point link) Reply.LinkLost
            self.new) }
        ensures refusal { IfErr result (λ refusal.
            IsRefusalOf self.old (steps.Lost point link) refusal) }
        ensures kept { IfErr result (λ refusal. self.new ≡ self.old) }
    {
        let step = Step::Lost { point, link };
        match make_recorded_or_drop(&mut self.history, &mut self.recorder, step)? {
            Reply::LinkLost => Ok(()),
            _ => unreachable!(),
        }
    }

    /// Records that a point has booted at a moment (chapter 4.2). Returns the first call that it
    /// hasn't confirmed: it may have lost the profiles that came by earlier ones.
    pub fn boot(&mut self, point: PointId, moment: Instant) -> Result<u64, Refusal>
        ensures makes { IfOk result (λ first. Makes self.old (steps.Boot point moment)
            (Reply.Booted first) self.new) }
        ensures refusal { IfErr result (λ refusal.
            IsRefusalOf self.old (steps.Boot point moment) refusal) }
        ensures kept { IfErr result (λ refusal. self.new ≡ self.old) }
    {
        let step = Step::Boot { point, moment };
        match make_recorded_or_drop(&mut self.history, &mut self.recorder, step)? {
            Reply::Booted(first) => Ok(first),
            _ => unreachable!(),
        }
    }
}
