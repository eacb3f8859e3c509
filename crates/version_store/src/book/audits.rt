//! The book's methods for audits of points. They don't change a point's book.

ghost use Rattle.std.specs.Prelude.{◌≡◌, None, Ok, IfOk, IfErr};
ghost use Rattle.ocpp_scalars.specs.declared.refusal.Refusal.{Refusal};
ghost use Rattle.site_core.specs.declared.step.Step.TheVariants as steps;
ghost use Rattle.site_core.specs.declared.reply.Reply.{Reply};
ghost use Rattle.site_core.specs.State.{audit_job};
ghost use Rattle.site_core.specs.Audits.{AreAuditsRight};
ghost use Rattle.version_store.specs.Calls.{Calls, Makes, IsRefusalOf};

use crate::book::Book;
use crate::pass::Pass;
use crate::recorder::make_recorded;
use ghost_list::ListName;
use messages::PointStatus;
use ocpp_scalars::Refusal;
use site_core::{PointId, Refused, Reply, Step};
use std::sync::ledger::Ledger;
use sweep_compiler::{AuditJob, Judged};

impl<C: Ledger, A: Ledger, N: ListName> Book<C, A, N> {
    /// Requests a point's own schedule of a connector, 0 being the whole point, over `duration`
    /// seconds (chapter 5.7). Keeps the point's present book, with which the reply is compared. It
    /// replaces an earlier audit. Returns the number of the call.
    pub fn audit(
        &mut self,
        pass: &mut Pass<C, A>,
        point: PointId,
        connector: u32,
        duration: u32,
    ) -> Result<u64, Refusal>
        ensures calls { IfOk result (λ call. Calls self.old pass.old
            (steps.Audit point connector duration)
            (Reply.Audited call self.old.present.site.unit) self.new pass.new) }
        ensures refusal { IfErr result (λ refusal. IsRefusalOf self.old
            (steps.Audit point connector duration) refusal) }
        ensures kept { IfErr result (λ refusal. (self.new ≡ self.old) × (pass.new ≡ pass.old)) }
    {
        let step = Step::Audit {
            point,
            connector,
            duration,
        };
        match self.reply_to(pass, step)? {
            Reply::Audited { call, .. } => Ok(call),
            _ => unreachable!(),
        }
    }

    /// Keeps the verdict on a point's reply to the audit whose call has this number. No session's
    /// pass counts it. On a refusal the verdict comes back.
    pub fn judge(
        &mut self,
        point: PointId,
        call: u64,
        judged: Judged,
    ) -> Result<(), (Refusal, Judged)>
        ensures makes { IfOk result (λ _. Makes self.old (steps.Judge point call judged)
            Reply.VerdictKept self.new) }
        ensures refusal { IfErr result (λ refused.
            IsRefusalOf self.old (steps.Judge point call judged) refused.0) }
        ensures kept { IfErr result (λ refused. self.new ≡ self.old) }
        ensures back { IfErr result (λ refused. refused.1 ≡ judged) }
    {
        let step = Step::Judge {
            point,
            call,
            judged,
        };
        match make_recorded(&mut self.history, &mut self.recorder, step) {
            Ok(Reply::VerdictKept) => Ok(()),
            Ok(_) => unreachable!(),
            Err(
                Refused {
                    refusal,
                    step: Step::Judge { judged, .. },
                },
            ) => Err((refusal, judged)),
            Err(_) => unreachable!(),
        }
    }

    /// Returns the version of the store, the number of unconfirmed calls of a point, and the
    /// outcome of its audit. Changes nothing.
    pub fn status(&mut self, pass: &mut Pass<C, A>, point: PointId) -> Result<PointStatus, Refusal>
        ensures calls { IfOk result (λ status. Calls self.old pass.old (steps.Status point)
            (Reply.Status status) self.new pass.new) }
        ensures refusal { IfErr result (λ refusal.
            IsRefusalOf self.old (steps.Status point) refusal) }
        ensures pass { IfErr result (λ refusal. pass.new ≡ pass.old) }
        ensures kept { self.new ≡ self.old }
    {
        match self.reply_to(pass, Step::Status(point))? {
            Reply::Status(status) => Ok(status),
            _ => unreachable!(),
        }
    }

    /// Returns the request of the audit of the point of an identity, with the book of that time, if
    /// the audit's call has this number and it has no verdict yet. Copies nothing, and may need
    /// memory only if there is such an audit. Also shows that each verdict is Unsettled, or one on
    /// the request, the book of that time and something that the point may have replied.
    pub fn audit_job(&self, point: &str, call: u64) -> Result<Option<AuditJob>, Refusal>
        ensures job { IfOk result (λ job. job ≡ audit_job self.now.present point.now call) }
        ensures certain { audit_job self.now.present point.now call ≡ None → result ≡ Ok None }
        ensures memory { IfErr result (λ refusal. refusal ≡ Refusal.OutOfMemory) }
        ensures right { AreAuditsRight self.now.present }
    {
        self.stored();
        self.present().audit_job(point, call)
    }
}
