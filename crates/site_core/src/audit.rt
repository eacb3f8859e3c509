//! The audit of a charge point.

ghost use Rattle.std.specs.Prelude.{◌≡◌, IfOk};
ghost use Rattle.site_core.specs.Audit.{kept_verdict, outcome_of_verdict};
ghost use Rattle.sweep_compiler.specs.Judged.{IsJudged};
ghost use Rattle.site_core.specs.Equal.{same_request, same_transactions};

use messages::AuditOutcome;
use point_book::PointBook;
use std::alloc::AllocError;
use std::marker::Model;
use sweep_compiler::{AuditJob, Judged, Verdict};

/// The audit of a charge point (this system's own): the request to it, with the book that it had
/// then, and the verdict on its reply.
#[derive(Drop)]
pub struct PointAudit {
    /// The number of its call.
    pub(crate) number: u64,
    pub(crate) asked: AuditJob,
    /// None before the reply is judged.
    pub(crate) verdict: Option<Verdict>,
}

impl Model for PointAudit {
    ghost use Rattle.site_core.specs.Audit.{AuditState};

    ghost Value = { AuditState };

    ghost view = { λ a. record {
      number = a.number;
      asked = a.asked;
      verdict = a.verdict;
    } };
}

impl PointAudit {
    /// The number of its call.
    pub fn number(&self) -> u64
        ensures { result ≡ self.now.number }
    {
        self.number
    }

    /// Returns the request to the point, with the book that it had then.
    pub fn asked(&self) -> &AuditJob
        ensures { result.now ≡ self.now.asked }
    {
        &self.asked
    }

    /// Copies the audit that the machine keeps of a charge point: the comparison of the composite
    /// schedule that the point reports with its book. The copy shares the book.
    pub(crate) fn copy(&self) -> Result<PointAudit, AllocError>
        ensures { IfOk result (λ copy. copy ≡ self.now) }
    {
        Ok(PointAudit {
            number: self.number,
            asked: self.asked.share()?,
            verdict: self.verdict,
        })
    }

    /// Whether the judged audit is this one. Also shows that the verdict of any `Judged` is right
    /// for the audit that was judged.
    pub fn is_judged_by(&self, judged: &Judged) -> bool
        ensures same { result ≡ same_request self.now.asked judged.now.audit }
        ensures right { IsJudged judged.now.audit judged.now.verdict judged.now.short }
    {
        self.asked.same(judged.audit())
    }

    /// Returns the verdict to keep, if the point has this book now.
    pub fn kept_verdict(&self, now: &PointBook, verdict: Verdict) -> Verdict
        ensures { result ≡ kept_verdict self.now.asked.book now.now.transactions verdict }
    {
        match verdict {
            // A schedule depends on the transactions: once they have changed, comparing it with the
            // point's says nothing about the point.
            Verdict::Agrees | Verdict::Differs if !self.has_transactions_of(now) =>
                Verdict::Unsettled,
            _ => verdict,
        }
    }

    /// Whether the book that the machine kept when an audit began has the same transactions as the
    /// charge point's book now. Otherwise a verdict on the schedules becomes Unsettled.
    fn has_transactions_of(&self, now: &PointBook) -> bool
        ensures { result
            ≡ same_transactions self.now.asked.book.transactions now.now.transactions }
    {
        self.asked.book().same_transactions(now)
    }

    /// Returns the outcome of the audit, as a status reports it.
    pub fn outcome(&self) -> AuditOutcome
        ensures { result ≡ outcome_of_verdict self.now.verdict }
    {
        match self.verdict {
            None => AuditOutcome::Waiting,
            Some(Verdict::Agrees) => AuditOutcome::Agrees,
            Some(Verdict::Differs) => AuditOutcome::Differs,
            Some(Verdict::Rejected) => AuditOutcome::Rejected,
            Some(Verdict::Unsettled) => AuditOutcome::Unsettled,
        }
    }
}
