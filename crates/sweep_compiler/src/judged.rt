//! Audits with their verdicts.

ghost use Rattle.std.specs.Prelude.{◌≡◌, IfOk, IfSome, IfNone, OnErr, OnSome};
ghost use Rattle.meaning.specs.Said.{IsSaidSchedule};
ghost use Rattle.sweep_compiler.specs.Judged.{IsJudged, IsVerdictFor};
ghost use Rattle.sweep_compiler.specs.Verdict.{CanBeCompared, IsVerdict, IsVerdictOn, MayNeedMemory};

use crate::agreement::agree;
use crate::audit_job::AuditJob;
use crate::compiler::compile;
use crate::turns::Turns;
use crate::verdict::Verdict;
use meaning::{Ask, Composite, Said, SaidPeriods};
use ocpp_scalars::{Instant, Refusal};
use profile::Unit;
use std::alloc::{AllocError, Global};
use std::marker::Model;

/// An audit with its verdict: right for this audit and some reply that a point may give, or
/// Unsettled if memory ran out.
#[derive(Drop)]
pub struct Judged {
    // Private, so that only `make` pairs them: a reply is judged without the lock, and the session
    // that does so needn't be trusted.
    job: AuditJob,
    verdict: Verdict,
    short: bool,
}

impl Model for Judged {
    ghost use Rattle.sweep_compiler.specs.Judged.{Judgement, IsJudged};

    ghost Value = { Judgement };

    ghost view = { λ judged. record {
      audit = judged.job;
      verdict = judged.verdict;
      short = judged.short;
    } };

    ghost invariant = { λ judged. IsJudged judged.job judged.verdict judged.short };
}

impl Judged {
    /// Judges an audit by its point's reply. If memory runs out, the verdict is Unsettled and
    /// `short`.
    pub fn make(alloc: Global, job: AuditJob, said: Said) -> Judged
        ensures audit { result.audit ≡ job }
        ensures right { IsVerdictFor job said result.verdict result.short }
    {
        match verdict_of(alloc, &job, said) {
            Ok(verdict) => Judged {
                job,
                verdict,
                short: false,
            },
            Err(AllocError) => Judged {
                job,
                verdict: Verdict::Unsettled,
                short: true,
            },
        }
    }

    /// Returns the same value with another owner of its audit's book. Copies nothing.
    pub fn share(&self) -> Result<Judged, AllocError>
        ensures { IfOk result (λ judged. judged ≡ self.now) }
    {
        Ok(Judged {
            job: self.job.share()?,
            verdict: self.verdict,
            short: self.short,
        })
    }

    /// Returns the audit.
    pub fn audit(&self) -> &AuditJob
        ensures value { result.now ≡ self.now.audit }
        ensures right { IsJudged self.now.audit self.now.verdict self.now.short }
    {
        &self.job
    }

    /// Returns the verdict.
    pub fn verdict(&self) -> Verdict
        ensures { result ≡ self.now.verdict }
    {
        self.verdict
    }

    /// Whether the verdict is Unsettled only because memory ran out. Otherwise no failed allocation
    /// affected it.
    pub fn short(&self) -> bool
        ensures { result ≡ self.now.short }
    {
        self.short
    }
}

/// Returns an audit's verdict on a charge point's reply to GetCompositeSchedule: whether its
/// schedule agrees with the one that the schedule compiler makes of the point's book.
fn verdict_of(alloc: Global, job: &AuditJob, said: Said) -> Result<Verdict, AllocError>
    ensures verdict { IfOk result (λ verdict. IsVerdict job.now said verdict) }
    ensures short { OnErr result (MayNeedMemory job.now said) }
{
    match said {
        Said::Refused => Ok(Verdict::Rejected),
        Said::Unread => Ok(Verdict::Unsettled),
        Said::Schedule {
            start,
            duration,
            unit,
            periods,
        } => {
            let lasts = duration.unwrap_or(job.duration());
            match comparable(job, lasts, unit, periods) {
                Some(schedule) => compared(alloc, job, start, &schedule),
                None => Ok(Verdict::Unsettled),
            }
        }
    }
}

/// Returns the composite schedule that a charge point reports to an audit's GetCompositeSchedule,
/// if its periods make one in the requested unit. The schedule compiler's is compared with it.
fn comparable(job: &AuditJob, duration: u32, unit: Unit, periods: SaidPeriods) -> Option<Composite>
    ensures said { IfSome result
        (λ schedule. schedule ≡ record { duration = duration; periods = periods }) }
    ensures fits { OnSome result ((unit ≡ job.now.unit) × IsSaidSchedule duration periods) }
    ensures unfit { IfNone result (unit ≡ job.now.unit → ¬ IsSaidSchedule duration periods) }
{
    if !unit.is_same(job.unit()) {
        return None;
    }
    match Composite::from_said(duration, periods) {
        Ok(schedule) => Some(schedule),
        Err(_) => None,
    }
}

/// Returns an audit's verdict on the composite schedule that a charge point reports from a start
/// on, by comparison with the schedule compiler's.
fn compared(
    alloc: Global,
    job: &AuditJob,
    start: Instant,
    said: &Composite,
) -> Result<Verdict, AllocError>
    requires schedule { IsSaidSchedule said.now.duration said.now.periods }
    ensures verdict { IfOk result
        (λ verdict. IsVerdictOn job.now start job.now.unit said.now verdict) }
    ensures short { OnErr result (CanBeCompared job.now start job.now.unit said.now) }
{
    let Ok(ask) = Ask::try_new(job.connector(), start, job.duration()) else {
        return Ok(Verdict::Unsettled);
    };
    match compile(alloc, job.book(), &ask, &mut Turns::new()) {
        // By seconds and not by lists of periods: a point may split equal periods, or return a
        // shorter schedule.
        Ok(exact) if agree(&exact, start, said, start) => Ok(Verdict::Agrees),
        Ok(_) => Ok(Verdict::Differs),
        Err(Refusal::ResultTooLong) => Ok(Verdict::Unsettled),
        Err(_) => Err(AllocError),
    }
}
