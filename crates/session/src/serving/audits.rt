//! A point's reply to an audit: finds the audit, and judges the reply.

ghost use Rattle.std.specs.Prelude.{◌≡◌, false, None, Ok, IfOk, IsTrue, OnOk};
ghost use Rattle.session.specs.Audit.{BringsVerdict, IsJudgedBy, IsVerdictNoted, MakesOrRefuses, audit_confirmed, audit_to_judge, reply_noted};
ghost use Rattle.site_core.specs.declared.reply.Reply.{Reply};
ghost use Rattle.site_core.specs.declared.step.Step.TheVariants as steps;
ghost use Rattle.version_store.specs.Calls.{Makes};

use crate::context::Context;
use crate::outcome::{Outcome, Performed};
use crate::serving::ended::{Ended, ended_unsaved};
use crate::serving::noting::note_made;
use crate::serving::reading::read_reply;
use ghost_list::ListName;
use journal::{Journal, Noted, UNREAD_REPLY, noted_steps_are_restored};
use meaning::Said;
use site_core::{PointId, Reply, Step, equal_books_are_one};
use std::alloc::{AllocError, Global};
use std::marker::Model;
use std::sync::ledger::Ledger;
use sweep_compiler::{AuditJob, Judged, verdicts_are_computed};
use texts::SentText;
use version_store::Book;
use world::World;

/// An audit that has no verdict yet.
#[derive(Drop)]
pub(crate) struct OpenAudit {
    point: PointId,
    /// The number of its call.
    call: u64,
    job: AuditJob,
}

impl Model for OpenAudit {
    ghost use Rattle.session.specs.Audit as audit;

    ghost Value = { audit.OpenAudit };

    ghost view = { λ a. record { point = a.point; call = a.call; asked = a.job } };
}

/// Returns a point's open audit (the check of the schedule that it reports), if this step of its
/// session confirms the audit's GetCompositeSchedule. Nothing is changed.
pub(crate) fn audit_confirmed<C: Ledger, A: Ledger, N: ListName>(
    alloc: Global,
    book: &Book<C, A, N>,
    step: &Step,
) -> Result<Option<OpenAudit>, AllocError>
    ensures audit { IfOk result (λ audit. audit ≡ audit_confirmed book.now.present step.now) }
    ensures certain { audit_confirmed book.now.present step.now ≡ None → result ≡ Ok None }
{
    let Step::Confirm { point, call, .. } = step else {
        return Ok(None);
    };
    match book.audit_job(point.as_str(), *call) {
        Ok(None) => Ok(None),
        Ok(Some(job)) => Ok(Some(OpenAudit {
            point: point.copy(alloc)?,
            call: *call,
            job,
        })),
        Err(_) => Err(AllocError),
    }
}

/// Returns a point's audit (the check of the schedule that it reports) for its session to judge, if
/// the point's reply confirmed the audit's call.
pub(crate) fn audit_to_judge(performed: &Performed, audit: Option<OpenAudit>) -> Option<OpenAudit>
    ensures { result ≡ audit_to_judge performed.now audit }
{
    match performed {
        Performed::Outcome(Outcome::Made(Reply::Confirmed)) => audit,
        _ => None,
    }
}

/// Judges, in a point's session, its reply to an audit (the check of the schedule that it reports)
/// whose call is confirmed. Keeps the verdict.
///
/// The book isn't locked while the reply is judged. It is locked once more to keep the verdict.
/// Other sessions may have changed it since the Confirm:
/// - A Start or a Stop at the point changed its transactions. Then Agrees or Differs becomes
///   Unsettled.
/// - An AuditPoint began another audit. Then the verdict is refused, as late.
/// - An Install or a Clear, or a new link, changes nothing: the book of the audit is kept.
/// - A Finish stopped the store. Then the verdict is refused.
///
/// A refused verdict is dropped, for lack of memory too: the audit then has none. The journal has
/// a line for the reply, at the Confirm, and one for the verdict, if it is kept. If memory ran out
/// for the reply, the latter has a reply that can't be read as a schedule. So a restore comes to
/// the same verdict. If the verdict can't be noted, the audit has none, and the session ends.
pub(crate) fn judge_reply<W: World>(
    context: &Context<'_, W>,
    sent: &SentText<'_>,
    audit: OpenAudit,
) -> Result<(), Ended>
    ensures { OnOk result (BringsVerdict sent.now audit) }
{
    // These calls make the laws available to the proof. They do nothing at run time.
    noted_steps_are_restored();
    equal_books_are_one();
    verdicts_are_computed();
    let OpenAudit { point, call, job } = audit;
    // `Judged` can hold only a right verdict, so the session needn't be trusted.
    let (judged, is_short) = judged_by(context, sent, job);
    let frame = reply_to_note(sent, is_short);
    let noted = Noted::Verdict { call, frame };
    let prepared = context
        .journal
        .prepare(sent.moment(), point.as_str(), noted);
    let entry = match prepared {
        Ok(entry) => entry,
        Err(fault) => return Err(ended_unsaved(fault)),
    };
    let mut book = context.shared.lock(context.rt);
    let before = book.recorded();
    let is_kept = bring_verdict(&mut book, point, call, judged);
    if let (true, Some(entry)) = (is_kept, entry) {
        note_made(context, &book, before, entry, call);
    }
    Ok(())
}

/// Returns a point's reply to its audit, as its session notes it in the journal's `verdict` line.
/// If memory ran out, this is an unreadable one.
fn reply_to_note<'s>(sent: &'s SentText<'_>, is_short: bool) -> &'s str
    ensures { result.now ≡ reply_noted is_short sent.now.frame }
{
    if is_short { UNREAD_REPLY } else { sent.frame() }
}

/// Keeps in the book a session's verdict on the audit of its point, by the number of the audit's
/// call. A verdict that the book refuses is dropped. Returns whether it is kept.
fn bring_verdict<C: Ledger, A: Ledger, N: ListName>(
    book: &mut Book<C, A, N>,
    point: PointId,
    call: u64,
    judged: Judged,
) -> bool
    ensures either { MakesOrRefuses book.old (steps.Judge point call judged) book.new }
    ensures made { IsTrue result
        → Makes book.old (steps.Judge point call judged) Reply.VerdictKept book.new }
    ensures dropped { result ≡ false → book.new ≡ book.old }
{
    match book.judge(point, call, judged) {
        Ok(()) => true,
        Err((_refusal, _judged)) => false,
    }
}

/// Judges, in a point's session, its reply to the GetCompositeSchedule of its audit. Returns the
/// verdict, and whether memory ran out for it. A reply that can't be read for lack of memory is
/// judged as unread.
fn judged_by<W: World>(
    context: &Context<'_, W>,
    sent: &SentText<'_>,
    job: AuditJob,
) -> (Judged, bool)
    ensures judged { IsJudgedBy sent.now job result.0 }
    ensures noted { IsVerdictNoted sent.now result.0 result.1 }
{
    match read_reply(context, sent) {
        Ok(said) => {
            let judged = Judged::make(context.alloc, job, said);
            let is_short = judged.short();
            (judged, is_short)
        }
        Err(AllocError) => (Judged::make(context.alloc, job, Said::Unread), true),
    }
}
