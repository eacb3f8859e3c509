//! The restore of lines about replies: a call is confirmed, or an audit is judged.

ghost use Rattle.std.specs.Prelude.{◌≡◌, None, IfOk};
ghost use Rattle.site_core.specs.State.{audit_job};
ghost use Rattle.site_core.specs.declared.step.Step.TheVariants as steps;
ghost use Rattle.texts.specs.Asked.{asked_of};
ghost use Rattle.texts.specs.Said.{said_of};
ghost use Rattle.journal.specs.ByCases.Restore.{Leads, confirmed, judged};
ghost use Rattle.journal.specs.Restore.{judged_exactly, made_with};

use crate::restore_fault::RestoreFault;
use ghost_list::ListName;
use ocpp_scalars::Refusal;
use ocppj_frame::ReadingMemory;
use site_core::PointId;
use std::alloc::{AllocError, Global};
use std::sync::ledger::Ledger;
use sweep_compiler::{AuditJob, Judged, verdicts_are_computed};
use texts::{Asked, SentText, asked_of, said_of};
use version_store::Book;

/// The reply on a `verdict` line in place of one whose verdict was short of memory.
// That reply, read again, might lead to another verdict. This one leads to Unsettled, as it did.
pub const UNREAD_REPLY: &str = r#"[3,"",{"status":"Accepted"}]"#;

/// Restores a `reply` line of the journal: confirms the call that a point's reply names, over this
/// link.
pub(crate) fn confirm_call<C: Ledger, A: Ledger, N: ListName>(
    alloc: Global,
    memory: &mut ReadingMemory,
    book: &mut Book<C, A, N>,
    text: &SentText<'_>,
    link: u64,
) -> Result<(), RestoreFault>
    ensures { Leads (confirmed book.old.present link (asked_of text.now))
        book.old.present result book.new.present }
{
    match asked_of(alloc, memory, text) {
        Ok(
            Asked::Confirm {
                point,
                call,
                accepted,
            },
        ) => confirm(book, point, link, call, accepted),
        Ok(Asked::Nothing | Asked::Respond { .. } | Asked::Step { .. } | Asked::Boot { .. }) => {
            Err(RestoreFault::OtherStep)
        }
        Err(_unread) => Err(RestoreFault::OutOfMemory),
    }
}

/// Confirms a point's call again over this link, as a `reply` line of the journal says.
fn confirm<C: Ledger, A: Ledger, N: ListName>(
    book: &mut Book<C, A, N>,
    point: PointId,
    link: u64,
    call: u64,
    accepted: bool,
) -> Result<(), RestoreFault>
    ensures { Leads (made_with book.old.present None (steps.Confirm point link call accepted))
        book.old.present result book.new.present }
{
    match book.confirm(point, link, call, accepted) {
        Ok(()) => Ok(()),
        Err(refusal) => Err(RestoreFault::from(refusal)),
    }
}

/// Restores a `verdict` line of the journal: judges an audit again by the point's reply to the
/// GetCompositeSchedule of this number.
pub(crate) fn judge_audit<C: Ledger, A: Ledger, N: ListName>(
    alloc: Global,
    memory: &mut ReadingMemory,
    book: &mut Book<C, A, N>,
    text: &SentText<'_>,
    call: u64,
) -> Result<(), RestoreFault>
    ensures { Leads (judged book.old.present text.now.point call (said_of text.now)
        (audit_job book.old.present text.now.point call))
        book.old.present result book.new.present }
{
    match book.audit_job(text.point(), call) {
        Ok(Some(job)) => judge(alloc, memory, book, text, call, job),
        Ok(None) => Err(RestoreFault::Refused(Refusal::UnknownRequest)),
        Err(_memory) => Err(RestoreFault::OutOfMemory),
    }
}

/// Judges a point's reply to an audit's GetCompositeSchedule again, as a `verdict` line of the
/// journal says, and keeps the verdict in the book.
fn judge<C: Ledger, A: Ledger, N: ListName>(
    alloc: Global,
    memory: &mut ReadingMemory,
    book: &mut Book<C, A, N>,
    text: &SentText<'_>,
    call: u64,
    job: AuditJob,
) -> Result<(), RestoreFault>
    ensures { Leads (made_with book.old.present None
        (steps.Judge text.now.point call (judged_exactly job (said_of text.now))))
        book.old.present result book.new.present }
{
    let judged = judged_by(alloc, memory, text, job)?;
    let point = PointId::copied(alloc, text.point())?;
    match book.judge(point, call, judged) {
        Ok(()) => Ok(()),
        Err((refusal, _judged)) => Err(RestoreFault::from(refusal)),
    }
}

/// Returns the verdict on a point's reply to an audit's GetCompositeSchedule, read from a `verdict`
/// line of the journal. Fails if memory runs out.
fn judged_by(
    alloc: Global,
    memory: &mut ReadingMemory,
    text: &SentText<'_>,
    job: AuditJob,
) -> Result<Judged, AllocError>
    ensures { IfOk result (λ judged. judged ≡ judged_exactly job (said_of text.now)) }
{
    // This call makes the law available to the proof. It does nothing at run time.
    verdicts_are_computed();
    let said = said_of(alloc, memory, text)?;
    let judged = Judged::make(alloc, job, said);
    // A verdict that is short of memory may not be the one that was noted.
    if judged.short() {
        return Err(AllocError);
    }
    Ok(judged)
}
