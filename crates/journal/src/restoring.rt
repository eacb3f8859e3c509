//! The restore of a line of a journal: the book's own call makes its step again, and the number
//! that this draws is compared with the written one.

ghost use Rattle.std.specs.Prelude.{◌≡◌, Ok, Some, true, IfErr, IfOk};
ghost use Rattle.texts.specs.Asked.{asked_of};
ghost use Rattle.journal.specs.ByCases.Restore.{Leads, changed};
ghost use Rattle.journal.specs.Restore.{IsFaultOf, KeepsPass, change_asked, is_change, made_with, restored};

use crate::drawn_number::{compare, number_drawn};
use crate::line::{Line, Noted};
use crate::restore_fault::RestoreFault;
use crate::restored_links::{attach, lose, send};
use crate::restored_replies::{confirm_call, judge_audit};
use ghost_list::ListName;
use messages::Side;
use ocppj_frame::ReadingMemory;
use site_core::Step;
use std::alloc::Global;
use std::sync::ledger::Ledger;
use texts::{Asked, SentText, asked_of};
use version_store::{Book, Pass};

/// Makes the step of a line of the journal again, if it can be made and draws the written number.
/// After an error the step wasn't made, except after `OtherNumber`.
#[tactic(auto, unfolding(crate::specs::Restore::restored))]
pub(crate) fn restore_line<C: Ledger, A: Ledger, N: ListName>(
    alloc: Global,
    memory: &mut ReadingMemory,
    book: &mut Book<C, A, N>,
    pass: &mut Pass<C, A>,
    line: &Line<'_>,
) -> Result<(), RestoreFault>
    ensures leads { Leads (restored book.old.present line.now)
        book.old.present result book.new.present }
    ensures pass { KeepsPass pass.old pass.new }
{
    // Only calls of the book make steps, so the laws of histories hold whatever the file has.
    match line.noted {
        Noted::Message {
            sender,
            number,
            frame,
        } => {
            let text = SentText::new(line.moment, sender.side(), line.point, frame);
            change(alloc, memory, book, pass, &text, number)
        }
        Noted::Reply { link, frame } => {
            let text = SentText::new(line.moment, Side::Point, line.point, frame);
            confirm_call(alloc, memory, book, &text, link)
        }
        Noted::Verdict { call, frame } => {
            let text = SentText::new(line.moment, Side::Point, line.point, frame);
            judge_audit(alloc, memory, book, &text, call)
        }
        Noted::Attached { link } => attach(alloc, book, pass, line.point, link),
        Noted::Sent { link, call } => send(alloc, book, line.point, link, call),
        Noted::Lost { link } => lose(alloc, book, line.point, link),
    }
}

// ---- messages

/// Restores an `operator` or `point` line of the journal: makes the change that its message
/// requests. It has to draw this number.
fn change<C: Ledger, A: Ledger, N: ListName>(
    alloc: Global,
    memory: &mut ReadingMemory,
    book: &mut Book<C, A, N>,
    pass: &mut Pass<C, A>,
    text: &SentText<'_>,
    number: u64,
) -> Result<(), RestoreFault>
    ensures leads { Leads (changed book.old.present number (asked_of text.now))
        book.old.present result book.new.present }
    ensures pass { KeepsPass pass.old pass.new }
{
    match change_asked(alloc, memory, text) {
        Ok(step) => make_change(book, pass, step, number),
        Err(fault) => Err(fault),
    }
}

/// Returns the step to restore that the message in a line of the journal requests, or a fault if it
/// requests no change.
fn change_asked(
    alloc: Global,
    memory: &mut ReadingMemory,
    text: &SentText<'_>,
) -> Result<Step, RestoreFault>
    ensures step { IfOk result (λ step. change_asked (asked_of text.now) ≡ Ok step) }
    ensures change { IfOk result (λ step. is_change step ≡ true) }
    ensures fault { IfErr result (IsFaultOf (change_asked (asked_of text.now))) }
{
    match asked_of(alloc, memory, text) {
        Ok(Asked::Step { step, .. }) => {
            if is_change(&step) {
                Ok(step)
            } else {
                Err(RestoreFault::OtherStep)
            }
        }
        Ok(Asked::Boot { point, moment, .. }) => Ok(Step::Boot { point, moment }),
        Ok(Asked::Nothing | Asked::Respond { .. } | Asked::Confirm { .. }) => {
            Err(RestoreFault::OtherStep)
        }
        Err(_unread) => Err(RestoreFault::OutOfMemory),
    }
}

/// Returns whether a step changes a point's book, requests something of the point or says that it
/// has booted, and so is noted in the journal with its message.
pub(crate) fn is_change(step: &Step) -> bool
    ensures { result ≡ is_change step.now }
{
    match step {
        Step::Install { .. }
        | Step::Clear { .. }
        | Step::Start { .. }
        | Step::Stop { .. }
        | Step::Audit { .. }
        | Step::RemoteStart { .. }
        | Step::Boot { .. } => true,
        Step::Take(_)
        | Step::Compile(_)
        | Step::Answer(_)
        | Step::Finish
        | Step::Attach(_)
        | Step::Send { .. }
        | Step::Confirm { .. }
        | Step::Lost { .. }
        | Step::Judge { .. }
        | Step::Status(_) => false,
    }
}

/// Restores the change that a line of the journal has: makes its step on the book again. The step
/// has to draw this number.
fn make_change<C: Ledger, A: Ledger, N: ListName>(
    book: &mut Book<C, A, N>,
    pass: &mut Pass<C, A>,
    step: Step,
    number: u64,
) -> Result<(), RestoreFault>
    requires { is_change step ≡ true }
    ensures leads { Leads (made_with book.old.present (Some number) step)
        book.old.present result book.new.present }
    ensures pass { KeepsPass pass.old pass.new }
{
    match book.make_step(pass, step) {
        // Compared only now, since the step itself draws the number.
        Ok(reply) => compare(number, number_drawn(&reply, book.version())),
        Err(refused) => Err(RestoreFault::from(refused.refusal)),
    }
}
