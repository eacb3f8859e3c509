//! The journal entries of a session's steps: of those that change something.

ghost use Rattle.std.specs.Prelude.{◌≡◌, IfOk, IfSome};
ghost use Rattle.journal.specs.Line.{noted_state, sender_state, side_of_sender};
ghost use Rattle.journal.specs.MadeStep.{IsOfMadeStep};
ghost use Rattle.session.specs.declared.outcome.Outcome.{Outcome};
ghost use Rattle.session.specs.declared.outcome.Performed.{Performed};
ghost use Rattle.version_store.specs.Recording.{IsAt};
ghost use Rattle.session.specs.Noting.{AsksFor, IsEntryAt, IsEntryFor, IsNotable, IsPresent};

use crate::context::Context;
use crate::outcome::{Outcome, Performed};
use journal::{
    Entry, Journal, JournalFault, Noted, Sender, noted_by, noted_steps_are_restored, number_drawn,
};
use ocpp_scalars::{Instant, Moments};
use site_core::{Reply, Step};
use texts::SentText;
use version_store::{Book, RecordedStates};
use world::World;

/// Makes the journal's entry for a session's message from this sender, if its step may change
/// something. A request for a schedule or a status changes nothing, so it has no entry.
pub(crate) fn prepare_message<W: World>(
    context: &Context<'_, W>,
    sender: Sender<'_>,
    sent: &SentText<'_>,
    step: &Option<Step>,
) -> Result<Option<Entry>, JournalFault>
    requires asks { IfSome step.now (AsksFor sent.now) }
    requires side { side_of_sender (sender_state sender) ≡ sent.now.sender }
    ensures { IfOk result (IsEntryFor step.now) }
{
    let Some(step) = step else {
        return Ok(None);
    };
    let Some(noted) = noted_by(step, sender, sent.frame()) else {
        return Ok(None);
    };
    context.journal.prepare(sent.moment(), sent.point(), noted)
}

/// Makes the journal's entry for a change of the link of a point's session: it is attached or lost.
pub(crate) fn prepare_link<W: World>(
    context: &Context<'_, W>,
    point: &str,
    noted: Noted<'_>,
) -> Result<Option<Entry>, JournalFault>
    ensures { IfOk result (λ entry. IfSome entry (IsEntryAt point.now (noted_state noted.entry))) }
{
    // Moments in the journal are never compared, so without a clock any moment will do.
    let Some(moment) = context.clock.now().or(Instant::try_new(0)) else {
        unreachable!()
    };
    context.journal.prepare(moment, point, noted)
}

/// Notes the step of a session's message in the journal, if it was made and changed something. The
/// caller has held the lock of the book since before the step.
pub(crate) fn note_performed<W: World>(
    context: &Context<'_, W>,
    book: &Book<W::Changes, W::Answers, W::Name>,
    before: RecordedStates<W::Name>,
    entry: Option<Entry>,
    confirms: bool,
    performed: &Performed,
)
    requires { IfSome entry
        (λ e. IsNotable e confirms performed.now (IsAt W.Name.is_recorded before) book.now) }
{
    // This call makes the law available to the proof. It does nothing at run time.
    noted_steps_are_restored();
    let (Some(entry), Some(reply)) = (entry, reply_made(performed)) else {
        return;
    };
    if confirms {
        note_made(context, book, before, entry, 0);
    } else if let Some(number) = number_drawn(reply, book.version()) {
        note_made(context, book, before, entry, number);
    }
}

/// Notes in the journal a session's step that led to the present state of the book. `before` is the
/// record of the book's states that ends with the one before the step.
pub(crate) fn note_made<W: World>(
    context: &Context<'_, W>,
    book: &Book<W::Changes, W::Answers, W::Name>,
    before: RecordedStates<W::Name>,
    entry: Entry,
    number: u64,
)
    requires { IsOfMadeStep entry number (IsAt W.Name.is_recorded before) (IsPresent book.now) }
{
    context
        .journal
        .note(entry, number, &before, &book.recorded());
}

/// Returns the reply of the step of a session's message, if the step was made on the book.
fn reply_made(performed: &Performed) -> Option<&Reply>
    ensures { IfSome result (λ reply. performed.now ≡ Performed.Outcome (Outcome.Made reply.now)) }
{
    match performed {
        Performed::Outcome(Outcome::Made(reply)) => Some(reply),
        _ => None,
    }
}
