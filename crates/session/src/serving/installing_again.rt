//! Installs the profiles of a charge point again after it has booted, since it may have lost them.

ghost use Rattle.std.specs.Prelude.{IfSome};
ghost use Rattle.session.specs.Noting.{AsksFor, IsEntryToNote};
ghost use Rattle.session.specs.Perform.{IsOfText};
ghost use Rattle.session.specs.Serving.{KeepsPass};
ghost use Rattle.session.specs.Session.{sent_by};

use crate::context::Context;
use crate::serving::noting::{note_performed, prepare_message};
use crate::serving::reading::read_message;
use crate::serving::served_text::is_confirm;
use crate::session_core::SessionCore;
use crate::step::perform;
use journal::Entry;
use messages::{CallBody, push_payload};
use ocpp_scalars::{Instant, Moments};
use ocppj_frame::{push_call_head, push_frame_end};
use profile::{Purpose, Row, Unit};
use site_core::{Machine, ProfileState, Step};
use std::alloc::{AllocError, Global};
use texts::SentText;
use version_store::Pass;
use world::World;

/// The purposes in the order in which their profiles are installed again: what bounds the whole
/// point comes first.
const PURPOSES: [Purpose; 3] = [
    Purpose::ChargePointMaxProfile,
    Purpose::TxDefaultProfile,
    Purpose::TxProfile,
];

/// The id of the messages, by which people find them in the journal. No answer is read.
const MESSAGE_ID: &str = "after-boot";

/// A profile of a point, and the message that installs it again.
#[derive(Drop)]
struct Install {
    profile: i32,
    text: String,
}

/// Installs the profiles of a session's point again after it has booted, as an operator would: the
/// calls to it wait behind those that wait already. A profile is left out if it was replaced or
/// cleared meanwhile, or its call has no reply yet. Without memory, or room in the outbox, the
/// others stay as they are.
pub(crate) fn install_again<W: World>(
    context: &Context<'_, W>,
    core: &SessionCore,
    pass: &mut Pass<W::Changes, W::Answers>,
)
    ensures { KeepsPass pass.old pass.new }
{
    let point = core.point_id().as_str();
    let Some(now) = context.clock.now() else {
        return;
    };
    let Ok((unit, profiles)) = profiles_of(context, point) else {
        return;
    };
    // The central system itself installs them, as an operator of the point.
    let Ok(operator) = SessionCore::operator(context.alloc, point, None, unit) else {
        return;
    };
    for profile in profiles {
        install_one(context, &operator, pass, now, profile);
    }
}

/// Returns, for the session of a point that has booted, the site's unit and the ids of the profiles
/// to install again, in their order. Locks the book meanwhile.
fn profiles_of<W: World>(
    context: &Context<'_, W>,
    point: &str,
) -> Result<(Unit, Vec<i32>), AllocError> {
    let book = context.shared.lock(context.rt);
    profiles_in_order(context.alloc, book.present(), point)
}

/// Returns the site's unit, and the ids of this state's profiles that a session installs again
/// after its point has booted, in order.
// Apart from the lock: what a function does while it holds one is dear to prove.
fn profiles_in_order(
    alloc: Global,
    machine: &Machine,
    point: &str,
) -> Result<(Unit, Vec<i32>), AllocError> {
    let mut profiles = Vec::new(alloc);
    if let Some(book) = machine.book_of(point) {
        for purpose in PURPOSES {
            push_ids(&mut profiles, book.view().rows, purpose)?;
        }
    }
    Ok((machine.site().unit(), profiles))
}

/// Adds the ids of a point's profiles of this purpose to those that its session installs again
/// after a boot.
fn push_ids(profiles: &mut Vec<i32>, rows: &[Row], purpose: Purpose) -> Result<(), AllocError> {
    for row in rows {
        if row.profile.purpose == purpose {
            profiles.push(row.profile.id)?;
        }
    }
    Ok(())
}

/// Returns the message by which a session installs its point's profile of this id again after a
/// boot. There is none if the profile isn't installed, or its call has no reply yet. Locks the
/// book.
fn present_text<W: World>(
    context: &Context<'_, W>,
    point: &str,
    profile: i32,
) -> Result<Option<String>, AllocError> {
    let book = context.shared.lock(context.rt);
    install_text(context.alloc, book.present(), point, profile)
}

/// Returns the message by which a session installs its point's profile of this id again after a
/// boot. There is none if this state has no such profile, or its call has no reply yet.
fn install_text(
    alloc: Global,
    machine: &Machine,
    point: &str,
    profile: i32,
) -> Result<Option<String>, AllocError> {
    match row_of(machine, point, profile) {
        Some(row) => Ok(Some(text_of_row(alloc, row)?)),
        None => Ok(None),
    }
}

/// Returns the message by which a session installs this profile of its point again after a boot.
fn text_of_row(alloc: Global, row: &Row) -> Result<String, AllocError> {
    let body = CallBody::Set {
        connector: row.connector,
        profile: row.profile.copy()?,
    };
    let mut text = String::new(alloc);
    push_message(&mut text, &body)?;
    Ok(text)
}

/// Appends the message with which a session installs a profile of its point again after a boot, as
/// an operator's message would.
fn push_message(text: &mut String, body: &CallBody) -> Result<(), AllocError> {
    push_call_head(text, MESSAGE_ID, body.action())?;
    push_payload(text, body)?;
    push_frame_end(text)
}

/// Returns the installed profile of this id that a session installs again after its point has
/// booted. Returns none if the profile's call has no reply yet.
fn row_of<'a>(machine: &'a Machine, point: &str, profile: i32) -> Option<&'a Row> {
    let row = row_with_id(machine.book_of(point)?.view().rows, profile)?;
    match machine.profile_state_of(point, row) {
        ProfileState::Sent => None,
        ProfileState::Held | ProfileState::Unsure | ProfileState::Rejected => Some(row),
    }
}

/// Returns the profile of this id among a point's installed ones, for its session to install it
/// again after a boot.
fn row_with_id(rows: &[Row], profile: i32) -> Option<&Row> {
    for row in rows {
        if row.profile.id == profile {
            return Some(row);
        }
    }
    None
}

/// Installs a profile of a session's point again after a boot, if memory suffices and the journal
/// can note the step.
fn install_one<W: World>(
    context: &Context<'_, W>,
    operator: &SessionCore,
    pass: &mut Pass<W::Changes, W::Answers>,
    moment: Instant,
    profile: i32,
)
    ensures { KeepsPass pass.old pass.new }
{
    let text = present_text(context, operator.point_id().as_str(), profile);
    if let Ok(Some(text)) = text {
        let install = Install { profile, text };
        make_install(context, operator, pass, moment, &install);
    }
}

/// Makes the step of the message by which a session installs a profile again after a boot, if the
/// journal can note it.
fn make_install<W: World>(
    context: &Context<'_, W>,
    operator: &SessionCore,
    pass: &mut Pass<W::Changes, W::Answers>,
    moment: Instant,
    install: &Install,
)
    ensures { KeepsPass pass.old pass.new }
{
    let frame = install.text.as_str();
    let step = step_of_message(context, operator, moment, frame);
    let sent = SentText::new(moment, operator.side(), operator.point_id().as_str(), frame);
    let Ok(entry) = prepare_message(context, operator.sender(), &sent, &step) else {
        return;
    };
    if let Some(step) = step {
        perform_if_present(context, pass, step, entry, install);
    }
}

/// Returns the step of the message by which a session installs a profile again after a boot.
/// Returns none if memory runs out.
fn step_of_message<W: World>(
    context: &Context<'_, W>,
    operator: &SessionCore,
    moment: Instant,
    frame: &str,
) -> Option<Step>
    ensures asks { IfSome result (AsksFor (sent_by operator.now moment frame.now)) }
    ensures of_text { IfSome result IsOfText }
{
    match read_message(context, operator, moment, frame) {
        Ok(mut todo) => todo.take_step(),
        Err(_) => None,
    }
}

/// Makes the step by which a session installs a profile again after a boot, and notes it in the
/// journal. If the profile has changed since the message was made, does nothing: an operator's
/// change is newer. The book is locked from the comparison to the note.
fn perform_if_present<W: World>(
    context: &Context<'_, W>,
    pass: &mut Pass<W::Changes, W::Answers>,
    step: Step,
    entry: Option<Entry>,
    install: &Install,
)
    requires of_text { IsOfText step }
    requires entry { IfSome entry (IsEntryToNote step) }
    ensures { KeepsPass pass.old pass.new }
{
    let confirms = is_confirm(&step);
    let mut book = context.shared.lock(context.rt);
    if !is_present(context.alloc, book.present(), &step, install) {
        return;
    }
    let before = book.recorded();
    let performed = perform(&mut book, pass, step);
    note_performed(context, &book, before, entry, confirms, &performed);
}

/// Returns whether the message by which a session installs a profile again after a boot would be
/// the same in the present state.
fn is_present(alloc: Global, machine: &Machine, step: &Step, install: &Install) -> bool {
    let Step::Install { point, .. } = step else {
        return false;
    };
    match install_text(alloc, machine, point.as_str(), install.profile) {
        Ok(Some(text)) => text.as_str() == install.text.as_str(),
        Ok(None) | Err(AllocError) => false,
    }
}
