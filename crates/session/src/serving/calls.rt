//! The link of a point's session, and the calls that go out over it (OCPP-J 1.6, chapter 4).

ghost use Rattle.std.specs.Prelude.{◌≡◌, IfOk, IfSome, string_bytes};
ghost use Rattle.messages.specs.CallText.{action_name, call_text};
ghost use Rattle.session.specs.Leaving.{IsSentCall};
ghost use Rattle.session.specs.Serving.{KeepsPass};

use crate::context::Context;
use crate::serving::ended::{Ended, ended_unsaved};
use crate::serving::noting::{note_made, prepare_link};
use crate::serving::received::SentCall;
use crate::serving::sockets::{clear_to_leave, send_text};
use crate::session_core::{Peer, SessionCore};
use journal::{Journal, Noted, noted_steps_are_restored};
use messages::{Call, push_call};
use ocpp_scalars::{Instant, Refusal};
use site_core::PointId;
use std::alloc::{AllocError, Global};
use std::io::{Read, Write};
use tungstenite::{MaskKeys, WebSocket};
use version_store::{Pass, RecordedStates};
use world::World;

/// Gives a point's session its link, before its first message, and notes it. Without a link the
/// session ends.
pub fn claim_link<W: World>(
    context: &Context<'_, W>,
    core: &mut SessionCore,
    pass: &mut Pass<W::Changes, W::Answers>,
) -> Result<(), Ended>
    ensures { KeepsPass pass.old pass.new }
{
    if let Peer::Operator { .. } = core.peer() {
        return Ok(());
    }
    // The entry is complete except for the number of the link: no line is built under the lock.
    let noted = Noted::Attached { link: 0 };
    let entry = match prepare_link(context, core.point_id().as_str(), noted) {
        Ok(entry) => entry,
        Err(fault) => return Err(ended_unsaved(fault)),
    };
    let Ok(point) = core.point_id().copy(context.alloc) else {
        return Err(Ended::OutOfMemory);
    };
    // This call makes the law available to the proof. It does nothing at run time.
    noted_steps_are_restored();
    let mut book = context.shared.lock(context.rt);
    let before = book.recorded();
    let attached = book.attach(pass, point);
    if let (Ok(link), Some(entry)) = (&attached, entry) {
        note_made(context, &book, before, entry, *link);
    }
    drop(book);
    match attached {
        Ok(link) => {
            core.attached(link);
            Ok(())
        }
        Err(Refusal::OutOfMemory) => Err(Ended::OutOfMemory),
        Err(_) => Err(Ended::Closed),
    }
}

/// Sends the call that waits for a point over its link, if one waits and none is in flight. Returns
/// the call that was sent.
pub fn send_call<W: World, S: Read + Write + Drop, K: MaskKeys + Drop>(
    context: &Context<'_, W>,
    socket: &mut WebSocket<S, K>,
    core: &SessionCore,
    moment: Instant,
) -> Result<Option<SentCall>, Ended> {
    let Peer::Point { link: Some(link) } = core.peer() else {
        return Ok(None);
    };
    // Most often there is nothing to send, or the point has a later link, and then no journal entry
    // has to be made.
    let book = context.shared.lock(context.rt);
    let link_to_send = book.link_to_send(core.point_id().as_str());
    drop(book);
    if link_to_send != Some(link) {
        return Ok(None);
    }
    let Some((call, seen)) = next_call(context, core.point_id(), link, moment)? else {
        return Ok(None);
    };
    let Ok(text) = text_of_call(context.alloc, &call) else {
        return Err(Ended::OutOfMemory);
    };
    let seen = Some(seen);
    // A call waits for the journal as an answer does. If the Confirm before it were lost in a
    // crash, a restart would send the confirmed call again, after this one.
    let cleared = clear_to_leave(context.journal, text.as_str(), &seen)?;
    send_text(context.alloc, socket, cleared)?;
    Ok(Some(SentCall {
        number: call.number,
        action: call.body.kind(),
    }))
}

/// Makes the first waiting call to a session's point the one in flight, and notes that in the
/// journal. Returns the call, and the states of the book recorded by then. Returns none if no call
/// is to be sent any more, or if the point has a later link by now.
fn next_call<W: World>(
    context: &Context<'_, W>,
    point: &PointId,
    link: u64,
    moment: Instant,
) -> Result<Option<(Call, RecordedStates<W::Name>)>, Ended>
    ensures { IfOk result (λ next. IfSome next
        (λ sent. IsSentCall W.Name.is_recorded point.now link sent.0 sent.1)) }
{
    let noted = Noted::Sent { link, call: 0 };
    let entry = match context.journal.prepare(moment, point.as_str(), noted) {
        Ok(entry) => entry,
        Err(fault) => return Err(ended_unsaved(fault)),
    };
    let Ok(point) = point.copy(context.alloc) else {
        return Err(Ended::OutOfMemory);
    };
    // This call makes the law available to the proof. It does nothing at run time.
    noted_steps_are_restored();
    let mut book = context.shared.lock(context.rt);
    let before = book.recorded();
    let call = book.send(point, link);
    if let (Ok(Some(call)), Some(entry)) = (&call, entry) {
        note_made(context, &book, before, entry, call.number);
    }
    let seen = book.recorded();
    drop(book);
    match call {
        Ok(Some(call)) => Ok(Some((call, seen))),
        Ok(None) => Ok(None),
        Err(Refusal::OutOfMemory) => Err(Ended::OutOfMemory),
        Err(_) => Ok(None),
    }
}

/// Returns the text of the frame of a call that a session sends to its charge point.
fn text_of_call(alloc: Global, call: &Call) -> Result<String, AllocError>
    ensures { IfOk result (λ text. string_bytes text ≡ call_text call.now) }
{
    let mut text = String::with_capacity(alloc, 128)?;
    push_call(&mut text, call)?;
    Ok(text)
}

/// Loses the link of a point's session, and notes that in the journal: a call in flight over it
/// waits again. If the book refuses, nothing happens: the point has a later link. If the loss can't
/// be noted, the point keeps the link until it has a later one.
pub(crate) fn lose<W: World>(context: &Context<'_, W>, core: SessionCore) {
    let Peer::Point { link: Some(link) } = core.peer() else {
        return;
    };
    let noted = Noted::Lost { link };
    let Ok(entry) = prepare_link(context, core.point_id().as_str(), noted) else {
        return;
    };
    // This call makes the law available to the proof. It does nothing at run time.
    noted_steps_are_restored();
    let mut book = context.shared.lock(context.rt);
    let before = book.recorded();
    let lost = book.lost(core.into_point_id(), link);
    if let (Ok(()), Some(entry)) = (lost, entry) {
        note_made(context, &book, before, entry, 0);
    }
}
