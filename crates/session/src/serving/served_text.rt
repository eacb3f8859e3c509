//! Serves one message of a session: its step, its answer, and the call after a point's message.

ghost use Rattle.std.specs.Prelude.{◌≡◌, ◌↔◌, IsTrue, IfErr, IfOk, IfSome, option_map, string_bytes};
ghost use Rattle.ocpp_scalars.specs.declared.refusal.Refusal.{Refusal};
ghost use Rattle.session.specs.Noting.{IsEntryFor, IsEntryToNote, is_confirm};
ghost use Rattle.session.specs.Perform.{IsOfText};
ghost use Rattle.session.specs.Served.{HasOutcome, IsOutcomeOf, IsOutcomeOfJob, IsPerformed, IsServed, IsUnmade, seen_at};
ghost use Rattle.session.specs.Serving.{KeepsPass};
ghost use Rattle.session.specs.Session.{sent_by};
ghost use Rattle.site_core.specs.Right.{IsRight};
ghost use Rattle.version_store.specs.Recording.{IsAt};

use crate::context::Context;
use crate::outcome::{Outcome, Performed};
use crate::serving::audits::{OpenAudit, audit_confirmed, audit_to_judge, judge_reply};
use crate::serving::calls::send_call;
use crate::serving::ended::{Ended, ended_unsaved};
use crate::serving::installing_again::install_again;
use crate::serving::noting::{note_performed, prepare_message};
use crate::serving::reading::read_message;
use crate::serving::received::{Incoming, Received, SessionEvent};
use crate::serving::session_events::{event_of, subject_of};
use crate::serving::session_socket::SessionSocket;
use crate::serving::sockets::{clear_to_leave, send_text};
use crate::serving::waiting::{Sending, Waiting};
use crate::session_core::SessionCore;
use crate::step::perform;
use crate::todo::Todo;
use compile_pool::{answer_job, answer_unmade, collect_answer, wait_answer};
use ghost_list::ListName;
use journal::{Entry, Journal, JournalFault};
use meaning::Ask;
use ocpp_scalars::{Instant, Moments, Refusal};
use site_core::Step;
use texts::SentText;
use version_store::{Answer, Job, Pass, RecordedStates};
use world::World;

/// Waits for the next WebSocket message, and serves it if it is a text message. Returns `Nothing`
/// if the read times out. An error ends the session. The client of a watched socket may be gone
/// before the answer is there: then none is sent. With `installs_again`, a point's profiles are
/// installed again before its BootNotification is answered.
pub fn answer_next<W: World, S: SessionSocket>(
    context: &Context<'_, W>,
    socket: &mut S,
    core: &SessionCore,
    pass: &mut Pass<W::Changes, W::Answers>,
    installs_again: bool,
) -> Result<Received, Ended>
    ensures { KeepsPass pass.old pass.new }
{
    match socket.next()? {
        Incoming::Text(text) => {
            answer_text(context, socket, core, pass, text.as_str(), installs_again)
        }
        Incoming::Binary => Ok(Received::Message {
            event: SessionEvent::Other,
            sent: None,
        }),
        Incoming::Control(bytes) => Ok(Received::Control { bytes }),
        Incoming::Nothing => Ok(Received::Nothing),
    }
}

/// Serves a text message of a session: makes its step, sends its answer, and then the point's next
/// call.
fn answer_text<W: World, S: SessionSocket>(
    context: &Context<'_, W>,
    socket: &mut S,
    core: &SessionCore,
    pass: &mut Pass<W::Changes, W::Answers>,
    text: &str,
    installs_again: bool,
) -> Result<Received, Ended>
    ensures { KeepsPass pass.old pass.new }
{
    let Some(now) = context.clock.now() else {
        return Err(Ended::Broken);
    };
    let Served {
        answer,
        event,
        seen,
    } = answer_message(context, socket, core, pass, now, text)?;
    if installs_again && matches!(event, SessionEvent::Boot) {
        install_again(context, core, pass);
        // These lines are kept before the answer leaves: a point that has it doesn't boot again.
        if let Err(fault) = context.journal.write_out() {
            return Err(ended_unsaved(fault));
        }
    }
    socket.still_there()?;
    if let Some(answer) = &answer {
        let cleared = clear_to_leave(context.journal, answer.as_str(), &seen)?;
        send_text(context.alloc, socket.websocket(), cleared)?;
    }
    // Only now: a call that was taken before the answer left would be in flight and never sent if
    // the answer failed.
    let sent = send_call(context, socket.websocket(), core, now)?;
    Ok(Received::Message { event, sent })
}

/// The results of a message.
#[derive(Drop)]
pub struct Served<N: ListName> {
    /// The message that answers it, if one does.
    pub answer: Option<String>,
    /// The event in it.
    pub event: SessionEvent,
    /// The states of the book recorded up to its step, if it has one.
    pub seen: Option<RecordedStates<N>>,
}

/// Makes the step of a message of this session that comes at this moment, if it has one, and
/// returns the message that answers it. A request for a schedule gets the schedule that is right
/// for its arguments and for the point's profiles when this very request was taken. The answer to
/// another request is never handed on: it ends the session. A step that can't be noted isn't made:
/// the message is answered with `OutOfMemory`.
pub fn answer_message<W: World, Q: Waiting>(
    context: &Context<'_, W>,
    waiting: &mut Q,
    core: &SessionCore,
    pass: &mut Pass<W::Changes, W::Answers>,
    moment: Instant,
    frame: &str,
) -> Result<Served<W::Name>, Ended>
    ensures pass { KeepsPass pass.old pass.new }
    ensures served { IfOk result (λ served. IsServed core.now pass.old
        (seen_at W.Name.is_recorded served.seen)
        (sent_by core.now moment frame.now) (option_map string_bytes served.answer)) }
{
    let Ok(mut todo) = read_message(context, core, moment, frame) else {
        return Err(Ended::OutOfMemory);
    };
    let sent = SentText::new(moment, core.side(), core.point_id().as_str(), frame);
    let step = todo.take_step();
    let subject = subject_of(&todo, &step);
    let entry = match prepare_message(context, core.sender(), &sent, &step) {
        Ok(entry) => entry,
        Err(fault) => return served_unmade(core, todo, fault),
    };
    let (outcome, seen) = outcome_of(context, waiting, pass, &sent, step, entry)?;
    let event = event_of(context.alloc, frame, subject, &outcome);
    let is_short = matches!(outcome, Some(Outcome::Refused(Refusal::OutOfMemory)));
    let Ok(answer) = core.answer(todo, outcome) else {
        return Err(Ended::OutOfMemory);
    };
    // A reply has no answer that could report it. The end of the session queues its call again.
    if is_short && answer.is_none() {
        return Err(Ended::OutOfMemory);
    }
    Ok(Served {
        answer,
        event,
        seen,
    })
}

/// Returns a session's answer to a message whose step isn't made because the journal can't note it:
/// a CALL is answered with `OutOfMemory`. A reply has no answer, so the session ends, and its call
/// goes out again over the point's next link.
fn served_unmade<N: ListName>(
    core: &SessionCore,
    todo: Todo,
    fault: JournalFault,
) -> Result<Served<N>, Ended>
    ensures { IfOk result
        (λ served. IsUnmade core.now todo.owed (option_map string_bytes served.answer)) }
{
    let Some(unnoted) = todo.into_unnoted() else {
        return Err(ended_unsaved(fault));
    };
    match core.answer(unnoted, None) {
        Ok(answer) => Ok(Served {
            answer,
            event: SessionEvent::Other,
            seen: None,
        }),
        Err(_) => Err(Ended::OutOfMemory),
    }
}

/// Makes the step of a session's message on the book, if it has one. Returns its outcome, and the
/// states of the book recorded by then.
fn outcome_of<W: World, Q: Waiting>(
    context: &Context<'_, W>,
    waiting: &mut Q,
    pass: &mut Pass<W::Changes, W::Answers>,
    sent: &SentText<'_>,
    step: Option<Step>,
    entry: Option<Entry>,
) -> Result<(Option<Outcome>, Option<RecordedStates<W::Name>>), Ended>
    requires of_text { IfSome step IsOfText }
    requires entry { IsEntryFor step entry }
    ensures pass { KeepsPass pass.old pass.new }
    ensures outcome { IfOk result (λ made. HasOutcome pass.old (seen_at W.Name.is_recorded made.1)
        sent.now step made.0) }
{
    match step {
        Some(step) => {
            let (outcome, seen) = outcome_of_step(context, waiting, pass, sent, step, entry)?;
            Ok((Some(outcome), Some(seen)))
        }
        None => Ok((None, None)),
    }
}

/// Makes the step of a session's message on the book. A request for a schedule is compiled, and its
/// answer collected. A reply to an audit of the point is judged, once the call of the audit is
/// confirmed.
fn outcome_of_step<W: World, Q: Waiting>(
    context: &Context<'_, W>,
    waiting: &mut Q,
    pass: &mut Pass<W::Changes, W::Answers>,
    sent: &SentText<'_>,
    step: Step,
    entry: Option<Entry>,
) -> Result<(Outcome, RecordedStates<W::Name>), Ended>
    requires of_text { IsOfText step }
    requires entry { IfSome entry (IsEntryToNote step) }
    ensures pass { KeepsPass pass.old pass.new }
    ensures outcome { IfOk result (λ made.
        IsOutcomeOf pass.old (IsAt W.Name.is_recorded made.1) sent.now step made.0) }
{
    let (performed, audit, seen) = perform_noted(context, pass, step, entry)?;
    if let Some(audit) = audit_to_judge(&performed, audit) {
        judge_reply(context, sent, audit)?;
    }
    match performed {
        Performed::Job(job) => {
            let outcome = answer_of(context, waiting, pass, job)?;
            Ok((outcome, seen))
        }
        Performed::Outcome(outcome) => Ok((outcome, seen)),
    }
}

/// Makes the step of a session's message by one call on the shared book, and then notes it in the
/// journal, if it changed something. For a reply to an audit of the point, the audit is read first.
/// The lock is held in between, so it is the audit whose call is confirmed. If there is no memory
/// for it, the call isn't confirmed, nothing is noted, and the session ends.
fn perform_noted<W: World>(
    context: &Context<'_, W>,
    pass: &mut Pass<W::Changes, W::Answers>,
    step: Step,
    entry: Option<Entry>,
) -> Result<(Performed, Option<OpenAudit>, RecordedStates<W::Name>), Ended>
    requires of_text { IsOfText step }
    requires entry { IfSome entry (IsEntryToNote step) }
    ensures pass { KeepsPass pass.old pass.new }
    ensures performed { IfOk result (λ performed. IsPerformed pass.old
        (IsAt W.Name.is_recorded performed.2) step performed.0 performed.1) }
{
    let confirms = is_confirm(&step);
    let mut book = context.shared.lock(context.rt);
    let Ok(audit) = audit_confirmed(context.alloc, &book, &step) else {
        return Err(Ended::OutOfMemory);
    };
    let before = book.recorded();
    let performed = perform(&mut book, pass, step);
    note_performed(context, &book, before, entry, confirms, &performed);
    let seen = book.recorded();
    drop(book);
    Ok((performed, audit, seen))
}

/// Returns whether the step of a session's message is a Confirm: the point's reply to its call.
pub(crate) fn is_confirm(step: &Step) -> bool
    ensures { result ≡ is_confirm step.now }
{
    matches!(step, Step::Confirm { .. })
}

/// Returns the outcome of a session's request for a schedule, whose answer a worker compiles or the
/// session itself. No contract of the lock says that the collected answer has the book and the
/// `Ask` of this request, so they are compared.
fn answer_of<W: World, Q: Waiting>(
    context: &Context<'_, W>,
    waiting: &mut Q,
    pass: &mut Pass<W::Changes, W::Answers>,
    job: Job,
) -> Result<Outcome, Ended>
    ensures pass { KeepsPass pass.old pass.new }
    ensures outcome { IfOk result (IsOutcomeOfJob job) }
{
    let (book, ask) = (job.share_book(), *job.ask());
    let answer = match compile_and_collect(context, waiting, pass, job) {
        Ok(answer) => answer,
        Err(refusal) => return Ok(Outcome::Refused(refusal)),
    };
    let Ok(book) = book else {
        return Ok(Outcome::Refused(Refusal::OutOfMemory));
    };
    // If equal numbers alone tied the answer to the request, a body that hands out the schedule of
    // another session would be proved too.
    if book.same(answer.book()) && is_same(&ask, answer.ask()) {
        Ok(Outcome::Answered(answer))
    } else {
        Err(Ended::Broken)
    }
}

/// Has a session's schedule request compiled by a worker, or compiles it, and collects its answer.
/// If too many jobs wait, or the client leaves first, it posts an answer without a schedule. Then
/// no worker starts the job any more.
fn compile_and_collect<W: World, Q: Waiting>(
    context: &Context<'_, W>,
    waiting: &mut Q,
    pass: &mut Pass<W::Changes, W::Answers>,
    job: Job,
) -> Result<Answer, Refusal>
    ensures numbered { IfOk result (λ answer. answer.number ≡ job.number) }
    ensures right { IfOk result (λ answer. IsRight answer.book answer.ask answer.answer) }
    ensures refusal { IfErr result (λ refusal. refusal ≡ Refusal.UnknownRequest) }
    ensures pass { KeepsPass pass.old pass.new }
{
    let (rt, shared) = (context.rt, context.shared);
    let (number, book, ask) = (job.number(), job.share_book(), *job.ask());
    match waiting.send_job(rt, context.jobs, job) {
        Sending::Own(job) => answer_job(rt, context.alloc, shared, job),
        Sending::NoRoom(job) => {
            let (number, book, ask) = job.into_parts();
            answer_unmade(rt, shared, number, book, ask);
        }
        Sending::Sent => match (waiting.until_answered(rt, shared, number), book) {
            (Some(mut answered), _) => return collect_answer(&mut answered, pass, number),
            (None, Ok(book)) => answer_unmade(rt, shared, number, book, ask),
            (None, Err(_)) => {}
        },
    }
    wait_answer(rt, shared, pass, number)
}

/// Returns whether a session's schedule request and the collected answer are for the same
/// connector, start and duration.
fn is_same(one: &Ask, other: &Ask) -> bool
    ensures { IsTrue result ↔ (one.now ≡ other.now) }
{
    one.connector == other.connector && one.start == other.start && one.duration == other.duration
}
