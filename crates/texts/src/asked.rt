//! The request that a message makes: nothing, an answer without a step, a step, a boot, or the
//! confirmation of a call.

ghost use Rattle.std.specs.Prelude.{◌≡◌, None, Ok, IfOk, IfErr};
ghost use Rattle.ocppj_frame.specs.Frame.{message_in};
ghost use Rattle.ocppj_frame.specs.ByCases.Message.{message_of_text};
ghost use Rattle.ocppj_frame.specs.Payload.{tree_at};
ghost use Rattle.profile.specs.Parts.{profile_of_parts};
ghost use Rattle.messages.specs.Action.{action_of_kind};
ghost use Rattle.messages.specs.Said.{is_accepted_reply};
ghost use Rattle.texts.specs.Unread.{IsIdIn};
ghost use Rattle.texts.specs.Asked.{begin_of, take_of, remote_profile, wanted_by, wanted_by_making, wanted_by_reading, wanted_by_remote_start, call_numbered, asked_confirm, asked_of_reply, asked_of_message, asked_of, asked_with, asks_schedule, is_schedule_kind, hold_of, AsksByCall};

use crate::number::number_of;
use crate::sent_text::SentText;
use crate::unread::Unread;
use messages::{
    Action, ActionKind, CallFault, FixedAnswer, RemoteStartTransaction, Response, ScheduleRequest,
    Side, StartTransaction, is_accepted, read_fields,
};
use ocpp_scalars::{Instant, Refusal};
use ocppj_frame::{Frame, FrameFault, MessageId, Node, ReadingMemory, read_frame};
use profile::{Profile, ProfileParts, Row};
use site_core::{PointId, Step, Take};
use std::alloc::{AllocError, Global};
use transactions::Begin;

/// The answer to a CALL of an action that is unknown, or that its sender doesn't send.
const NOT_IMPLEMENTED: Response = Response::Error(CallFault::NotImplemented);

/// The request that a message makes.
#[derive(Drop)]
pub enum Asked {
    /// The message isn't answered.
    Nothing,
    /// The CALL of this id is answered without a step.
    Respond {
        id: MessageId,
        response: Response,
    },
    /// The CALL of this id, of an action of this kind, requests a step.
    Step {
        id: MessageId,
        kind: ActionKind,
        step: Step,
    },
    /// The CALL of this id, a BootNotification, says that this point has booted, at the moment of
    /// the message. Its answer has that moment, whatever becomes of the step.
    Boot {
        id: MessageId,
        point: PointId,
        moment: Instant,
    },
    /// The message is the point's reply to the call of this number; `accepted` says whether the
    /// point accepts that call.
    Confirm {
        point: PointId,
        call: u64,
        accepted: bool,
    },
}

/// A step that an action requests, or its answer.
#[derive(Drop)]
enum Wanted {
    Step(Step),
    /// The answer of an action without a step.
    Response(Response),
    /// A point has booted at a moment.
    Boot { point: PointId, moment: Instant },
}

/// Reads a message into `memory`, and returns its request. If memory runs out, the error has the id
/// of the CALL, if it was known by then.
#[tactic(auto, unfolding(crate::specs::Asked::asked_of))]
pub fn asked_of(
    alloc: Global,
    memory: &mut ReadingMemory,
    text: &SentText<'_>,
) -> Result<Asked, Unread>
    ensures asked { IfOk result (λ asked. asked ≡ asked_of text.now) }
    ensures by_call { IfOk result AsksByCall }
    ensures call { IfErr result (λ unread. IsIdIn (message_of_text text.now.frame) unread.call) }
{
    match read_frame(memory, text.frame()) {
        Ok(frame) => {
            let accepted = is_accepted(&frame);
            asked_of_message(alloc, text, frame, accepted)
        }
        Err(FrameFault::Formation { id }) => Ok(Asked::Respond {
            id,
            response: Response::Error(CallFault::FormationViolation),
        }),
        Err(FrameFault::Dropped) => Ok(Asked::Nothing),
        Err(FrameFault::OutOfMemory) => Err(Unread { call: None }),
    }
}

/// Reads a held message into `memory`, and returns its request as [`asked_of`] does, or `None` if
/// the message isn't a CALL of GetCompositeSchedule.
#[tactic(auto, unfolding(crate::specs::Asked::asked_of))]
pub fn hold_of(
    alloc: Global,
    memory: &mut ReadingMemory,
    text: &SentText<'_>,
) -> Result<Option<Asked>, Unread>
    ensures asked { IfOk result (λ asked. asked ≡ hold_of text.now) }
    ensures call { IfErr result (λ unread. IsIdIn (message_of_text text.now.frame) unread.call) }
{
    match read_frame(memory, text.frame()) {
        Ok(frame) => {
            if !asks_schedule(&frame) {
                return Ok(None);
            }
            let accepted = is_accepted(&frame);
            Ok(Some(asked_of_message(alloc, text, frame, accepted)?))
        }
        Err(FrameFault::Formation { .. } | FrameFault::Dropped) => Ok(None),
        Err(FrameFault::OutOfMemory) => Err(Unread { call: None }),
    }
}

/// Returns whether a message's frame is a CALL of GetCompositeSchedule, the only one that a `hold`
/// line of a script for `replay` may have.
fn asks_schedule(frame: &Frame<'_>) -> bool
    ensures { result ≡ asks_schedule (Ok (message_in frame.now)) }
{
    match frame {
        Frame::Call { action, .. } => is_schedule_kind(ActionKind::named(action.as_str())),
        Frame::Reply { .. } | Frame::Fault { .. } | Frame::Other => false,
    }
}

/// Returns whether an action is GetCompositeSchedule, the only one that a `hold` line of a script
/// for `replay` may have.
fn is_schedule_kind(kind: Option<ActionKind>) -> bool
    ensures { result ≡ is_schedule_kind kind }
{
    matches!(kind, Some(ActionKind::GetCompositeSchedule))
}

/// Returns the request that a message makes of the central system, from its frame: only a CALL is
/// answered, and a charge point's reply may confirm a call to it.
fn asked_of_message(
    alloc: Global,
    text: &SentText<'_>,
    frame: Frame<'_>,
    accepted: bool,
) -> Result<Asked, Unread>
    requires { accepted ≡ is_accepted_reply (message_in frame) }
    ensures asked { IfOk result
        (λ asked. asked ≡ asked_of_message text.now (Ok (message_in frame.entry))) }
    ensures call { IfErr result (λ unread. IsIdIn (Ok (message_in frame.entry)) unread.call) }
{
    match frame {
        Frame::Call {
            id,
            action,
            payload,
        } => {
            let Some(kind) = ActionKind::of_sender(text.sender(), action.as_str()) else {
                return Ok(Asked::Respond {
                    id,
                    response: NOT_IMPLEMENTED,
                });
            };
            match wanted_by_fields(alloc, text, kind, payload.root()) {
                Ok(wanted) => Ok(asked_with(id, kind, wanted)),
                Err(AllocError) => Err(Unread { call: Some(id) }),
            }
        }
        Frame::Reply { id, .. } => asked_of_reply(alloc, text, id.as_str(), accepted),
        // A CALLERROR confirms a call too: only the number of a reply decides that.
        Frame::Fault { id } => asked_of_reply(alloc, text, id.as_str(), accepted),
        Frame::Other => Ok(Asked::Nothing),
    }
}

/// Returns the request that a reply (CALLRESULT or CALLERROR) makes of the central system: that of
/// a charge point confirms the call of which it has the number as id.
fn asked_of_reply(
    alloc: Global,
    text: &SentText<'_>,
    id: &str,
    accepted: bool,
) -> Result<Asked, Unread>
    ensures asked { IfOk result
        (λ asked. asked ≡ asked_of_reply text.now.sender text.now.point id.now accepted) }
    ensures call { IfErr result (λ unread. unread.call ≡ None) }
{
    match text.sender() {
        // An operator is sent no calls that it could reply to.
        Side::Operator => Ok(Asked::Nothing),
        Side::Point => asked_confirm(alloc, text.point(), accepted, call_numbered(id)),
    }
}

/// Returns the request to confirm the call to a charge point of this number, which the point's
/// reply has as id, or nothing without a number.
fn asked_confirm(
    alloc: Global,
    point: &str,
    accepted: bool,
    call: Option<u64>,
) -> Result<Asked, Unread>
    ensures asked { IfOk result (λ asked. asked ≡ asked_confirm point.now accepted call) }
    ensures call { IfErr result (λ unread. unread.call ≡ None) }
{
    let Some(call) = call else {
        return Ok(Asked::Nothing);
    };
    match PointId::copied(alloc, point) {
        Ok(point) => Ok(Asked::Confirm {
            point,
            call,
            accepted,
        }),
        Err(AllocError) => Err(Unread { call: None }),
    }
}

/// Returns the number of the call to a charge point whose decimal text is the message id of the
/// point's reply.
fn call_numbered(id: &str) -> Option<u64>
    ensures { result ≡ call_numbered id.now }
{
    // Calls are counted from 0, and `number_of` reads the numbers from 1 on.
    if id == "0" { Some(0) } else { number_of(id) }
}

/// Returns the request that the CALL of this id makes of the central system, by the step, the
/// answer or the boot that its action leads to.
fn asked_with(id: MessageId, kind: ActionKind, wanted: Wanted) -> Asked
    ensures { result ≡ asked_with id kind wanted }
{
    match wanted {
        Wanted::Step(step) => Asked::Step { id, kind, step },
        Wanted::Response(response) => Asked::Respond { id, response },
        Wanted::Boot { point, moment } => Asked::Boot { id, point, moment },
    }
}

/// Reads the fields of a CALL's action. Returns the step of the machine that the message requests,
/// or its answer.
fn wanted_by_fields(
    alloc: Global,
    text: &SentText<'_>,
    kind: ActionKind,
    payload: Node<'_, '_>,
) -> Result<Wanted, AllocError>
    ensures { IfOk result (λ wanted. wanted
        ≡ wanted_by_reading text.now (action_of_kind kind (tree_at payload.entry))) }
{
    match read_fields(alloc, kind, payload) {
        Ok(action) => wanted_by(alloc, text, action),
        Err(CallFault::Refused(Refusal::OutOfMemory)) => Err(AllocError),
        Err(fault) => Ok(Wanted::Response(Response::Error(fault))),
    }
}

/// Returns the step of the machine that the action of an operator's or charge point's CALL
/// requests, or its answer.
fn wanted_by(alloc: Global, text: &SentText<'_>, action: Action) -> Result<Wanted, AllocError>
    ensures { IfOk result (λ wanted. wanted ≡ wanted_by text.now action) }
{
    let response = match action {
        Action::SetChargingProfile { connector, profile } => {
            return wanted_by_parts(alloc, text, connector, profile);
        }
        Action::ClearChargingProfile(criteria) => {
            let point = PointId::copied(alloc, text.point())?;
            return Ok(Wanted::Step(Step::Clear { point, criteria }));
        }
        Action::GetCompositeSchedule(request) => {
            return Ok(Wanted::Step(step_of_ask(alloc, text, &request)?));
        }
        Action::RemoteStartTransaction(start) => {
            return wanted_by_remote_start(alloc, text, start);
        }
        Action::StartTransaction(start) => {
            return Ok(Wanted::Step(step_of_start(alloc, text, start)?));
        }
        Action::StopTransaction(transaction) => {
            let point = PointId::copied(alloc, text.point())?;
            return Ok(Wanted::Step(Step::Stop { point, transaction }));
        }
        Action::AuditPoint {
            connector,
            duration,
        } => {
            return Ok(Wanted::Step(step_of_audit(alloc, text, connector, duration)?));
        }
        Action::PointStatus => {
            let point = PointId::copied(alloc, text.point())?;
            return Ok(Wanted::Step(Step::Status(point)));
        }
        Action::Answered(FixedAnswer::BootNotification) => {
            let (point, moment) = (PointId::copied(alloc, text.point())?, text.moment());
            return Ok(Wanted::Boot { point, moment });
        }
        Action::Answered(answer) => answer.response(text.moment()),
        Action::NotACall => NOT_IMPLEMENTED,
    };
    Ok(Wanted::Response(response))
}

/// Returns the step of the machine that an operator's GetCompositeSchedule message with these
/// fields requests: a Take.
fn step_of_ask(
    alloc: Global,
    text: &SentText<'_>,
    request: &ScheduleRequest,
) -> Result<Step, AllocError>
    ensures { IfOk result (λ step. step ≡ Step.Take (take_of text.now request.now)) }
{
    Ok(Step::Take(Take {
        point: PointId::copied(alloc, text.point())?,
        connector: request.connector,
        start: text.moment(),
        duration: request.duration,
        unit: request.unit,
        // The message doesn't say which version its sender saw last, so any will do.
        seen: 0,
    }))
}

/// Returns the step of the machine that an operator's AuditPoint message with these fields
/// requests: an audit of the point by GetCompositeSchedule.
fn step_of_audit(
    alloc: Global,
    text: &SentText<'_>,
    connector: u32,
    duration: u32,
) -> Result<Step, AllocError>
    ensures { IfOk result (λ step. step ≡ Step.Audit text.now.point connector duration) }
{
    Ok(Step::Audit {
        point: PointId::copied(alloc, text.point())?,
        connector,
        duration,
    })
}

/// Returns the step of the machine that a charge point's StartTransaction message with these fields
/// requests: a transaction begins.
fn step_of_start(
    alloc: Global,
    text: &SentText<'_>,
    start: StartTransaction,
) -> Result<Step, AllocError>
    ensures { IfOk result
        (λ step. step ≡ Step.Start text.now.point start.connector (begin_of start)) }
{
    Ok(Step::Start {
        point: PointId::copied(alloc, text.point())?,
        connector: start.connector,
        begin: Begin {
            id_tag: start.id_tag,
            meter_start: start.meter_start,
            timestamp: start.timestamp,
        },
    })
}

/// Returns the step of the machine that an operator's SetChargingProfile message requests, the
/// install of its profile, or the rejection if its fields make none.
fn wanted_by_parts(
    alloc: Global,
    text: &SentText<'_>,
    connector: u32,
    parts: ProfileParts,
) -> Result<Wanted, AllocError>
    ensures { IfOk result (λ wanted. wanted
        ≡ wanted_by_making text.now connector (profile_of_parts parts)) }
{
    match Profile::try_new(parts) {
        Ok(profile) => {
            let point = PointId::copied(alloc, text.point())?;
            let moment = text.moment();
            let row = Row {
                connector,
                moment,
                profile,
            };
            Ok(Wanted::Step(Step::Install { point, row }))
        }
        Err((refusal, _)) => Ok(Wanted::Response(Response::Rejected(refusal))),
    }
}

/// Returns the step of the machine that an operator's RemoteStartTransaction message requests, or
/// the rejection if its profile's fields make none.
fn wanted_by_remote_start(
    alloc: Global,
    text: &SentText<'_>,
    start: RemoteStartTransaction,
) -> Result<Wanted, AllocError>
    ensures { IfOk result (λ wanted. wanted
        ≡ wanted_by_remote_start text.now start (remote_profile start.profile)) }
{
    match remote_profile(start.profile) {
        Ok(profile) => Ok(Wanted::Step(Step::RemoteStart {
            point: PointId::copied(alloc, text.point())?,
            connector: start.connector,
            id_tag: start.id_tag,
            profile,
        })),
        Err(refusal) => Ok(Wanted::Response(Response::Rejected(refusal))),
    }
}

/// Returns the profile of an operator's RemoteStartTransaction message, if it has one, or the
/// refusal if its fields make none. The transactionId is dropped: the profile comes into force with
/// the transaction that the start begins.
fn remote_profile(parts: Option<ProfileParts>) -> Result<Option<Profile>, Refusal>
    ensures { result ≡ remote_profile parts }
{
    let Some(parts) = parts else {
        return Ok(None);
    };
    let mut parts = parts;
    parts.transaction = None;
    match Profile::try_new(parts) {
        Ok(profile) => Ok(Some(profile)),
        Err((refusal, _)) => Err(refusal),
    }
}
