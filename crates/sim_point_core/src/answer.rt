//! A charge point's answers to actions, and the changes in its book.

ghost use Rattle.std.specs.Prelude.{◌≡◌, ◌≤◌, None, Ok, IfOk, OnOk, OnErr, length, string_bytes};
ghost use Rattle.messages.specs.ResponseText.{response_text};
ghost use Rattle.profile.specs.Parts.{profile_of_parts};
ghost use Rattle.sim_point_core.specs.Answer.{row_made, place_refusal, row_refusal, installed_unless, cleared_if_any, is_other_unit, ask_at, schedule_of_ask, answered};

use crate::own_book::OwnBook;
use crate::request::NOT_IMPLEMENTED;
use meaning::{Ask, compile_plain, exact_schedules};
use messages::{Action, Response, ScheduleRequest, ScheduleResponse, write_response};
use ocpp_scalars::{Instant, Refusal};
use point_book::PointBook;
use profile::{Criteria, Profile, ProfileParts, Purpose, Row, Unit};
use std::alloc::{AllocError, Global};

/// The moment of an answer, and the unit of the limits of the point that answers.
#[derive(Clone, Copy)]
pub struct AnswerContext {
    pub alloc: Global,
    pub unit: Unit,
    pub now: Instant,
}

/// Performs an action, and returns the message that answers the CALL of this id. If memory runs
/// out, nothing changes.
pub fn answer_action(
    answering: AnswerContext,
    book: &mut OwnBook,
    id: &str,
    action: Action,
) -> Result<String, AllocError>
    ensures answer { IfOk result (λ text. string_bytes text ≡ response_text id.now
        (answered answering.unit book.old answering.now action).response) }
    ensures book { OnOk result (book.new
        ≡ (answered answering.unit book.old answering.now action).book) }
    ensures unchanged { OnErr result (book.new ≡ book.old) }
{
    let AnswerContext { alloc, now, .. } = answering;
    match action {
        Action::SetChargingProfile { connector, profile } => {
            match row_made(now, connector, profile) {
                Ok(row) => install(answering, book, id, row),
                Err(refusal) => write_response(alloc, id, &Response::Rejected(refusal)),
            }
        }
        Action::ClearChargingProfile(criteria) => clear(alloc, book, id, &criteria),
        Action::GetCompositeSchedule(request) => {
            let response = compose(answering, book.book(), &request)?;
            write_response(alloc, id, &response)
        }
        _ => write_response(alloc, id, &NOT_IMPLEMENTED),
    }
}

/// Returns a row (a charging profile at a connector) for the SetChargingProfile that a simulated
/// point receives at this time, or its refusal.
fn row_made(now: Instant, connector: u32, parts: ProfileParts) -> Result<Row, Refusal>
    ensures { result ≡ row_made now connector (profile_of_parts parts) }
{
    match Profile::try_new(parts) {
        Ok(profile) => Ok(Row {
            connector,
            moment: now,
            profile,
        }),
        Err((refusal, _)) => Err(refusal),
    }
}

/// Installs a charging profile in a simulated point's book (chapter 5.16). Returns the answer to
/// its SetChargingProfile.
fn install(
    answering: AnswerContext,
    book: &mut OwnBook,
    id: &str,
    row: Row,
) -> Result<String, AllocError>
    ensures answer { IfOk result (λ text. string_bytes text ≡ response_text id.now
        (installed_unless book.old row (row_refusal answering.unit book.old row)).response) }
    ensures book { OnOk result (book.new
        ≡ (installed_unless book.old row (row_refusal answering.unit book.old row)).book) }
    ensures unchanged { OnErr result (book.new ≡ book.old) }
{
    let AnswerContext { alloc, unit, .. } = answering;
    if let Some(refusal) = row_refusal(unit, book.book(), &row) {
        return write_response(alloc, id, &Response::Rejected(refusal));
    }
    // The message comes first: once the profile is installed, nothing can fail.
    let text = write_response(alloc, id, &Response::Accepted)?;
    match book.install(row) {
        Ok(()) => Ok(text),
        Err(_) => Err(AllocError),
    }
}

/// Returns why a simulated point refuses a row, a charging profile at a connector, apart from a
/// lack of memory.
fn row_refusal(unit: Unit, book: &PointBook, row: &Row) -> Option<Refusal>
    ensures refusal { result ≡ row_refusal unit book.now row.now }
    ensures has_connector { result ≡ None → row.now.connector ≤ length book.now.ceilings }
{
    if let Some(refusal) = place_refusal(unit, book, row) {
        return Some(refusal);
    }
    book.install_refusal(row)
}

/// Returns why a charging profile isn't allowed at its connector of a simulated point, or in its
/// unit.
fn place_refusal(unit: Unit, book: &PointBook, row: &Row) -> Option<Refusal>
    ensures refusal { result ≡ place_refusal unit book.now row.now }
    ensures has_connector { result ≡ None → row.now.connector ≤ length book.now.ceilings }
{
    if row.connector > book.connectors() {
        return Some(Refusal::UnknownConnector);
    }
    match row.profile.purpose {
        Purpose::ChargePointMaxProfile if row.connector > 0 => Some(Refusal::MaxNotAtZero),
        Purpose::TxProfile if row.connector == 0 => Some(Refusal::TxAtZero),
        _ if !row.profile.schedule.unit.is_same(unit) => Some(Refusal::WrongUnit),
        _ => None,
    }
}

/// Clears charging profiles in a simulated point's book (chapter 5.5). Returns the answer to its
/// ClearChargingProfile.
fn clear(
    alloc: Global,
    book: &mut OwnBook,
    id: &str,
    criteria: &Criteria,
) -> Result<String, AllocError>
    ensures answer { IfOk result (λ text. string_bytes text ≡ response_text id.now
        (cleared_if_any book.old criteria.now).response) }
    ensures book { OnOk result (book.new ≡ (cleared_if_any book.old criteria.now).book) }
    ensures unchanged { OnErr result (book.new ≡ book.old) }
{
    if !book.book().has_match(criteria) {
        return write_response(alloc, id, &Response::Unknown);
    }
    // The message comes first, since clearing can't be undone.
    let text = write_response(alloc, id, &Response::Accepted)?;
    book.clear(criteria);
    Ok(text)
}

/// Composes the schedule of a simulated point's profiles for GetCompositeSchedule (chapter 5.7), or
/// returns the refusal.
fn compose(
    answering: AnswerContext,
    book: &PointBook,
    request: &ScheduleRequest,
) -> Result<Response, AllocError>
    ensures { IfOk result (λ response. response ≡ schedule_of_ask answering.unit book.now
        (ask_at answering.unit book.now answering.now request.now)) }
{
    let AnswerContext {
        alloc,
        unit,
        now,
        ..
    } = answering;
    match ask_at(unit, book, now, request) {
        Ok(ask) => compile(alloc, unit, book, ask),
        Err(refusal) => Ok(Response::Rejected(refusal)),
    }
}

/// Returns the request for a composite schedule that a GetCompositeSchedule makes of a simulated
/// point, from the present time on, or its refusal.
fn ask_at(
    unit: Unit,
    book: &PointBook,
    now: Instant,
    request: &ScheduleRequest,
) -> Result<Ask, Refusal>
    ensures ask { result ≡ ask_at unit book.now now request.now }
    ensures has_connector { IfOk result (λ ask. ask.connector ≤ length book.now.ceilings) }
{
    if request.connector > book.connectors() {
        return Err(Refusal::UnknownConnector);
    }
    if is_other_unit(request.unit, unit) {
        return Err(Refusal::WrongUnit);
    }
    Ask::try_new(request.connector, now, request.duration)
}

/// Returns whether a GetCompositeSchedule asks for a unit other than that of the simulated point's
/// limits.
fn is_other_unit(asked: Option<Unit>, unit: Unit) -> bool
    ensures { result ≡ is_other_unit asked unit }
{
    match asked {
        Some(asked) => !asked.is_same(unit),
        None => false,
    }
}

/// Returns the exact composite schedule of a request to a simulated point, or that it is too long.
fn compile(alloc: Global, unit: Unit, book: &PointBook, ask: Ask) -> Result<Response, AllocError>
    requires has_connector { ask.connector ≤ length book.now.ceilings }
    ensures { IfOk result (λ response. response ≡ schedule_of_ask unit book.now (Ok ask)) }
{
    // States the law that a compiler's answer is the exact one; it does nothing at run time.
    exact_schedules();
    match compile_plain(alloc, &book.view(), &ask) {
        Ok(schedule) => Ok(Response::Schedule(ScheduleResponse {
            connector: ask.connector,
            start: ask.start,
            unit,
            schedule,
        })),
        Err(Refusal::OutOfMemory) => Err(AllocError),
        Err(refusal) => Ok(Response::Rejected(refusal)),
    }
}
