//! Functions on the kept requests: find one by its number, compile it, and hand out its answer.

ghost use Rattle.std.specs.Prelude.{◌≡◌, ◌≤◌, ◌==◌, length, Some, Ok, Err, true, is_some, MatchResult, IfOk, IfErr, option_map};
ghost use Rattle.site_core.specs.declared.reply.Reply.{Reply};
ghost use Rattle.std.specs.List.{position};
ghost use Rattle.site_core.specs.State.{Kept};
ghost use Rattle.site_core.specs.Requests.{request_of, stopped_request, all_stopped};
ghost use Rattle.site_core.specs.Step.{HasAskedConnector};
ghost use Rattle.site_core.specs.Post.{IsRefusedPost};
ghost use Rattle.site_core.specs.ByCases.Requests.{refusal_to_compile, IsCompiledIn, IsPostedIn, handed_out, compile_outlook, hand_out_outlook};

use crate::reply::Reply;
use crate::request::KeptRequest;
use meaning::{Ask, Composite};
use ocpp_scalars::Refusal;
use std::alloc::{AllocError, Global};
use sweep_compiler::{Compiled, Turns, compile};

/// Returns the `Ask` of the machine's kept request for a composite schedule of this number, and its
/// point's place in the site file.
pub(crate) fn request_asked(requests: &[KeptRequest], number: u64) -> Option<(usize, Ask)>
    ensures { result
        ≡ option_map (λ (kept : Kept). (kept.place, kept.ask)) (request_of number requests.now) }
{
    let Some(place) = place_of(requests, number) else {
        return None;
    };
    let request = &requests[place];
    Some((request.place, request.ask))
}

/// Returns the index of the request with this number among those for composite schedules that the
/// machine keeps.
fn place_of(requests: &[KeptRequest], number: u64) -> Option<usize>
    ensures { result ≡ position (λ (kept : Kept). kept.number == number) requests.now }
{
    requests.iter().position(|request| request.number == number)
}

/// Compiles the composite schedule of the machine's kept request with this number. The refusals are
/// `UnknownRequest` and `AlreadyAnswered`. If memory runs out, `OutOfMemory` is the request's
/// answer.
pub(crate) fn compile_request(
    alloc: Global,
    requests: &mut Vec<KeptRequest>,
    number: u64,
) -> Result<(), Refusal>
    ensures made { MatchResult result
        (λ _. IsCompiledIn number requests.old.items requests.new.items)
        (λ refusal.
        (refusal_to_compile (request_of number requests.old.items) ≡ Some refusal)
        × (requests.new.items ≡ requests.old.items)) }
    ensures many { length requests.new.items ≡ length requests.old.items }
{
    let Some(place) = place_of(requests, number) else {
        return Err(Refusal::UnknownRequest);
    };
    let request = &mut requests[place];
    if request.answer.is_some() {
        return Err(Refusal::AlreadyAnswered);
    }
    let answer = compile(alloc, request.book.book(), &request.ask, &mut Turns::new());
    request.answer = Some(answer);
    Ok(())
}

/// Answers the machine's kept request for a composite schedule with an answer compiled elsewhere,
/// and returns a second copy of it. The refusals are `UnknownRequest`, `AlreadyAnswered` and
/// `StrangerInput`; then the compiled answer comes back.
pub(crate) fn post_answer(
    requests: &mut Vec<KeptRequest>,
    number: u64,
    brought: Compiled,
) -> Result<Result<Composite, Refusal>, (Refusal, Compiled)>
    ensures posted { IfOk result (λ _.
        IsPostedIn number brought requests.old.items requests.new.items) }
    ensures again { IfOk result (λ again. again ≡ brought.answer) }
    ensures refused { IfErr result (λ refused.
        IsRefusedPost (request_of number requests.old.items) brought refused.0) }
    ensures kept { IfErr result (λ refused. requests.new.items ≡ requests.old.items) }
    ensures back { IfErr result (λ refused. refused.1 ≡ brought) }
    ensures many { length requests.new.items ≡ length requests.old.items }
{
    let Some(place) = place_of(requests, number) else {
        return Err((Refusal::UnknownRequest, brought));
    };
    let request = &mut requests[place];
    if let Err(refusal) = request.check_post(&brought) {
        return Err((refusal, brought));
    }
    let (posted, again) = brought.into_answers();
    request.answer = Some(posted);
    Ok(again)
}

/// Copies the requests for composite schedules that the machine keeps, sharing the books, for a
/// copy of the machine.
pub(crate) fn copy_of_requests(
    alloc: Global,
    requests: &[KeptRequest],
) -> Result<Vec<KeptRequest>, AllocError>
    ensures { IfOk result (λ copies. copies.items ≡ requests.now) }
{
    let mut copies = Vec::with_capacity(alloc, requests.len())?;
    for request in requests {
        copies.push(request.copy()?)?;
    }
    Ok(copies)
}

/// Hands out the answer to the machine's kept request for a composite schedule with this number,
/// and removes the request. Replies NotYet if it has no answer. The refusal is `UnknownRequest`.
pub(crate) fn hand_out(requests: &mut Vec<KeptRequest>, number: u64) -> Result<Reply, Refusal>
    ensures made { MatchResult result
        (λ reply. handed_out number requests.old.items ≡ Ok (reply, requests.new.items))
        (λ refusal.
        (handed_out number requests.old.items ≡ Err refusal)
        × (requests.new.items ≡ requests.old.items)) }
    ensures many { length requests.new.items ≤ length requests.old.items }
    ensures asked { IfOk result HasAskedConnector }
{
    let Some(place) = place_of(requests, number) else {
        return Err(Refusal::UnknownRequest);
    };
    if !is_answered(&requests[place]) {
        return Ok(Reply::NotYet);
    }
    let request = requests.remove(place);
    Ok(reply_of(request))
}

/// Whether a request for a composite schedule that the machine keeps has its answer.
fn is_answered(request: &KeptRequest) -> bool
    ensures { result ≡ is_some request.now.answer }
{
    request.answer.is_some()
}

/// Makes the machine's reply that hands out the answer to a request for a composite schedule, with
/// its book and `Ask`.
fn reply_of(request: KeptRequest) -> Reply
    requires { is_some request.answer ≡ true }
    ensures reply { Some result
        ≡ option_map (Reply.Answered request.book request.ask) request.answer }
    ensures asked { HasAskedConnector result }
{
    Reply::Answered {
        book: request.book,
        ask: request.ask,
        answer: request.answer.unwrap(),
    }
}

/// Answers by `Stopped` each request for a composite schedule that the machine keeps without an
/// answer, as the machine stops.
pub(crate) fn stop_all(requests: &mut Vec<KeptRequest>)
    ensures { requests.new.items ≡ all_stopped requests.old.items }
{
    for request in requests.iter_mut() {
        stop(request);
    }
}

/// Answers a request for a composite schedule that the machine keeps by `Stopped`, unless it has
/// its answer.
fn stop(request: &mut KeptRequest)
    ensures { request.new ≡ stopped_request request.old }
{
    if request.answer.is_none() {
        request.answer = Some(Err(Refusal::Stopped));
    }
}

/// Returns the outlook of the machine's step Compile for the kept request for a composite schedule
/// with this number: an event, or the refusal.
pub(crate) fn compile_outlook(requests: &[KeptRequest], number: u64) -> Result<bool, Refusal>
    ensures { result ≡ compile_outlook (request_of number requests.now) }
{
    let Some(place) = place_of(requests, number) else {
        return Err(Refusal::UnknownRequest);
    };
    if is_answered(&requests[place]) {
        return Err(Refusal::AlreadyAnswered);
    }
    Ok(true)
}

/// Returns the outlook of the machine's step Answer, which hands out the answer to a request for a
/// composite schedule: whether it has one, or the refusal.
pub(crate) fn hand_out_outlook(requests: &[KeptRequest], number: u64) -> Result<bool, Refusal>
    ensures { result ≡ hand_out_outlook (request_of number requests.now) }
{
    let Some(place) = place_of(requests, number) else {
        return Err(Refusal::UnknownRequest);
    };
    Ok(is_answered(&requests[place]))
}
