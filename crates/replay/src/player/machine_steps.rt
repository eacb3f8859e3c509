//! Steps of the central system's machine, among them those for a point's link and its calls.

ghost use Rattle.std.specs.Prelude.{◌≡◌, IsTrue, IfOk, OnOk};
ghost use Rattle.replay.specs.MachineSteps.{stepped_exactly, handed_out, stepped_at_once, attached_once, call_sent, sent_first, confirmed_by, judged_exactly, verdict_kept};
ghost use Rattle.site_core.specs.declared.step.Step.TheVariants as steps;
ghost use Rattle.replay.specs.ByCases.MachineSteps.{ComesOf, IsAsked, is_memory, LeadsTo, MayBeSkimmed};

use crate::player::most_periods::most_periods;
use crate::player::wanted::NeededResult;
use meaning::{Ask, MAX_COMPOSITE_PERIODS, Said, exact_schedules};
use messages::Call;
use ocpp_scalars::Refusal;
use site_core::{Machine, PointId, Reply, Step, Take, skipped_sends_send_nothing};
use std::alloc::{AllocError, Global};
use sweep_compiler::{AuditJob, Judged, verdicts_are_computed};

/// The outcome of a step: its reply, or its refusal.
pub type StepOutcome = Result<Reply, Refusal>;

/// Makes a step that a message requests.
pub fn step_exactly(machine: &mut Machine, step: Step) -> Result<StepOutcome, AllocError>
    requires { IsAsked step }
    ensures { IfOk result (λ outcome. stepped_exactly machine.old step
        ≡ record { outcome = outcome; after = machine.new }) }
{
    make_step(machine, step)
}

/// Makes a step that a message requests. If it takes a request, compiles and answers that at once.
pub fn step_at_once(machine: &mut Machine, step: Step) -> Result<StepOutcome, AllocError>
    requires { IsAsked step }
    ensures { IfOk result (λ outcome. stepped_at_once machine.old step
        ≡ record { outcome = outcome; after = machine.new }) }
{
    match step_exactly(machine, step)? {
        Ok(Reply::Taken { number, .. }) => hand_out(machine, number),
        outcome => Ok(outcome),
    }
}

/// Makes a Take and answers its request at once, as far as its answer is wanted.
pub fn skim_take(
    machine: &mut Machine,
    take: Take,
    wanted: NeededResult,
) -> Result<StepOutcome, AllocError>
    ensures { IfOk result (λ outcome.
        LeadsTo (stepped_at_once machine.old (steps.Take take)) outcome machine.new) }
{
    // The request is removed again at once, so its answer makes no difference to the state: a
    // request of one second leads to the same state.
    if makes_no_difference(machine, &take, wanted) {
        let outcome = step_at_once(machine, Step::Take(first_second(take)))?;
        return Ok(outcome);
    }
    let outcome = step_at_once(machine, Step::Take(take))?;
    Ok(outcome)
}

/// Returns whether the answer to a schedule request in a replayed script makes no difference: no
/// other request is kept, and its reader (`show`, `check`, `explain` or `call`) wants nothing of
/// the answer.
fn makes_no_difference(machine: &Machine, take: &Take, wanted: NeededResult) -> bool
    ensures { IsTrue result → MayBeSkimmed machine.now take.now }
{
    if machine.open_requests() > 0 {
        return false;
    }
    let Ok(ask) = Ask::try_new(take.connector, take.start, take.duration) else {
        return false;
    };
    let Ok(_second) = Ask::try_new(take.connector, take.start, 1) else {
        return false;
    };
    is_unwanted(machine, take.point.as_str(), &ask, wanted)
}

/// Returns whether the reader of a replayed script (`show`, `check`, `explain` or `call`) wants
/// nothing of the answer to a schedule request. Its refusal is known without it if the schedule
/// can't exceed the limit of periods.
fn is_unwanted(machine: &Machine, point: &str, ask: &Ask, wanted: NeededResult) -> bool {
    match (wanted, machine.book_of(point)) {
        (NeededResult::State, _) => true,
        (NeededResult::Refusal, Some(book)) => {
            most_periods(&book.view(), ask) <= MAX_COMPOSITE_PERIODS as u64
        }
        (NeededResult::Refusal, None) => false,
    }
}

/// Returns a schedule request (a Take) of a replayed script cut to its first second: quick to
/// compile when `show`, `check`, `explain` or `call` doesn't want the answer.
fn first_second(take: Take) -> Take
    ensures { result ≡ record take { duration = 1 } }
{
    Take {
        point: take.point,
        connector: take.connector,
        start: take.start,
        duration: 1,
        unit: take.unit,
        seen: take.seen,
    }
}

/// Compiles and answers the request of a number.
pub fn hand_out(machine: &mut Machine, number: u64) -> Result<StepOutcome, AllocError>
    ensures { IfOk result (λ outcome. handed_out machine.old number
        ≡ record { outcome = outcome; after = machine.new }) }
{
    // This call makes the law available to the proof. It does nothing at run time.
    exact_schedules();
    // If it can't be compiled, the outcome of the Answer says why.
    let _ = make_step(machine, Step::Compile(number))?;
    let outcome = make_step(machine, Step::Answer(number))?;
    // The Compile was made even so, with this as its answer, which a script doesn't print.
    if is_memory(&outcome) {
        return Err(AllocError);
    }
    Ok(outcome)
}

/// Gives a point a link if it has none.
pub fn attach_once(alloc: Global, machine: &mut Machine, point: &str) -> Result<(), AllocError>
    ensures { OnOk result (machine.new ≡ attached_once machine.old point.now) }
{
    match machine.link_of(point) {
        Some(_) => Ok(()),
        None => {
            let point = PointId::copied(alloc, point)?;
            let _ = step_exactly(machine, Step::Attach(point))?;
            Ok(())
        }
    }
}

/// Sends the first waiting call of a point over its link. Returns that call, if one goes out.
pub fn send_first(
    alloc: Global,
    machine: &mut Machine,
    point: &str,
) -> Result<Option<Call>, AllocError>
    ensures { IfOk result (λ call. sent_first machine.old point.now
        ≡ record { call = call; after = machine.new }) }
{
    // This call makes the law available to the proof. It does nothing at run time.
    skipped_sends_send_nothing();
    // Mostly nothing is to be sent, and then no step is made.
    match machine.link_to_send(point) {
        Some(link) => {
            let point = PointId::copied(alloc, point)?;
            let outcome = step_exactly(machine, Step::Send { point, link })?;
            Ok(call_sent(outcome))
        }
        None => Ok(None),
    }
}

/// Returns the call to a point that went out by a Send step with this outcome, as a script is
/// replayed, if one went out.
fn call_sent(outcome: StepOutcome) -> Option<Call>
    ensures { result ≡ call_sent outcome }
{
    match outcome {
        Ok(Reply::Sent(call)) => Some(call),
        _ => None,
    }
}

/// Confirms the call of a number to a point over its link. If that call isn't in flight, nothing
/// changes.
pub fn confirm_call(
    machine: &mut Machine,
    point: PointId,
    call: u64,
    accepted: bool,
) -> Result<StepOutcome, AllocError>
    ensures { IfOk result (λ outcome. confirmed_by machine.old point call accepted
        ≡ record { outcome = outcome; after = machine.new }) }
{
    let Some(link) = machine.link_of(point.as_str()) else {
        return Ok(Err(Refusal::NothingInFlight));
    };
    let step = Step::Confirm {
        point,
        link,
        call,
        accepted,
    };
    step_exactly(machine, step)
}

/// Judges an audit by its point's reply. Fails if memory runs out.
pub fn judge_exactly(alloc: Global, job: AuditJob, said: Said) -> Result<Judged, AllocError>
    ensures { IfOk result (λ judged. judged ≡ judged_exactly job said) }
{
    // This call makes the law available to the proof. It does nothing at run time.
    verdicts_are_computed();
    let judged = Judged::make(alloc, job, said);
    // A verdict that is short of memory is Unsettled only for that reason, so it isn't kept.
    if judged.short() {
        return Err(AllocError);
    }
    Ok(judged)
}

/// Keeps a verdict on the audit of a point whose call has this number. If that audit already has
/// one, or isn't the point's last one any more, nothing changes.
pub fn keep_verdict(
    machine: &mut Machine,
    point: PointId,
    call: u64,
    judged: Judged,
) -> Result<(), AllocError>
    ensures { OnOk result (machine.new ≡ verdict_kept machine.old point call judged) }
{
    let step = Step::Judge {
        point,
        call,
        judged,
    };
    let _ = step_exactly(machine, step)?;
    Ok(())
}

/// Makes a step of a replayed script on the central system's machine, and returns its reply or its
/// refusal. Fails if memory runs out.
fn make_step(machine: &mut Machine, step: Step) -> Result<StepOutcome, AllocError>
    ensures { IfOk result (λ outcome. ComesOf machine.old step outcome machine.new) }
{
    match machine.step(step) {
        Ok(reply) => Ok(Ok(reply)),
        Err(refused) => match refused.refusal {
            // Ends the replay: otherwise the output would depend on the computer's memory.
            Refusal::OutOfMemory => Err(AllocError),
            refusal => Ok(Err(refusal)),
        },
    }
}

/// Returns whether memory ran out while the schedule of a replayed script's request was compiled.
fn is_memory(outcome: &StepOutcome) -> bool
    ensures { result ≡ is_memory outcome.now }
{
    match outcome {
        Ok(Reply::Answered { answer, .. }) => matches!(answer, Err(Refusal::OutOfMemory)),
        _ => false,
    }
}
