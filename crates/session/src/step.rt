//! A step of a session, made on the book.

ghost use Rattle.std.specs.Prelude.{◌≡◌};
ghost use Rattle.site_core.specs.declared.step.Step.TheVariants as steps;
ghost use Rattle.session.specs.declared.outcome.Outcome.{Outcome};
ghost use Rattle.session.specs.declared.outcome.Performed.{Performed};
ghost use Rattle.session.specs.Perform.{IsOfText, Performs};
ghost use Rattle.session.specs.Serving.{KeepsPass};

use crate::outcome::{Outcome, Performed};
use ghost_list::ListName;
use ocpp_scalars::Refusal;
use site_core::{Reply, Step, Take};
use std::sync::ledger::Ledger;
use version_store::{Book, Pass};

/// Makes a message's step by one call on the book. A request for a schedule has seen the changes
/// that its session has, whatever the step names.
pub fn perform<C: Ledger, A: Ledger, N: ListName>(
    book: &mut Book<C, A, N>,
    pass: &mut Pass<C, A>,
    step: Step,
) -> Performed
    requires { IsOfText step }
    ensures performs { Performs book.old pass.old step result book.new pass.new }
    ensures pass { KeepsPass pass.old pass.new }
{
    match step {
        Step::Take(take) => perform_take(book, pass, take),
        Step::Confirm {
            point,
            link,
            call,
            accepted,
        } => match book.confirm(point, link, call, accepted) {
            Ok(()) => made(Reply::Confirmed),
            Err(refusal) => refused(refusal),
        },
        step => match book.make_step(pass, step) {
            Ok(reply) => made(reply),
            Err(refused_step) => refused(refused_step.refusal),
        },
    }
}

/// Keeps a session's request for a schedule on the book. The request has seen the changes that its
/// session has.
fn perform_take<C: Ledger, A: Ledger, N: ListName>(
    book: &mut Book<C, A, N>,
    pass: &mut Pass<C, A>,
    take: Take,
) -> Performed
    ensures performs { Performs book.old pass.old (steps.Take take) result book.new pass.new }
    ensures pass { KeepsPass pass.old pass.new }
{
    let Take {
        point,
        connector,
        start,
        duration,
        unit,
        ..
    } = take;
    match book.take(pass, point, connector, start, duration, unit) {
        Ok(job) => Performed::Job(job),
        Err(refusal) => refused(refusal),
    }
}

/// Returns the outcome of a session's step that was made on the book, with its reply.
fn made(reply: Reply) -> Performed
    ensures { result ≡ Performed.Outcome (Outcome.Made reply) }
{
    Performed::Outcome(Outcome::Made(reply))
}

/// Returns the outcome of a session's step that the book refused.
fn refused(refusal: Refusal) -> Performed
    ensures { result ≡ Performed.Outcome (Outcome.Refused refusal) }
{
    Performed::Outcome(Outcome::Refused(refusal))
}
