//! A session's calls on a book while memory is refused: `tests/program.py` refuses each allocation
//! of these tests in turn. The clauses of `Book` say that a refused call changes nothing; here it
//! has its outcome when it is made again.

ghost use Rattle.std.specs.Prelude.{◌≡◌};

use crate::played::{opening, parts_of, site, step};
use crate::same::{holds, same, same_said};
use ocpp_scalars::Refusal;
use site_core::Step;
use std::alloc::Global;
use std::marker::Brand;
use std::process::Abort;
use std::sync::ledger::{Blank, Ledger};
use step_words::{Desk, Said, judging};

/// Steps of each kind. The audit's call is 1 and the remote start's 2. A transaction begins with
/// the profile of its remote start, and a request is held while a default is cleared.
const STORY: &str = "\
CP1 attach = Attached 1
CP1 send 1 = Sent 0
CP1 confirm 1 0 = Confirmed
CP1 audit 1 60 = Audited 1
CP1 send 1 = Sent 1
CP1 confirm 1 1 = Confirmed
CP1 judge 1 160 = VerdictKept
CP1 status = Agrees 0
CP1 remote ann 1 id=5 purpose=TxProfile kind=Relative periods=0:60 = Called 2
CP1 send 1 = Sent 2
CP1 confirm 1 2 = Confirmed
CP1 start ann 1 10 = Started 1
CP1 install id=2 start=0 periods=0:100 = Accepted
CP1 take 1 10 10 = Taken 1
CP1 clear id=5 = Accepted
- answer 1 = NotYet
- compile 1 = Compiled
- answer 1 = limit 60
CP1 take 1 20 60 = Taken 2
CP1 stop 1 = Ended
- compile 2 = Compiled
- answer 2 = limit 100
- answer 1 = UnknownRequest
CP1 boot 30 = Booted 3
CP1 reject 1 3 = NothingInFlight
CP1 lost 1 = LinkLost
- finish = Finished";

/// Makes the step that keeps the verdict on a point's reply to its first audit, for a test that
/// refuses memory. An equal audit comes from another machine.
fn verdict(rt: &impl Abort, alloc: Global, words: &str) -> Step {
    let mut machine = opening(rt, alloc);
    machine
        .make(&step(rt, alloc, "CP1 audit 1 60"))
        .expect(rt, "error");
    let job = machine.audit_job("CP1", 1).expect(rt, "error");
    let judge = judging(alloc, &job.expect(rt, "no audit"), words).expect(rt, "error");
    if let Step::Judge { judged, .. } = &judge {
        holds(rt, !judged.short(), "error: OutOfMemory");
    }
    judge
}

/// Prepares the step of a line for a test that refuses memory: parses it, or makes the verdict on
/// an audit.
fn prepared_step(rt: &impl Abort, alloc: Global, line: &str) -> Step {
    let (words, _) = parts_of(rt, line);
    if words.starts_with("CP1 judge") {
        return verdict(rt, alloc, words);
    }
    step(rt, alloc, words)
}

/// Prepares the steps of all lines, before memory is refused to the book.
fn prepared_steps(rt: &impl Abort, alloc: Global, lines: &str) -> Vec<Step> {
    let mut steps = Vec::new(alloc);
    for line in lines.lines() {
        let prepared = prepared_step(rt, alloc, line);
        steps.push(prepared).ok().expect(rt, "error: OutOfMemory");
    }
    steps
}

/// Makes a session's call on the book of a test, and returns its outcome. If memory was refused to
/// the call, it is made again.
fn made<C: Ledger, A: Ledger>(desk: &mut Desk<C, A>, step: Step) -> Said {
    match desk.make(step) {
        Ok(said) => said,
        Err(refused) if refused.refusal == Refusal::OutOfMemory => desk.said(refused.step),
        Err(refused) => (refused.refusal.name(), None),
    }
}

/// Makes the step of a line while memory may be refused, and checks its outcome. A request whose
/// compiling was refused memory is answered by OutOfMemory.
fn play_step<C: Ledger, A: Ledger>(rt: &impl Abort, desk: &mut Desk<C, A>, step: Step, line: &str) {
    let (_, wanted) = parts_of(rt, line);
    match made(desk, step) {
        ("OutOfMemory", Some(1)) => holds(rt, wanted.0 == "limit", line),
        said => same_said(rt, said, wanted, line),
    }
}

/// Makes the steps of lines on the book of a test after some links of CP2 are attached, while
/// memory may be refused.
fn play<C: Ledger, A: Ledger>(rt: &impl Abort, desk: &mut Desk<C, A>, links: u32, lines: &str) {
    let steps = prepared_steps(rt, desk.alloc, lines);
    for _ in 0..links {
        let said = desk.said(step(rt, desk.alloc, "CP2 attach"));
        holds(rt, said.0 == "Attached", "error: OutOfMemory");
    }
    for (step, line) in steps.into_iter().zip(lines.lines()) {
        play_step(rt, desk, step, line);
    }
    same(rt, desk.book.open_requests() as u64, 0, "open requests");
    holds(rt, desk.book.totals() == desk.pass.totals(), "totals");
}

/// Plays lines on a new book, after a number of links of CP2, in a test of refused memory.
fn play_at<C: Ledger, A: Ledger>(
    rt: &impl Abort,
    alloc: Global,
    changes: Blank,
    answers: Blank,
    told: (u32, &str),
)
    requires changes { (changes.name ≡ C.name) × (changes.parts ≡ C.parts) × (changes.parts ≡ 1) }
    requires answers { (answers.name ≡ A.name) × (answers.parts ≡ A.parts) × (answers.parts ≡ 1) }
{
    let (links, lines) = told;
    let made = Desk::<C, A>::new(alloc, changes, answers, site(rt, alloc));
    play(rt, &mut made.expect(rt, "error"), links, lines);
}

/// Plays lines on a book whose ledgers of changes and answers are of this test alone.
fn tell(rt: &impl Abort, alloc: Global, links: u32, lines: &str) {
    play_at::<Brand, Brand>(rt, alloc, Blank::new(1), Blank::new(1), (links, lines));
}

/// Checks that a step of each kind has its outcome, whichever allocation is refused.
#[test]
fn each_step_is_made_again(rt: HostRuntime) {
    tell(&rt, rt.alloc(), 0, STORY);
}

/// Checks that an install that folds 3,900 events is made, whichever allocation of it or of the
/// request after it is refused.
#[test]
fn an_install_folds(rt: HostRuntime) {
    let lines = "\
CP1 install periods=0:100 = Accepted
CP1 take 1 0 60 = Taken 1
- compile 1 = Compiled
- answer 1 = limit 100";
    tell(&rt, rt.alloc(), 3_900, lines);
}
