//! The sessions and workers of a story, each on a thread of its own.

ghost use Rattle.std.specs.Prelude.{◌≡◌, ◌≤◌};

use crate::desk::{Desk, Played};
use crate::gates::HoldingGate;
use compile_pool::{Jobs, MAX_JOBS, run_pool, worker};
use crossbeam_channel::bounded;
use site_rules::read_site;
use std::alloc::Global;
use std::marker::{Send, Sync};
use std::process::Abort;
use std::sync::Wait;
use std::sync::ledger::{Blank, Ledger};
use std::thread;
use std::thread::Threads;
use test_books::site_text;
use version_store::{Pass, Shared, Totals};

/// The actions of sessions beside workers.
#[derive(Clone, Copy)]
pub(crate) struct Story {
    /// The number of points of the site: 0, 1 and so on, of two connectors each.
    pub(crate) points: usize,
    /// The number of workers that take short jobs. One takes long ones.
    pub(crate) workers: usize,
    /// The requests that are held up, in the form of `HoldingGate`.
    pub(crate) held: &'static str,
    /// The lines of the first session at the beginning; of two sessions that run beside it; and of
    /// the first one then.
    pub(crate) before: &'static str,
    pub(crate) one: &'static str,
    pub(crate) other: &'static str,
    pub(crate) beside: &'static str,
    /// The changes and the answers that all sessions count.
    pub(crate) totals: (u64, u64),
}

/// Three sessions: the two beside the first one, and the first.
type Sessions<C, A> = (Played<C, A>, Played<C, A>, Played<C, A>);

/// Plays a test's story of three sessions beside the workers' pool, and checks the changes and
/// answers that all sessions count.
pub(crate) fn play<
    C: Ledger + Send + Sync,
    A: Ledger + Send + Sync,
    R: Abort + Threads + Wait + Sync,
>(rt: &R, alloc: Global, changes: Blank, answers: Blank, story: &Story)
    requires changes { (changes.name ≡ C.name) × (changes.parts ≡ C.parts) × (changes.parts ≡ 3) }
    requires answers { (answers.name ≡ A.name) × (answers.parts ≡ A.parts) × (answers.parts ≡ 3) }
{
    let text = site_text(alloc, story.points, 2, 1).expect(rt, "error");
    let site = read_site(alloc, text.as_str().as_bytes()).expect(rt, "error");
    let made: Result<(Shared<C, A>, _), _> = Shared::make(alloc, changes, answers, site, 3);
    let (shared, mut passes) = made.expect(rt, "error");
    let gate = HoldingGate::new(story.held);
    let sessions = (
        (passes.pop().expect(rt, "no pass"), String::new(alloc)),
        (passes.pop().expect(rt, "no pass"), String::new(alloc)),
        (passes.pop().expect(rt, "no pass"), String::new(alloc)),
    );
    let (one, other, first) = beside_workers(rt, alloc, &shared, &gate, story, sessions).expect(
        rt,
        "no thread",
    );
    for played in [one, other, first] {
        keep(rt, &mut passes, played);
    }
    let is_open = shared.lock(rt).open_requests() > 0;
    assert!(rt; gate.held_on() && !is_open, "how it ended");
    let (changes, answers) = story.totals;
    let totals = Totals { changes, answers };
    assert!(rt;
        shared.settle(passes) == Ok(totals),
        "what all sessions count"
    );
}

/// Checks in a test of the workers' pool that all lines of a session had the expected results.
/// Keeps the session's pass, so that its counts are added up.
fn keep<C: Ledger, A: Ledger>(rt: &impl Abort, passes: &mut Vec<Pass<C, A>>, played: Played<C, A>) {
    let (pass, wrong) = played;
    assert!(rt; wrong.is_empty(), "{wrong}");
    passes.push(pass).ok().expect(rt, "error");
}

/// Plays a test's three sessions beside the workers' pool that compiles schedules. Returns `None`
/// if there isn't a thread for each.
fn beside_workers<'a, C: Ledger + Send + Sync, A: Ledger + Send + Sync, R: Threads + Wait + Sync>(
    rt: &R,
    alloc: Global,
    shared: &'a Shared<C, A>,
    gate: &'a HoldingGate,
    story: &Story,
    sessions: Sessions<C, A>,
) -> Option<Sessions<C, A>> {
    let workers = story.workers;
    if workers == 0 {
        return None;
    }
    let (short, of_short) = bounded(alloc, MAX_JOBS).ok()?;
    let (long, of_long) = bounded(alloc, MAX_JOBS).ok()?;
    let (of_short, of_long) = (&of_short, &of_long);
    thread::scope(
        thread::scope_env(),
        rt,
        |scope| -> Option<Sessions<C, A>>
            requires { 1 ≤ workers }
        {
            let pool = scope
                .spawn(
                    move || -> usize
                        requires { 1 ≤ workers }
                    { run_pool(rt, alloc, workers, of_short, shared, gate) },
                )
                .ok()?;
            let working = scope
                .spawn(move || worker(rt, alloc, of_long, shared, gate))
                .ok()?;
            let desk = Desk {
                alloc,
                shared,
                jobs: Jobs::new(&short, &long),
                gate,
            };
            let played = beside(rt, &desk, story, sessions);
            drop(desk);
            drop(short);
            drop(long);
            let ran = pool.join(rt);
            working.join(rt);
            if ran == workers { played } else { None }
        },
    )
}

/// Plays the first session of a test of the workers' pool on this thread, beside the two others. At
/// the end it opens the gate before the workers.
fn beside<C: Ledger + Send + Sync, A: Ledger + Send + Sync, R: Threads + Wait + Sync>(
    rt: &R,
    desk: &Desk<'_, '_, '_, C, A>,
    story: &Story,
    sessions: Sessions<C, A>,
) -> Option<Sessions<C, A>> {
    let (one, other, first) = sessions;
    let first = desk.play(rt, first, story.before);
    thread::scope(thread::scope_env(), rt, |scope| -> Option<Sessions<C, A>> {
        let one = scope.spawn(move || desk.play(rt, one, story.one));
        let other = scope.spawn(move || desk.play(rt, other, story.other));
        let first = desk.play(rt, first, story.beside);
        desk.gate.open();
        match (one, other) {
            (Ok(one), Ok(other)) => Some((one.join(rt), other.join(rt), first)),
            _ => None,
        }
    })
}
