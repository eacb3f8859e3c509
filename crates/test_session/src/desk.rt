//! Serves sessions one after another on a shared book, one for each line of a story. No worker
//! takes a job from the queue, which has room for one.

ghost use Rattle.std.specs.Prelude.{◌≡◌};

use crate::clients::{client_bytes, push_heard};
use crate::named_texts::SITE;
use crate::streams::Stream;
use crossbeam_channel::{Sender, bounded};
use journal::NoJournal;
use ocpp_scalars::{Instant, Moments};
use profile::Unit;
use session::{Context, Ended, Received, SessionCore, WatchedSocket, answer_next, serve_session};
use site_core::PointId;
use site_rules::read_site;
use std::alloc::Global;
use std::process::Abort;
use std::rt::Clock;
use std::sync::ledger::{Blank, Ledger};
use std::sync::{Mutex, Wait};
use test_books::instant_at;
use tungstenite::{NoMask, Role, WebSocket};
use version_store::{Job, Pass, Shared};
use world::Unrecorded;

/// A clock that is always at one moment, or has none.
#[derive(Clone, Copy)]
pub(crate) struct Fixed(Option<Instant>);

impl Moments for Fixed {
    fn now(&self) -> Option<Instant> {
        self.0
    }
}

type Desk<'a, C, A, R> = Context<'a, Unrecorded<C, A, R, Fixed>>;

/// A story, and the results after which it may end.
#[derive(Clone, Copy)]
pub(crate) struct Tale<'a> {
    pub(crate) story: &'a str,
    pub(crate) enough: &'a str,
}

/// Plays the lines of a story in a test of sessions, such as `point heartbeat close`: the client
/// that is served, and the messages that it sends. An operator's session that is `watched` gets the
/// messages after `|` once it polls its stream. `other` is a job of another session. A `timeless`
/// story has no clock. Returns for each session how it ended, and the messages that its client
/// read; then the changes and answers of the book, the calls that wait, the requests that are kept,
/// and the jobs in the queue. A story whose results are `enough` ends there.
pub(crate) fn play<C: Ledger, A: Ledger, R: Abort + Wait + Clock>(
    rt: &R,
    alloc: Global,
    changes: Blank,
    answers: Blank,
    tale: &Tale<'_>,
) -> String
    requires changes { (changes.name ≡ C.name) × (changes.parts ≡ C.parts) × (changes.parts ≡ 1) }
    requires answers { (answers.name ≡ A.name) × (answers.parts ≡ A.parts) × (answers.parts ≡ 1) }
{
    let site = read_site(alloc, SITE.as_bytes()).expect(rt, "error");
    let made: Result<(Shared<C, A>, _), _> = Shared::make(alloc, changes, answers, site, 1);
    let (shared, mut passes) = made.expect(rt, "error");
    let (jobs, _queue) = bounded(alloc, 1).expect(rt, "error");
    let is_timeless = tale.story.contains("timeless");
    let clock = Fixed(if is_timeless {
        None
    } else {
        instant_at(10).ok()
    });
    let (journal, reading) = (NoJournal, Mutex::new(()));
    let desk: Desk<'_, C, A, R> = Context::unrecorded(
        rt, alloc, &shared, &jobs, &clock, &journal, &reading,
    );
    play_lines(&desk, &jobs, passes.pop().expect(rt, "no pass"), *tale)
}

/// Plays the lines of a story in a test of sessions, and returns the results.
fn play_lines<C: Ledger, A: Ledger, R: Abort + Wait + Clock>(
    desk: &Desk<'_, C, A, R>,
    jobs: &Sender<Job>,
    pass: Pass<C, A>,
    tale: Tale<'_>,
) -> String {
    let mut pass = pass;
    let mut found = String::with_capacity(desk.alloc, 1_000).expect(desk.rt, "error");
    for line in tale.story.split("; ") {
        pass = play_line(desk, line, pass, &mut found);
        put_book(desk, jobs, &pass, &mut found);
        if found.as_str() == tale.enough {
            break;
        }
    }
    found
}

/// Serves the session of a line of a story, in a test of sessions, over a WebSocket in memory.
/// Appends how it ended and the names of the messages that its client read.
fn play_line<C: Ledger, A: Ledger, R: Abort + Wait + Clock>(
    desk: &Desk<'_, C, A, R>,
    line: &str,
    pass: Pass<C, A>,
    found: &mut String,
) -> Pass<C, A> {
    let (who, texts) = line.split_once(' ').unwrap_or((line, ""));
    if who == "other" {
        return send_other(desk, pass);
    }
    let (first, later) = texts.split_once(" | ").unwrap_or((texts, "end"));
    let first = client_bytes(desk.rt, desk.alloc, first);
    let later = client_bytes(desk.rt, desk.alloc, later);
    let mut output = Vec::with_capacity(desk.alloc, 4_096).expect(desk.rt, "error");
    let stream = Stream {
        first: first.as_slice(),
        later: later.as_slice(),
        waits: who == "watched",
        output: &mut output,
    };
    let socket = WebSocket::from_raw_socket(desk.alloc, stream, NoMask, Role::Server, None);
    let (ended, pass) = if who == "watched" {
        watch(desk, socket, pass)
    } else {
        serve(desk, socket, pass)
    };
    found.push_str(name_of_end(ended)).expect(desk.rt, "error");
    push_heard(desk.rt, found, output.as_slice());
    pass
}

/// Serves a session of a point over a WebSocket in memory, in a test of sessions. Returns how the
/// session ended.
fn serve<C: Ledger, A: Ledger, R: Abort + Wait + Clock>(
    desk: &Desk<'_, C, A, R>,
    socket: WebSocket<Stream<'_>, NoMask>,
    pass: Pass<C, A>,
) -> (Option<Ended>, Pass<C, A>) {
    let core = SessionCore::point(desk.alloc, "CP1").expect(desk.rt, "error");
    let (ended, pass) = serve_session(desk, socket, core, pass);
    (Some(ended), pass)
}

/// Serves an operator's session over a polled stream, in a test of sessions, until no message comes
/// or it ends. Returns how it ended, if it did.
fn watch<C: Ledger, A: Ledger, R: Abort + Wait + Clock>(
    desk: &Desk<'_, C, A, R>,
    socket: WebSocket<Stream<'_>, NoMask>,
    pass: Pass<C, A>,
) -> (Option<Ended>, Pass<C, A>) {
    let (rt, mut socket, mut pass) = (desk.rt, socket, pass);
    let core = SessionCore::operator(desk.alloc, "CP1", None, Unit::A).expect(rt, "error");
    let mut watched = WatchedSocket::new(rt, &mut socket, None);
    for _message in 0..20u32 {
        match answer_next(&*desk, &mut watched, &core, &mut pass, false) {
            Ok(Received::Nothing) => return (None, pass),
            Ok(_) => {}
            Err(ended) => return (Some(ended), pass),
        }
    }
    rt.panic("it goes on")
}

/// Takes another session's request for a schedule, in a test of sessions without workers, and sends
/// its job. That fills the workers' queue.
fn send_other<C: Ledger, A: Ledger, R: Abort + Wait>(
    desk: &Desk<'_, C, A, R>,
    pass: Pass<C, A>,
) -> Pass<C, A> {
    let (rt, mut pass) = (desk.rt, pass);
    let point = PointId::copied(desk.alloc, "CP1").expect(rt, "error");
    let start = instant_at(0).expect(rt, "no instant");
    let job = desk
        .shared
        .lock(rt)
        .take(&mut pass, point, 1, start, 60, None);
    let sent = desk.jobs.send(rt, job.expect(rt, "error"));
    sent.ok().expect(rt, "not sent");
    pass
}

/// Appends the counts of the book after a session, in a test of sessions. Checks that the point has
/// no link, and that the pass counts all of the book.
fn put_book<C: Ledger, A: Ledger, R: Abort + Wait>(
    desk: &Desk<'_, C, A, R>,
    jobs: &Sender<Job>,
    pass: &Pass<C, A>,
    found: &mut String,
) {
    let book = desk.shared.lock(desk.rt);
    let is_counted = pass.totals() == book.totals() && pass.seen() == book.version();
    let is_linked = book.link_of("CP1").is_some();
    let (waiting, kept) = (book.outbox_len("CP1"), book.open_requests());
    drop(book);
    assert!(desk.rt; is_counted && !is_linked, "behind {found}");
    let (changes, answers) = (pass.totals().changes, pass.totals().answers);
    let queued = jobs.len();
    write!(found, "/{changes} {answers} {waiting} {kept} {queued};").expect(desk.rt, "error");
}

/// Returns the name of the way in which a session ended, or `open`, for the expected results in the
/// tests of sessions.
fn name_of_end(ended: Option<Ended>) -> &'static str {
    match ended {
        None => "open",
        Some(Ended::Closed) => "closed",
        Some(Ended::Broken) => "broken",
        Some(Ended::OutOfMemory) => "out-of-memory",
        Some(_) => "otherwise",
    }
}
