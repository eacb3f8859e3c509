//! The connections of `serve`: each is accepted, and served on a thread of its own.

ghost use Rattle.std.specs.Prelude.{◌≡◌, ◌≤◌, IfOk, length, vec_len, vec_capacity};

use crate::connection::run_connection;
use session::Context;
use std::alloc::{AllocError, Global};
use std::marker::{Send, Sync};
use std::net::{TcpListener, TcpStream};
use std::sync::Wait;
use std::thread;
use std::thread::{JoinHandle, Scope, Threads};
use version_store::Pass;
use world::World;

/// A site that serves connections, each with a pass.
pub(crate) trait ConnectionSite {
    /// The pass with which a connection is served.
    type Pass;

    /// Serves a connection of the server from its handshake until it ends. Returns its pass, which
    /// counts its changes and answers.
    fn run(&self, stream: TcpStream, pass: Self::Pass) -> Self::Pass;
}

impl<W: World> ConnectionSite for Context<'_, W> {
    type Pass = Pass<W::Changes, W::Answers>;

    fn run(
        &self,
        stream: TcpStream,
        pass: Pass<W::Changes, W::Answers>,
    ) -> Pass<W::Changes, W::Answers> {
        run_connection(self, stream, pass)
    }
}

/// The passes of all sessions, once these have ended.
#[derive(Drop)]
pub(crate) struct EndedSessions<P> {
    pub(crate) passes: Vec<P>,
    /// Whether each connection could be accepted.
    pub(crate) is_accepting: bool,
}

/// The sessions of all passes, once each has begun.
#[derive(Drop)]
struct Begun<P> {
    sessions: Vec<Session<P>>,
    /// Whether each connection could be accepted.
    is_accepting: bool,
}

/// The session of a pass.
#[derive(Drop)]
enum Session<P> {
    /// It is served on a thread of its own, which gives back the pass.
    Running(JoinHandle<P>),
    /// It has ended, or its connection couldn't be accepted.
    Ended(P),
}

/// Accepts a connection of `serve` for each pass (a session's counts), and serves it on a thread of
/// its own, or on this one. Returns the passes when all have ended.
pub(crate) fn run_connections<
    R: Threads + Wait,
    S: ConnectionSite<Pass = P> + Sync,
    P: Send + Drop,
>(
    rt: &R,
    alloc: Global,
    site: &S,
    listener: TcpListener,
    passes: Vec<P>,
) -> Result<EndedSessions<P>, AllocError>
    ensures { IfOk result (λ served. length served.passes.items ≡ length passes.items) }
{
    let count = passes.len();
    // Room first: once a session has begun, an allocation failure must not lose its pass.
    let sessions = Vec::with_capacity(alloc, count)?;
    let ended = Vec::with_capacity(alloc, count)?;
    Ok(thread::scope(
        thread::scope_env(),
        rt,
        |scope| -> EndedSessions<P>
            requires { (vec_len sessions ≡ 0) × (length passes.items ≤ vec_capacity sessions)
                × (vec_len ended ≡ 0) × (length passes.items ≤ vec_capacity ended) }
            ensures { length result.passes.items ≡ length passes.items }
        {
            let begun = begin_all(scope, site, listener, passes, sessions);
            EndedSessions {
                passes: end_all(rt, begun.sessions, ended),
                is_accepting: begun.is_accepting,
            }
        },
    ))
}

/// Accepts a connection of `serve` for each pass (a session's counts), and starts its session. Then
/// closes the listener, so that no client waits for a connection that is never accepted.
fn begin_all<'s, E, S: ConnectionSite<Pass = P> + Sync + 's, P: Send + Drop + 's>(
    scope: &Scope<'s, E>,
    site: &'s S,
    listener: TcpListener,
    passes: Vec<P>,
    room: Vec<Session<P>>,
) -> Begun<P>
    requires empty { vec_len room ≡ 0 }
    requires room { length passes.items ≤ vec_capacity room }
    ensures { length result.sessions.items ≡ length passes.items }
{
    let (mut sessions, mut is_accepting) = (room, true);
    for pass in passes {
        let session = begin(scope, site, &listener, pass, &mut is_accepting);
        sessions.push(session).unwrap();
    }
    Begun {
        sessions,
        is_accepting,
    }
}

/// Accepts the next connection of `serve`, and starts its session on a thread of its own. This pass
/// counts the session's changes and answers.
fn begin<'s, E, S: ConnectionSite<Pass = P> + Sync + 's, P: Send + Drop + 's>(
    scope: &Scope<'s, E>,
    site: &'s S,
    listener: &TcpListener,
    pass: P,
    is_accepting: &mut bool,
) -> Session<P> {
    if !*is_accepting {
        return Session::Ended(pass);
    }
    let Ok((stream, _)) = listener.accept() else {
        *is_accepting = false;
        return Session::Ended(pass);
    };
    // Without Nagle's algorithm an answer leaves at once. If that can't be set, it leaves later.
    let _ = stream.set_nodelay(true);
    match scope.spawn(move || site.run(stream, pass)) {
        Ok(session) => Session::Running(session),
        Err(unmade) => Session::Ended((unmade.value)()),
    }
}

/// Waits until each session of `serve` has ended, and returns the sessions' counts of changes and
/// answers (their passes).
fn end_all<R: Threads + Wait, P: Drop>(rt: &R, sessions: Vec<Session<P>>, room: Vec<P>) -> Vec<P>
    requires empty { vec_len room ≡ 0 }
    requires room { length sessions.items ≤ vec_capacity room }
    ensures { length result.items ≡ length sessions.items }
{
    let mut ended = room;
    for session in sessions {
        ended.push(pass_of(rt, session)).unwrap();
    }
    ended
}

/// Waits until a session of `serve` has ended, and returns its pass, which counts its changes and
/// answers.
fn pass_of<R: Threads + Wait, P>(rt: &R, session: Session<P>) -> P {
    match session {
        Session::Running(session) => session.join(rt),
        Session::Ended(pass) => pass,
    }
}
