//! A seat: a thread that serves one connection after another.

ghost use Rattle.session.specs.Serving.{KeepsPass};

use crate::attending::run_session;
use crate::connection::{Admitted, admit, close_at_once};
use crate::session_watch::SessionWatch;
use compile_pool::Jobs;
use crossbeam_channel::Receiver;
use ghost_list::ListName;
use journal::Journal;
use server_ports::{
    Access, ClientRequest, HandshakeFailure, IncomingStream, SeatContext, SeatWorld, Seats,
    note_handshake_failure, note_operator, note_unknown, shake_hands,
};
use session::{Context, Peer, SessionCore, claim_link, release_link};
use std::alloc::{AllocError, Global};
use std::marker::Sync;
use std::net::{SocketAddr, TcpStream};
use std::rt::Clock;
use std::sync::Wait;
use std::sync::ledger::Ledger;
use std::thread;
use std::thread::Threads;
use tungstenite::{NoMask, WebSocket, WebSocketConfig};
use version_store::Pass;
use world::World;

/// The longest message in bytes. A longer one is refused while it comes in.
// Such a message ends the connection, to bound the memory of each seat.
const LONGEST_MESSAGE_BYTES: usize = 1_048_576;

/// The read buffer of each connection, in bytes.
// Each connection keeps this room, however idle.
const READ_BYTES: usize = 2_048;

/// The socket of a seat.
type SeatSocket<'a, R> = WebSocket<IncomingStream<'a, R>, NoMask>;

/// Serves one connection after another, each with the seat's pass, until no more are sent. Returns
/// the pass, whose counters never decrease.
pub fn keep_seat<R: Threads + Wait + Clock + Sync, W: World>(
    seats: &Seats<R>,
    context: &Context<'_, W>,
    streams: &Receiver<TcpStream>,
    pass: Pass<W::Changes, W::Answers>,
) -> Pass<W::Changes, W::Answers>
    ensures { KeepsPass pass result }
{
    let mut pass = pass;
    for _connection in seats.rt.forever() {
        let Ok(stream) = streams.recv(&seats.rt) else {
            return pass;
        };
        pass = run_incoming(seats, context, stream, pass);
        seats.free.add(&seats.rt);
    }
    unreachable!()
}

/// Returns the context of the sessions that a seat of the server serves, with these channels to the
/// workers.
pub(crate) fn context_of<
    's,
    C: Ledger + 's,
    A: Ledger + 's,
    R: Wait + Clock + 's,
    J: Journal<N> + 's,
    N: ListName + 's,
>(site: &'s SeatContext<C, A, R, J, N>, jobs: Jobs<'s>) -> Context<'s, SeatWorld<C, A, R, J, N>> {
    let seats: &'s Seats<R> = &site.seats;
    Context {
        rt: &seats.rt,
        alloc: seats.alloc,
        shared: &site.shared,
        jobs,
        clock: &seats.clock,
        journal: &site.journal,
        reading: &seats.reading,
    }
}

/// Serves a client's connection in a seat of the server, from its handshake until it ends. Returns
/// the seat's pass, which counts changes and answers.
fn run_incoming<R: Threads + Wait + Clock + Sync, W: World>(
    seats: &Seats<R>,
    context: &Context<'_, W>,
    stream: TcpStream,
    pass: Pass<W::Changes, W::Answers>,
) -> Pass<W::Changes, W::Answers>
    ensures { KeepsPass pass result }
{
    let from = stream.peer_addr().ok();
    match shaken_socket(seats, stream, from) {
        Some((socket, asked)) => run_shaken(seats, context, socket, &asked, from, pass),
        None => pass,
    }
}

/// Does the WebSocket handshake with a client of the server, and sets the limits of its session.
/// Returns nothing if the handshake failed, which is noted.
fn shaken_socket<R: Threads + Wait + Clock + Sync>(
    seats: &Seats<R>,
    stream: TcpStream,
    from: Option<SocketAddr>,
) -> Option<(SeatSocket<'_, R>, ClientRequest)> {
    let stream = IncomingStream::new(&seats.rt, seats.alloc, &seats.long_messages, stream)?;
    match shake_in_time(seats, stream) {
        Ok((mut socket, asked)) => {
            if !socket.get_mut().end_handshake() {
                return None;
            }
            socket.set_config(limits());
            Some((socket, asked))
        }
        Err(unshaken) => {
            note_handshake_failure(seats, unshaken, from);
            None
        }
    }
}

/// Serves a client's session in a seat of the server after its handshake, if the site has its
/// point. Returns the seat's pass.
fn run_shaken<R: Wait + Clock, W: World>(
    seats: &Seats<R>,
    context: &Context<'_, W>,
    socket: SeatSocket<'_, R>,
    asked: &ClientRequest,
    from: Option<SocketAddr>,
    pass: Pass<W::Changes, W::Answers>,
) -> Pass<W::Changes, W::Answers>
    ensures { KeepsPass pass result }
{
    match admit(context, asked) {
        Ok(Some(admitted)) => {
            if let Peer::Operator { .. } = admitted.core.peer() {
                note_operator(seats, asked, from);
            }
            run_admitted(seats, context, socket, admitted, pass)
        }
        Ok(None) => {
            note_unknown(seats, asked, from);
            close_at_once(socket);
            pass
        }
        Err(AllocError) => pass,
    }
}

/// Does the WebSocket handshake of a client's connection in a seat of the server. Until it is
/// complete, it may have to give its seat to another connection.
fn shake_in_time<'a, R: Threads + Wait + Clock + Sync>(
    seats: &Seats<R>,
    stream: IncomingStream<'a, R>,
) -> Result<(SeatSocket<'a, R>, ClientRequest), HandshakeFailure> {
    let entry = Access::Guarded {
        keys: seats.options.keys.as_ref(),
        address: seats.options.address.as_str(),
    };
    let handshake = match stream.share() {
        Some(share) => seats.handshakes.begin(&seats.rt, share),
        None => None,
    };
    let shaken = shake_apart(&seats.rt, seats.alloc, entry, stream);
    if let Some(handshake) = handshake {
        seats.handshakes.end(&seats.rt, handshake);
    }
    shaken
}

/// Does the WebSocket handshake of a client's connection in a seat of the server. It runs on a
/// thread of its own, or on the seat's if none can be made.
// A handshake takes far more stack than a waiting session, and the stack that a thread once used
// stays in memory until the thread ends.
fn shake_apart<'a, R: Threads + Wait + Clock + Sync>(
    rt: &R,
    alloc: Global,
    entry: Access<'_>,
    stream: IncomingStream<'a, R>,
) -> Result<(SeatSocket<'a, R>, ClientRequest), HandshakeFailure> {
    let (shaken, ()) = thread::join(rt, move || shake_hands(alloc, entry, stream), || ());
    shaken
}

/// Returns the limits of a client's WebSocket connection in a seat of the server: the sizes of its
/// read buffer, messages and frames.
fn limits() -> WebSocketConfig {
    WebSocketConfig::default()
        .read_buffer_size(READ_BYTES)
        .max_message_size(Some(LONGEST_MESSAGE_BYTES))
        .max_frame_size(Some(LONGEST_MESSAGE_BYTES))
}

/// Serves an admitted client's session in a seat of the server, and returns the seat's pass. Of two
/// connections of a point the older one is shut.
fn run_admitted<R: Wait + Clock, W: World>(
    seats: &Seats<R>,
    context: &Context<'_, W>,
    socket: SeatSocket<'_, R>,
    admitted: Admitted,
    pass: Pass<W::Changes, W::Answers>,
) -> Pass<W::Changes, W::Answers>
    ensures { KeepsPass pass result }
{
    let Admitted { mut core, place } = admitted;
    let (mut socket, mut pass) = (socket, pass);
    // Before the link is claimed: once this session has it, a later one must be able to shut it.
    let Some(share) = socket.get_ref().share() else {
        return pass;
    };
    if claim_link(&*context, &mut core, &mut pass).is_err() {
        let _ = socket.close(None);
        return pass;
    }
    let link = link_of(&core);
    if let Some(link) = link {
        seats.present.enter(&seats.rt, place, link, share);
    }
    let watch = SessionWatch { seats, place, link };
    watch.begin(&core);
    let ended = run_session(context, &watch, &mut socket, &core, &mut pass);
    watch.end(&core, ended);
    end_session(context, socket, core);
    if let Some(link) = link {
        seats.present.leave(&seats.rt, place, link);
    }
    pass
}

/// Returns the link of a session's point on the server. An operator has none.
fn link_of(core: &SessionCore) -> Option<u64> {
    match core.peer() {
        Peer::Point { link } => link,
        Peer::Operator { .. } => None,
    }
}

/// Ends a session on the server: frees its place for long messages, releases its link, and writes
/// the journal's lines of its last message, for which perhaps no message leaves.
fn end_session<R: Wait + Clock, W: World>(
    context: &Context<'_, W>,
    socket: SeatSocket<'_, R>,
    core: SessionCore,
) {
    // The buffers of its messages are freed before its place, so the places bound the memory.
    let mut stream = socket.into_inner();
    stream.end();
    release_link(context, core);
    let _ = context.journal.write_out();
}
