//! A session over a socket: its messages, their steps on the shared book, and the answers.

ghost use Rattle.session.specs.Serving.{KeepsPass};

mod audits;
mod calls;
mod ended;
mod installing_again;
mod noting;
mod reading;
mod received;
mod served_text;
mod session_events;
mod session_socket;
mod sockets;
mod waiting;
mod watched_socket;

use crate::context::Context;
use crate::session_core::SessionCore;
use calls::lose;
pub use calls::{claim_link, send_call};
use crossbeam_channel::Sender;
pub use ended::{Breach, Ended};
use journal::{Journal, NoJournal};
use ocpp_scalars::Moments;
pub use received::{Received, SentCall, SessionEvent};
pub use served_text::{Served, answer_message, answer_next};
use std::alloc::Global;
use std::io::{Read, Write};
use std::sync::ledger::Ledger;
use std::sync::{Mutex, Wait};
use tungstenite::{MaskKeys, WebSocket};
use version_store::{Job, Pass, Shared};
pub use watched_socket::WatchedSocket;
use world::{Unrecorded, World};

/// Serves a session over its socket, after its handshake, until the socket is closed or fails. It
/// makes the step of each message on the shared book, and answers it. A request for a schedule goes
/// to the workers, and is compiled here if none of them takes it. After each message of a point the
/// call that waits for the point is sent, if one does. In the end the point's link is lost. Returns
/// the pass, whose counters never decrease.
pub fn serve_socket<
    S: Read + Write + Drop,
    K: MaskKeys + Drop,
    C: Ledger,
    A: Ledger,
    R: Wait,
    M: Moments,
>(
    rt: &R,
    alloc: Global,
    socket: WebSocket<S, K>,
    shared: &Shared<C, A>,
    jobs: &Sender<Job>,
    core: SessionCore,
    pass: Pass<C, A>,
    clock: &M,
) -> (Ended, Pass<C, A>)
    ensures { KeepsPass pass result.1 }
{
    let (journal, reading) = (NoJournal, Mutex::new(()));
    let context: Context<'_, Unrecorded<C, A, R, M>> = Context::unrecorded(
        rt, alloc, shared, jobs, clock, &journal, &reading,
    );
    serve_session(&context, socket, core, pass)
}

/// Does the same as `serve_socket` in any world. Each step that changes something is noted in the
/// journal as it is made. No message leaves before everything noted by then is kept.
pub fn serve_session<W: World, S: Read + Write + Drop, K: MaskKeys + Drop>(
    context: &Context<'_, W>,
    socket: WebSocket<S, K>,
    core: SessionCore,
    pass: Pass<W::Changes, W::Answers>,
) -> (Ended, Pass<W::Changes, W::Answers>)
    ensures { KeepsPass pass result.1 }
{
    let (mut socket, mut core, mut pass) = (socket, core, pass);
    if let Err(ended) = claim_link(context, &mut core, &mut pass) {
        let _ = socket.close(None);
        return (ended, pass);
    }
    let ended = answer_texts(context, &mut socket, &core, &mut pass);
    release_link(context, core);
    (ended, pass)
}

/// Ends a session that has its link: a point's link is lost, and the loss noted.
pub fn release_link<W: World>(context: &Context<'_, W>, core: SessionCore) {
    lose(context, core);
    // A failure here loses nothing: these lines are kept before the next message leaves, or none
    // leaves.
    let _ = context.journal.write_out();
}

/// Serves the messages of a session of `serve` over its WebSocket until the socket is closed or
/// fails.
fn answer_texts<W: World, S: Read + Write + Drop, K: MaskKeys + Drop>(
    context: &Context<'_, W>,
    socket: &mut WebSocket<S, K>,
    core: &SessionCore,
    pass: &mut Pass<W::Changes, W::Answers>,
) -> Ended
    ensures { KeepsPass pass.old pass.new }
{
    for _text in context.rt.forever() {
        match answer_next(context, socket, core, pass, false) {
            Ok(Received::Message { .. } | Received::Control { .. }) => {}
            // `serve` sets no read timeout, so a read that gives up counts as a failure.
            Ok(Received::Nothing) => return Ended::Broken,
            Err(ended) => return ended,
        }
    }
    unreachable!()
}
