//! The session of a seat: serves messages, and enforces the time limits of its client.

ghost use Rattle.session.specs.Serving.{KeepsPass};

use crate::session_watch::SessionWatch;
use bytes::Bytes;
use journal::Journal;
use messages::CallFault;
use ocpp_scalars::Moments;
use server_core::{
    LONGEST_SILENCE, LineThrottle, Pace, SILENCE_BEFORE_CALL, SILENCE_BEFORE_PING, TICK,
    seconds_since,
};
use server_ports::IncomingStream;
use session::{
    Context, Ended, Received, SentCall, SessionCore, SessionEvent, WatchedSocket, answer_next,
    send_call,
};
use std::rt::Clock;
use std::sync::Wait;
use std::time::Instant;
use tungstenite::{Message, NoMask, WebSocket};
use version_store::Pass;
use world::World;

/// The most changes of limits in a schedule that a session compiles itself.
// They take at most some 0.3 milliseconds, mostly less than waking a worker.
const MOST_OF_OWN: u64 = 1_000;

/// The state of a session's client, as its seat sees it.
#[derive(Drop)]
struct ClientState {
    /// The time that a call waits for its reply, in seconds.
    call_timeout: u64,
    begun: Instant,
    /// Whether a message of the client came.
    has_spoken: bool,
    /// The time of the last check whether a call waits for the client.
    looked: Instant,
    /// Whether the client was pinged in its present silence.
    is_pinged: bool,
    /// The last call that was sent to the client, until it is overdue.
    sent: Option<CallMoment>,
    /// The time of the last line about a refused request of the client.
    refused: LineThrottle,
}

/// A call that was sent to a point, and when.
#[derive(Clone, Copy)]
struct CallMoment {
    number: u64,
    moment: Instant,
}

/// Serves a client's session in a seat of the server. It ends when its WebSocket closes or fails,
/// the client is silent too long, or a call has no reply in time. Returns how it ended.
pub(crate) fn run_session<R: Wait + Clock, W: World>(
    context: &Context<'_, W>,
    watch: &SessionWatch<'_, R>,
    socket: &mut WebSocket<IncomingStream<'_, R>, NoMask>,
    core: &SessionCore,
    pass: &mut Pass<W::Changes, W::Answers>,
) -> Ended
    ensures { KeepsPass pass.old pass.new }
{
    let seats = watch.seats;
    let Ok(now) = Instant::now(&seats.rt) else {
        return Ended::Broken;
    };
    let mut socket = WatchedSocket::new(&seats.rt, socket, Some(MOST_OF_OWN));
    let mut attention = ClientState {
        call_timeout: seats.options.call_timeout,
        begun: now,
        has_spoken: false,
        looked: now,
        is_pinged: false,
        sent: None,
        refused: LineThrottle::new(),
    };
    let mut pace = Pace::new(&seats.ahead);
    for _message in seats.rt.forever() {
        let attended = attend_next(context, watch, &mut socket, core, &mut attention, pass);
        if let Err(ended) = attended {
            pace.end();
            return ended;
        }
        let is_ahead = socket.websocket().get_ref().is_ahead();
        pace.keep(&seats.rt, is_ahead);
    }
    unreachable!()
}

/// Serves the next message of a client's session in a seat of the server, or does the work that is
/// due if no message comes. An error ends the session.
fn attend_next<R: Wait + Clock, W: World>(
    context: &Context<'_, W>,
    watch: &SessionWatch<'_, R>,
    watched: &mut WatchedSocket<'_, IncomingStream<'_, R>, NoMask, R>,
    core: &SessionCore,
    attention: &mut ClientState,
    pass: &mut Pass<W::Changes, W::Answers>,
) -> Result<(), Ended>
    ensures { KeepsPass pass.old pass.new }
{
    let rt = &watch.seats.rt;
    let installs_again = watch.seats.options.installs_again;
    let received = answer_next(&*context, watched, core, pass, installs_again)?;
    let is_last = !watched.has_kept();
    let socket = watched.websocket();
    if let Some(call) = sent_after(context, watch, socket, core, attention, received)? {
        attention.note_sent(rt, call.number);
        watch.send(call);
    }
    if let Some(call) = attention.overdue(rt, context, core) {
        // The machine has no clock, so only the loss of the link queues the call again.
        watch.give_up(core, call);
        return Err(broken(socket));
    }
    // A message that came while a schedule was awaited is served first.
    if is_last && socket.get_ref().is_in_the_way() {
        return Err(broken(socket));
    }
    Ok(())
}

/// Closes the WebSocket of a client whose session in a seat of the server has to end, and returns
/// that end.
fn broken<R: Wait + Clock>(socket: &mut WebSocket<IncomingStream<'_, R>, NoMask>) -> Ended {
    let _ = socket.close(None);
    Ended::Broken
}

/// Does the work that is due in a seat of the server after its session received a message, a
/// control frame or nothing. Returns the call that was sent to the point, if one was.
fn sent_after<R: Wait + Clock, W: World>(
    context: &Context<'_, W>,
    watch: &SessionWatch<'_, R>,
    socket: &mut WebSocket<IncomingStream<'_, R>, NoMask>,
    core: &SessionCore,
    attention: &mut ClientState,
    received: Received,
) -> Result<Option<SentCall>, Ended> {
    let rt = &watch.seats.rt;
    match received {
        Received::Message { event, sent } => {
            attention.has_spoken = true;
            attention.report_refused(watch, core, &event);
            watch.hear(context, core, event);
            Ok(sent)
        }
        // A client that pings all the time would never let a read time out, and get no calls.
        Received::Control { .. } if seconds_since(rt, attention.looked) < TICK => Ok(None),
        Received::Control { .. } => send_to_silent(rt, context, socket, core, attention),
        Received::Nothing => {
            // Some noted lines have no message that leaves after them, as those of a point's reply.
            // They are written here.
            let _ = context.journal.write_out();
            keep_alive(socket, attention)?;
            send_to_silent(rt, context, socket, core, attention)
        }
    }
}

/// Sends one WebSocket ping to a silent client in a seat of the server, and ends the client's
/// session after a longer silence.
fn keep_alive<R: Wait + Clock>(
    socket: &mut WebSocket<IncomingStream<'_, R>, NoMask>,
    attention: &mut ClientState,
) -> Result<(), Ended> {
    let silence = socket.get_ref().silence();
    if silence >= LONGEST_SILENCE {
        return Err(broken(socket));
    }
    if silence < SILENCE_BEFORE_PING {
        attention.is_pinged = false;
        return Ok(());
    }
    if attention.is_pinged {
        return Ok(());
    }
    attention.is_pinged = true;
    match socket.send(Message::Ping(Bytes::from_static(b""))) {
        Ok(()) => Ok(()),
        Err(_) => Err(Ended::Broken),
    }
}

/// Sends the call that waits for a silent charge point in a seat of the server, and returns it. A
/// point that has just connected first gets the time for its BootNotification.
fn send_to_silent<R: Wait + Clock, W: World>(
    rt: &R,
    context: &Context<'_, W>,
    socket: &mut WebSocket<IncomingStream<'_, R>, NoMask>,
    core: &SessionCore,
    attention: &mut ClientState,
) -> Result<Option<SentCall>, Ended> {
    if let Ok(now) = Instant::now(rt) {
        attention.looked = now;
    }
    if !attention.has_spoken && seconds_since(rt, attention.begun) < SILENCE_BEFORE_CALL {
        return Ok(None);
    }
    match context.clock.now() {
        Some(now) => send_call(context, socket, core, now),
        None => Err(Ended::Broken),
    }
}

impl ClientState {
    /// Reports on the server's standard error that a request of the session's client was refused,
    /// if this event says so.
    // A point that sends an action unknown here makes no mistake, so this isn't reported.
    fn report_refused<R: Wait + Clock>(
        &mut self,
        watch: &SessionWatch<'_, R>,
        core: &SessionCore,
        event: &SessionEvent,
    ) {
        match event {
            SessionEvent::Refused(CallFault::NotImplemented) => {}
            SessionEvent::Refused(fault) => {
                if self.refused.is_due(&watch.seats.rt) {
                    watch.refuse(core, *fault);
                }
            }
            _ => {}
        }
    }

    /// Records, for the server's time limit on replies, that the call of this number was sent to
    /// the session's point just now. Without a clock its reply has no deadline.
    fn note_sent<R: Clock>(&mut self, rt: &R, number: u64) {
        self.sent = match Instant::now(rt) {
            Ok(moment) => Some(CallMoment { number, moment }),
            Err(_) => None,
        };
    }

    /// Returns the number of the last call that the server's session sent to its point, if its
    /// reply is overdue.
    fn overdue<R: Wait + Clock, W: World>(
        &mut self,
        rt: &R,
        context: &Context<'_, W>,
        core: &SessionCore,
    ) -> Option<u64> {
        let call = self.sent?;
        if seconds_since(rt, call.moment) < self.call_timeout {
            return None;
        }
        self.sent = None;
        let book = context.shared.lock(rt);
        match book.present().outbox_of(core.point_id().as_str()) {
            Some(outbox) if outbox.is_number_in_flight(call.number) => Some(call.number),
            _ => None,
        }
    }
}
