//! A socket that its session polls while it waits for a schedule.

ghost use Rattle.std.specs.Prelude.{◌≡◌, None, IfSome, Some};

use crate::serving::ended::Ended;
use crate::serving::received::Incoming;
use crate::serving::session_socket::SessionSocket;
use crate::serving::sockets::read_next;
use crate::serving::waiting::{Sending, Waiting};
use compile_pool::{Jobs, Unsent, short_work};
use ghost_list::ListName;
use std::io::{Read, Write};
use std::rt::Clock;
use std::sync::ledger::Ledger;
use std::sync::{MutexGuard, Wait};
use std::time::Duration;
use tungstenite::{MaskKeys, WebSocket};
use version_store::{Book, Job, Shared};
use world::Watched;

/// The time until the first poll of the socket, in milliseconds. Most answers are there by then.
const FIRST_WAIT: u64 = 500;

/// The time between two polls, in milliseconds.
const NEXT_WAIT: u64 = 200;

/// The most frames that one poll reads.
// Otherwise a client that sends pings without pause would hold up its own answer.
const MOST_FRAMES: usize = 64;

/// A socket that its session polls while it waits for a schedule: it answers the client's pings,
/// and notices when the client leaves. The first message that comes meanwhile is kept as the next
/// one. From then on the socket isn't read until the answer has left.
#[derive(Drop)]
pub struct WatchedSocket<'s, S, K, R> {
    rt: &'s R,
    socket: &'s mut WebSocket<S, K>,
    /// The most changes of limits in a schedule that the session compiles without asking a worker.
    most_of_own: Option<u64>,
    /// The message that came while the session waited, or the end of the socket.
    kept: Option<Result<Incoming, Ended>>,
}

impl<'s, S: Read + Write + Watched + Drop, K: MaskKeys + Drop, R> WatchedSocket<'s, S, K, R> {
    /// Makes the watched socket. The session compiles a schedule of at most `most_of_own` changes
    /// of limits itself. With none, it first tries to send each schedule to a worker.
    pub fn new(
        rt: &'s R,
        socket: &'s mut WebSocket<S, K>,
        most_of_own: Option<u64>,
    ) -> WatchedSocket<'s, S, K, R> {
        WatchedSocket {
            rt,
            socket,
            most_of_own,
            kept: None,
        }
    }

    /// Returns the socket itself.
    pub fn websocket(&mut self) -> &mut WebSocket<S, K> {
        self.socket
    }

    /// Returns whether a message or the end is kept that isn't served yet.
    pub fn has_kept(&self) -> bool {
        self.kept.is_some()
    }

    /// Returns the next message of a session: the one kept while it waited for a schedule, once, or
    /// the next that is read.
    fn next_in_order(&mut self) -> Result<Incoming, Ended>
        ensures in_order { IfSome self.old.kept (λ kept. result ≡ kept) }
        ensures once { self.new.kept ≡ None }
    {
        if let Some(kept) = self.kept.take() {
            return kept;
        }
        self.read()
    }

    /// Reads the next message of a session from its WebSocket, and reports the message's end to the
    /// stream.
    fn read(&mut self) -> Result<Incoming, Ended>
        ensures { self.new.kept ≡ self.old.kept }
    {
        let incoming = read_next(self.socket)?;
        match &incoming {
            Incoming::Text(_) | Incoming::Binary => self.socket.get_mut().end_message(),
            Incoming::Control(bytes) => self.socket.get_mut().end_control(*bytes),
            Incoming::Nothing => {}
        }
        Ok(incoming)
    }

    /// Polls a session's WebSocket while it waits for a schedule, unless a message is kept. Returns
    /// false if the client is gone.
    fn look(&mut self) -> bool
        ensures { IfSome self.old.kept (λ kept. self.new.kept ≡ Some kept) }
    {
        // One message is kept and no more: the client's next bytes wait in its socket, and take no
        // memory here.
        if self.kept.is_none() {
            self.kept = self.seen();
        }
        !matches!(self.kept, Some(Err(_)))
    }

    /// Reads the first message that has come while a session waits for a schedule, or the end of
    /// its WebSocket, if either has.
    fn seen(&mut self) -> Option<Result<Incoming, Ended>> {
        if !self.socket.get_mut().begin_look() {
            return None;
        }
        let mut seen = None;
        for _frame in 0..MOST_FRAMES {
            match self.read() {
                Ok(Incoming::Nothing) => break,
                Ok(Incoming::Control(_) | Incoming::Binary) => {}
                other => {
                    seen = Some(other);
                    break;
                }
            }
        }
        // Sends the pongs. If that fails, the next read or write reports the error.
        let _ = self.socket.flush();
        if self.socket.get_mut().end_look() {
            seen
        } else {
            seen.or(Some(Err(Ended::Broken)))
        }
    }
}

impl<S: Read + Write + Watched + Drop, K: MaskKeys + Drop, R: Wait + Clock> SessionSocket
    for WatchedSocket<'_, S, K, R> {
    type Stream = S;

    type Keys = K;

    fn websocket(&mut self) -> &mut WebSocket<S, K> {
        self.socket
    }

    fn next(&mut self) -> Result<Incoming, Ended> {
        self.next_in_order()
    }

    /// Fails if the socket was polled while the session waited for a schedule, and its client was
    /// gone.
    fn still_there(&self) -> Result<(), Ended> {
        match self.kept {
            Some(Err(ended)) => Err(ended),
            _ => Ok(()),
        }
    }
}

impl<S: Read + Write + Watched + Drop, K: MaskKeys + Drop, R: Wait + Clock> Waiting
    for WatchedSocket<'_, S, K, R> {
    /// Sends a job if the workers have room now. The session compiles a job of little work itself.
    fn send_job<W: Wait>(&mut self, rt: &W, jobs: Jobs<'_>, job: Job) -> Sending {
        let work = short_work(&job);
        if let (Some(work), Some(most)) = (work, self.most_of_own) {
            if work <= most {
                return Sending::Own(job);
            }
        }
        match jobs.try_send(rt, job, work.is_some()) {
            Ok(()) => Sending::Sent,
            Err(Unsent::NoWorker(back)) => Sending::Own(back),
            Err(Unsent::NoRoom(back)) => Sending::NoRoom(back),
        }
    }

    /// Waits for the answer to a schedule request, and polls the socket from time to time. Returns
    /// none if the client is gone.
    fn until_answered<'b, W: Wait, C: Ledger, A: Ledger, N: ListName>(
        &mut self,
        _rt: &W,
        shared: &'b Shared<C, A, N>,
        number: u64,
    ) -> Option<MutexGuard<'b, Book<C, A, N>>> {
        let mut time = FIRST_WAIT;
        for _turn in self.rt.forever() {
            let answered = shared.until_answered_within(
                self.rt,
                number,
                Duration::from_millis(time),
            );
            if answered.is_some() {
                return answered;
            }
            if !self.look() {
                return None;
            }
            time = NEXT_WAIT;
        }
        unreachable!()
    }
}
