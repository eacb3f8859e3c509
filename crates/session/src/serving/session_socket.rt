//! The socket of a session.

use crate::serving::ended::Ended;
use crate::serving::received::Incoming;
use crate::serving::sockets::read_next;
use crate::serving::waiting::{Sending, Waiting};
use compile_pool::Jobs;
use ghost_list::ListName;
use std::io::{Read, Write};
use std::sync::ledger::Ledger;
use std::sync::{MutexGuard, Wait};
use tungstenite::{MaskKeys, WebSocket};
use version_store::{Book, Job, Shared};

/// The socket of a session.
pub trait SessionSocket: Waiting {
    type Stream: Read + Write + Drop;
    /// Masks the frames that a client sends.
    type Keys: MaskKeys + Drop;

    /// Returns the WebSocket through which a session's messages leave.
    fn websocket(&mut self) -> &mut WebSocket<Self::Stream, Self::Keys>;

    /// Waits for the next message or frame from the client of a session.
    fn next(&mut self) -> Result<Incoming, Ended>;

    /// Fails if the client of a session is known to be gone.
    fn still_there(&self) -> Result<(), Ended>;
}

impl<S: Read + Write + Drop, K: MaskKeys + Drop> SessionSocket for WebSocket<S, K> {
    type Stream = S;

    type Keys = K;

    fn websocket(&mut self) -> &mut WebSocket<S, K> {
        self
    }

    fn next(&mut self) -> Result<Incoming, Ended> {
        read_next(self)
    }

    /// Never fails: a session doesn't poll this socket while it waits for a schedule.
    fn still_there(&self) -> Result<(), Ended> {
        Ok(())
    }
}

/// A socket that its session doesn't poll while it waits.
impl<S, K> Waiting for WebSocket<S, K> {
    /// Waits until the workers have room for a job. The session compiles it only if no worker is
    /// left.
    fn send_job<R: Wait>(&mut self, rt: &R, jobs: Jobs<'_>, job: Job) -> Sending {
        match jobs.send(rt, job) {
            Ok(()) => Sending::Sent,
            Err(back) => Sending::Own(back),
        }
    }

    /// Waits for the answer to a schedule request, even if the client leaves before.
    fn until_answered<'s, R: Wait, C: Ledger, A: Ledger, N: ListName>(
        &mut self,
        rt: &R,
        shared: &'s Shared<C, A, N>,
        number: u64,
    ) -> Option<MutexGuard<'s, Book<C, A, N>>> {
        Some(shared.until_answered(rt, number))
    }
}
