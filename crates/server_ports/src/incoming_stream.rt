//! The stream of a connection: it has deadlines for its client, and another thread may shut it.

ghost use Rattle.std.specs.Counts.{IsPrefixLen};
ghost use Rattle.std.specs.Prelude.{IfOk};

use server_core::{
    LONGEST_HANDSHAKE, LONGEST_MESSAGE, LONGEST_WRITE, LongMessagePlace, LongMessages,
    SharedStream, TICK, seconds_since, shut,
};
use std::alloc::Global;
use std::io::{ErrorKind, Read, Write};
use std::net::TcpStream;
use std::rt::Clock;
use std::sync::{Arc, Wait};
use std::time::{Duration, Instant};
use std::{io, thread};
use world::Watched;

/// A message needs a place for its rest once this many bytes of it have come.
const LONGEST_WITHOUT_PLACE: usize = 65_536;

/// The header of a client's control frame in bytes, with its mask (RFC 6455, section 5.2).
const CONTROL_HEAD: usize = 6;

/// The read timeout while a session polls its stream, in milliseconds. A read of a long message
/// without a place waits for a tick all the same.
const LOOK: u64 = 1;

/// The most reads in one poll.
// A client that sends without pause would otherwise keep its session in the poll.
const READS_OF_LOOK: u32 = 64;

/// The most times that a read of a handshake is repeated because a signal interrupted it.
const MOST_SIGNALS: u32 = 1_000;

/// The stream of a connection. Its handshake, and later each message, has to be complete by a
/// deadline, so that a client can't hold up a seat by a byte now and then. With its first long
/// message it takes one of the places that all connections share. It keeps that place, since the
/// buffers of the message keep their memory.
#[derive(Drop)]
pub struct IncomingStream<'a, R> {
    rt: &'a R,
    stream: SharedStream,
    places: &'a LongMessages,
    place: LongMessagePlace,
    /// The deadline of the handshake, until that is complete.
    handshake: Option<Instant>,
    /// The time of the last byte, or of the start of the handshake if none came.
    heard: Instant,
    unfinished: Option<Unfinished>,
    /// The time at which a write began that wasn't complete, until all of it is sent.
    untaken: Option<Instant>,
    /// The number of reads left in this poll, while its session polls it.
    reads_left: Option<u32>,
    /// Whether the last read filled its buffer: then most often more bytes wait.
    is_ahead: bool,
}

/// A message that isn't complete.
#[derive(Clone, Copy)]
struct Unfinished {
    /// The time of its first byte.
    begun: Instant,
    bytes: usize,
}

impl<'a, R: Clock + Wait> IncomingStream<'a, R> {
    /// Returns the stream of a connection whose handshake begins now, or none if the system can't
    /// set a deadline for it.
    pub fn new(
        rt: &'a R,
        alloc: Global,
        places: &'a LongMessages,
        stream: TcpStream,
    ) -> Option<IncomingStream<'a, R>> {
        let now = Instant::now(rt).ok()?;
        let deadline = now.checked_add(Duration::from_secs(LONGEST_HANDSHAKE))?;
        // Without Nagle's algorithm an answer leaves at once. If that can't be set, it leaves
        // later.
        let _ = stream.set_nodelay(true);
        let longest_write = Duration::from_secs(LONGEST_WRITE);
        stream.set_write_timeout(Some(longest_write)).ok()?;
        let stream = Arc::new(alloc, stream).ok()?;
        Some(IncomingStream {
            rt,
            stream,
            places,
            place: LongMessagePlace::Unasked,
            handshake: Some(deadline),
            heard: now,
            unfinished: None,
            untaken: None,
            reads_left: None,
            is_ahead: false,
        })
    }

    /// Ends the handshake, which is complete: from now on a read waits for a tick. Returns false if
    /// the system doesn't allow that.
    pub fn end_handshake(&mut self) -> bool {
        self.handshake = None;
        // The bytes of the handshake were counted as those of a message.
        self.unfinished = None;
        let tick = Duration::from_secs(TICK);
        self.stream.set_read_timeout(Some(tick)).is_ok()
    }

    /// Returns whether the connection should end: it has a place for which another one waits, and
    /// no unfinished message.
    pub fn is_in_the_way(&self) -> bool {
        self.place == LongMessagePlace::Taken
            && self.unfinished.is_none()
            && self.places.are_wanted(self.rt)
    }

    /// Returns whether its client sends faster than it is served, judged by the last read.
    pub fn is_ahead(&self) -> bool {
        self.is_ahead
    }

    /// Ends the connection, and frees its place.
    pub fn end(&mut self) {
        self.places.leave(self.rt, self.place);
        self.place = LongMessagePlace::Unasked;
    }

    /// Returns the seconds since the last byte.
    pub fn silence(&self) -> u64 {
        seconds_since(self.rt, self.heard)
    }

    /// Returns a clone of the stream, by which another thread may shut it.
    pub fn share(&self) -> Option<SharedStream> {
        Arc::try_clone(&self.stream).ok()
    }

    /// Limits the next read from a client's connection to the server to the time left until the
    /// deadline of its WebSocket handshake.
    fn bound_handshake(&self, deadline: Instant) -> io::Result<()> {
        let now = Instant::now(self.rt)?;
        match deadline.checked_duration_since(now) {
            Some(left) if !left.is_zero() => self.stream.set_read_timeout(Some(left)),
            _ => Err(io::Error::from(ErrorKind::TimedOut)),
        }
    }

    /// Allows another read of a client's unfinished message to the server. Fails if it is overdue,
    /// or is long and has no place among the long ones. While it waits for a place, its deadline
    /// moves with the time.
    fn bound_message(&mut self, message: Unfinished) -> io::Result<()> {
        if seconds_since(self.rt, message.begun) >= LONGEST_MESSAGE {
            return Err(io::Error::from(ErrorKind::TimedOut));
        }
        if message.bytes < LONGEST_WITHOUT_PLACE || self.place == LongMessagePlace::Taken {
            return Ok(());
        }
        self.place = self.places.ask(self.rt, self.place);
        if self.place == LongMessagePlace::Taken {
            return Ok(());
        }
        // Nothing is read meanwhile, so the rest of the message takes no memory here. Its deadline
        // moves on, since its client doesn't cause this wait.
        let before = Instant::now(self.rt)?;
        thread::sleep(self.rt, Duration::from_secs(TICK));
        let waited = Instant::now(self.rt)?.checked_duration_since(before);
        if let Some(begun) = message.begun.checked_add(waited.unwrap_or_default()) {
            self.unfinished = Some(Unfinished { begun, ..message });
        }
        Err(io::Error::from(ErrorKind::WouldBlock))
    }

    /// Counts a read from a client's connection to the server while the session polls it. Fails
    /// with `WouldBlock` once no read is left.
    fn count_read(&mut self) -> io::Result<()> {
        match self.reads_left {
            None => Ok(()),
            Some(0) => Err(io::Error::from(ErrorKind::WouldBlock)),
            Some(left) => {
                self.reads_left = Some(left - 1);
                Ok(())
            }
        }
    }

    /// Reads a part of a client's WebSocket handshake with the server by its deadline. If a signal
    /// interrupts the read, as when the process is stopped and continued, the read is repeated.
    fn read_of_handshake(&mut self, deadline: Instant, buf: &mut [u8]) -> io::Result<usize>
        ensures { IfOk result (λ bytes. IsPrefixLen bytes buf.new) }
    {
        for _signal in 0..MOST_SIGNALS {
            self.bound_handshake(deadline)?;
            match self.read_once(buf) {
                Err(error) if error.kind() == ErrorKind::Interrupted => {}
                read => return read,
            }
        }
        Err(io::Error::from(ErrorKind::TimedOut))
    }

    /// Reads once from a client's connection to the server, and records when the bytes came.
    fn read_once(&mut self, buf: &mut [u8]) -> io::Result<usize>
        ensures { IfOk result (λ bytes. IsPrefixLen bytes buf.new) }
    {
        let mut stream: &TcpStream = &self.stream;
        self.is_ahead = false;
        let bytes = stream.read(buf)?;
        self.is_ahead = bytes == buf.len();
        if bytes > 0 {
            self.hear(bytes)?;
        }
        Ok(bytes)
    }

    /// Records that this many bytes of a client's message came on its connection to the server just
    /// now.
    fn hear(&mut self, bytes: usize) -> io::Result<()> {
        let now = Instant::now(self.rt)?;
        self.heard = now;
        let (begun, before) = match self.unfinished {
            Some(message) => (message.begun, message.bytes),
            None => (now, 0),
        };
        self.unfinished = Some(Unfinished {
            begun,
            bytes: before.saturating_add(bytes),
        });
        Ok(())
    }
}

impl<R: Clock + Wait> Watched for IncomingStream<'_, R> {
    fn begin_look(&mut self) -> bool {
        let look = Duration::from_millis(LOOK);
        let can_look = self.stream.set_read_timeout(Some(look)).is_ok();
        if can_look {
            self.reads_left = Some(READS_OF_LOOK);
        }
        can_look
    }

    fn end_look(&mut self) -> bool {
        self.reads_left = None;
        let tick = Duration::from_secs(TICK);
        self.stream.set_read_timeout(Some(tick)).is_ok()
    }

    /// Notes that the message being read from a client's connection is complete.
    fn end_message(&mut self) {
        self.unfinished = None;
    }

    /// Notes a control frame on a client's connection, perhaps within a message, and takes its
    /// bytes off those of the message.
    fn end_control(&mut self, payload: usize) {
        let Some(message) = self.unfinished else {
            return;
        };
        let bytes = message
            .bytes
            .saturating_sub(payload.saturating_add(CONTROL_HEAD));
        // Control frames may come between the fragments of a message (RFC 6455, section 5.4), and
        // must not end its deadline.
        self.unfinished = if bytes == 0 {
            None
        } else {
            Some(Unfinished { bytes, ..message })
        };
    }
}

impl<R: Clock + Wait> Read for IncomingStream<'_, R> {
    fn read(&mut self, buf: &mut [u8]) -> io::Result<usize> {
        self.count_read()?;
        if let Some(deadline) = self.handshake {
            return self.read_of_handshake(deadline, buf);
        }
        if let Some(message) = self.unfinished {
            self.bound_message(message)?;
        }
        self.read_once(buf)
    }
}

impl<R: Clock> Write for IncomingStream<'_, R> {
    /// Writes to a client's connection, with one deadline for a write and its continuations. If the
    /// client doesn't read, a write waits and sends a part, and the next one would wait as long
    /// again.
    fn write(&mut self, buf: &[u8]) -> io::Result<usize> {
        let begun = match self.untaken {
            None => Instant::now(self.rt)?,
            Some(begun) if seconds_since(self.rt, begun) < LONGEST_WRITE => begun,
            Some(_) => return Err(io::Error::from(ErrorKind::TimedOut)),
        };
        let mut stream: &TcpStream = &self.stream;
        let written = stream.write(buf);
        self.untaken = match &written {
            Ok(bytes) if *bytes == buf.len() => None,
            _ => Some(begun),
        };
        match written {
            // Its client doesn't read. After a WouldBlock the socket would try the write once more.
            Err(error) if error.kind() == ErrorKind::WouldBlock => {
                Err(io::Error::from(ErrorKind::TimedOut))
            }
            written => written,
        }
    }

    fn flush(&mut self) -> io::Result<()> {
        Ok(())
    }
}
