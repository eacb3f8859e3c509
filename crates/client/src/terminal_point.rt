//! A simulated charge point that does what lines of text say.

use crate::sockets::{Received, close, receive, send};
use client_lines::{ClientFault, Lines, PointLine, point_line};
use ocpp_scalars::{Instant, Moments};
use sim_point_core::{SimPoint, SimStep};
use std::alloc::Global;
use std::io::{Read, Write};
use std::net::OpenStream;
use std::rt::Clock;
use std::sync::Wait;
use std::time;
use std::time::Duration;
use tungstenite::{MaskKeys, WebSocket};

/// A connected simulated charge point. It writes the messages that it sends and receives, each on a
/// line of its own after `sent` or `got`.
#[derive(Drop)]
pub struct TerminalPoint<'a, S: Read + Write, K: MaskKeys, W: Write> {
    pub alloc: Global,
    pub socket: WebSocket<S, K>,
    pub point: SimPoint,
    pub writer: &'a mut W,
}

impl<S: Read + Write + OpenStream + Drop, K: MaskKeys + Drop, W: Write> TerminalPoint<'_, S, K, W> {
    /// Follows each line, and closes the connection after the last one. An accepted remote start
    /// comes before the next line. A line that isn't valid or whose step makes no call is written
    /// as `! NUMBER NAME`. Returns how many of these there were.
    pub fn play<R: Wait + Clock, I: Read + Drop, M: Moments>(
        &mut self,
        rt: &R,
        lines: &mut Lines<I>,
        clock: &M,
    ) -> Result<u64, ClientFault> {
        let mut faults = 0u64;
        for _line in rt.forever() {
            if !lines.advance()? {
                break;
            }
            if let Some(name) = self.take_line(rt, lines.text(), clock)? {
                write_fault(self.writer, lines.number(), name)?;
                faults = faults.saturating_add(1);
            }
        }
        close(&mut self.socket);
        Ok(faults)
    }

    /// Does what a line on standard input asks of `point`'s simulated charge point. Returns the
    /// name of the line's fault, if it has one.
    fn take_line<R: Wait + Clock, M: Moments>(
        &mut self,
        rt: &R,
        text: Option<&str>,
        clock: &M,
    ) -> Result<Option<&'static str>, ClientFault> {
        let Some(text) = text else {
            return Ok(Some("BadText"));
        };
        match point_line(self.alloc, text)? {
            Some(PointLine::Step(step)) => self.make_step(rt, step, clock),
            Some(PointLine::Pause(seconds)) => {
                self.pause(rt, seconds, clock)?;
                Ok(None)
            }
            None => Ok(Some("BadLine")),
        }
    }

    /// Makes the call of a step that a line of `point`'s standard input asks for, and then the
    /// remote starts that came meanwhile. Returns the name of the fault, if the step makes no call.
    fn make_step<R: Wait, M: Moments>(
        &mut self,
        rt: &R,
        step: SimStep,
        clock: &M,
    ) -> Result<Option<&'static str>, ClientFault> {
        if self.point.add_step(step).is_err() {
            return Err(ClientFault::OutOfMemory);
        }
        if !self.make_call(rt, clock)? {
            return Ok(Some("NoCall"));
        }
        self.make_starts(rt, clock)?;
        Ok(None)
    }

    /// Sends the StartTransactions of the remote starts that `point`'s simulated point has
    /// accepted. These are the only steps left.
    fn make_starts<R: Wait, M: Moments>(&mut self, rt: &R, clock: &M) -> Result<(), ClientFault> {
        for _start in rt.forever() {
            if !self.make_call(rt, clock)? {
                return Ok(());
            }
        }
        unreachable!()
    }

    /// Sends the call of the next step of `point`'s simulated point over its connection, and waits
    /// for the reply. Returns whether a step makes one.
    fn make_call<R: Wait, M: Moments>(&mut self, rt: &R, clock: &M) -> Result<bool, ClientFault> {
        let Ok(call) = self.point.next_call(present(clock)?) else {
            return Err(ClientFault::OutOfMemory);
        };
        let Some(call) = call else {
            return Ok(false);
        };
        self.send(call.as_str())?;
        for _message in rt.forever() {
            if !self.point.is_waiting() {
                break;
            }
            self.take_message(clock)?;
        }
        Ok(true)
    }

    /// Lets `point`'s simulated point answer the messages that come over its connection in this
    /// many seconds, and make the remote starts among them.
    fn pause<R: Wait + Clock, M: Moments>(
        &mut self,
        rt: &R,
        seconds: u64,
        clock: &M,
    ) -> Result<(), ClientFault> {
        let Ok(start) = time::Instant::now(rt) else {
            return Err(ClientFault::Clock);
        };
        for _message in rt.forever() {
            let Ok(elapsed) = start.elapsed(rt) else {
                return Err(ClientFault::Clock);
            };
            let Some(left) = Duration::from_secs(seconds).checked_sub(elapsed) else {
                break;
            };
            // A read timeout of zero is an error.
            if left.is_zero() {
                break;
            }
            self.wait_at_most(Some(left))?;
            self.take_message(clock)?;
            // The remote starts wait for their replies without a timeout.
            self.wait_at_most(None)?;
            self.make_starts(rt, clock)?;
        }
        Ok(())
    }

    /// Sets the longest time that a read from the connection of `point`'s simulated point waits for
    /// a message.
    fn wait_at_most(&mut self, time: Option<Duration>) -> Result<(), ClientFault> {
        match self.socket.get_ref().set_read_timeout(time) {
            Ok(()) => Ok(()),
            Err(_) => Err(ClientFault::Socket),
        }
    }

    /// Takes the next message from the connection of `point`'s simulated point, if one comes within
    /// the time of a read, and answers it.
    fn take_message<M: Moments>(&mut self, clock: &M) -> Result<(), ClientFault> {
        let Received::Text(text) = receive(&mut self.socket)? else {
            return Ok(());
        };
        write_text(self.writer, "got", text.as_str())?;
        match self.point.on_text(present(clock)?, text.as_str()) {
            Ok(Some(answer)) => self.send(answer.as_str()),
            Ok(None) => Ok(()),
            Err(_) => Err(ClientFault::OutOfMemory),
        }
    }

    /// Sends a message of `point`'s simulated point to the central system, and writes it as a line
    /// of output after `sent`.
    fn send(&mut self, text: &str) -> Result<(), ClientFault> {
        send(self.alloc, &mut self.socket, text)?;
        write_text(self.writer, "sent", text)
    }
}

/// Returns the present time for the calls and answers of `point`'s simulated point, or a fault if
/// there is no clock.
fn present<M: Moments>(clock: &M) -> Result<Instant, ClientFault> {
    match clock.now() {
        Some(now) => Ok(now),
        None => Err(ClientFault::Clock),
    }
}

/// Writes a message of `point`'s simulated point as a line of output, after `sent` or `got`.
fn write_text<W: Write>(writer: &mut W, what: &str, text: &str) -> Result<(), ClientFault> {
    match writeln!(writer, "{what} {text}").and_then(|()| writer.flush()) {
        Ok(()) => Ok(()),
        Err(_) => Err(ClientFault::Write),
    }
}

/// Writes the fault of a line on standard input for `point`'s simulated point as `! NUMBER NAME`.
fn write_fault<W: Write>(writer: &mut W, number: u64, name: &str) -> Result<(), ClientFault> {
    match writeln!(writer, "! {number} {name}").and_then(|()| writer.flush()) {
        Ok(()) => Ok(()),
        Err(_) => Err(ClientFault::Write),
    }
}
