//! A connection of the status port, which has to end by a deadline.

use std::io;
use std::io::{ErrorKind, Read, Write};
use std::net::TcpStream;
use std::rt::Clock;
use std::time::{Duration, Instant};

/// A stream whose reads and writes end at a deadline, whatever its client does.
#[derive(Drop)]
pub struct StatusStream<'a, R> {
    pub rt: &'a R,
    pub stream: &'a TcpStream,
    pub deadline: Instant,
}

impl<R: Clock> StatusStream<'_, R> {
    /// Returns the time left until the deadline of the server's connection to a client of the
    /// status port, or the error `TimedOut`.
    fn left(&self) -> io::Result<Duration> {
        let now = Instant::now(self.rt)?;
        match self.deadline.checked_duration_since(now) {
            Some(left) if !left.is_zero() => Ok(left),
            _ => Err(io::Error::from(ErrorKind::TimedOut)),
        }
    }
}

impl<R: Clock> Read for StatusStream<'_, R> {
    fn read(&mut self, buf: &mut [u8]) -> io::Result<usize> {
        // Set for each read: with one timeout for all, a client could send a byte now and then and
        // never meet the deadline.
        let left = self.left()?;
        self.stream.set_read_timeout(Some(left))?;
        let mut stream = self.stream;
        stream.read(buf)
    }
}

impl<R: Clock> Write for StatusStream<'_, R> {
    fn write(&mut self, buf: &[u8]) -> io::Result<usize> {
        let left = self.left()?;
        self.stream.set_write_timeout(Some(left))?;
        let mut stream = self.stream;
        stream.write(buf)
    }

    /// Does nothing, since `write` keeps no bytes back.
    fn flush(&mut self) -> io::Result<()> {
        Ok(())
    }
}
