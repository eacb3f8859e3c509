//! A server's end of a stream in memory, which is polled.

use std::io::{self, ErrorKind, Read, Write};
use world::Watched;

#[derive(Drop)]
pub(crate) struct Stream<'a> {
    /// The bytes that have come.
    pub(crate) first: &'a [u8],
    /// The bytes that come after those, before the stream ends.
    pub(crate) later: &'a [u8],
    /// Whether the later bytes come only once the stream is polled.
    pub(crate) waits: bool,
    pub(crate) output: &'a mut Vec<u8>,
}

impl Watched for Stream<'_> {
    fn begin_look(&mut self) -> bool {
        self.waits = false;
        true
    }
}

impl Read for Stream<'_> {
    fn read(&mut self, buf: &mut [u8]) -> io::Result<usize> {
        if !self.first.is_empty() {
            return self.first.read(buf);
        }
        if self.waits {
            return Err(io::Error::from(ErrorKind::WouldBlock));
        }
        self.later.read(buf)
    }
}

impl Write for Stream<'_> {
    fn write(&mut self, buf: &[u8]) -> io::Result<usize> {
        self.output.write(buf)
    }

    fn flush(&mut self) -> io::Result<()> {
        Ok(())
    }
}
