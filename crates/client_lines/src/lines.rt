//! The lines of standard input.

use crate::fault::ClientFault;
use std::alloc::Global;
use std::io::{BufRead, BufReader, ErrorKind, Read};

/// The lines of a reader, one after another. They end with LF; a CR before it is dropped.
#[derive(Drop)]
pub struct Lines<R: Read> {
    reader: BufReader<R>,
    line: Vec<u8>,
    number: u64,
}

impl<R: Read + Drop> Lines<R> {
    pub fn new(alloc: Global, reader: R) -> Result<Lines<R>, ClientFault> {
        let Ok(reader) = BufReader::new(alloc, reader) else {
            return Err(ClientFault::OutOfMemory);
        };
        Ok(Lines {
            reader,
            line: Vec::new(alloc),
            number: 0,
        })
    }

    /// Reads the next line that isn't empty. Returns whether there was one.
    pub fn advance(&mut self) -> Result<bool, ClientFault> {
        // The loop has a bound, since a function has to return unless it may wait.
        for _empty in 0..u64::MAX {
            self.line.clear();
            match self.reader.read_until(b'\n', &mut self.line) {
                Ok(0) => return Ok(false),
                Ok(_) => {}
                Err(error) if error.kind() == ErrorKind::OutOfMemory => {
                    return Err(ClientFault::OutOfMemory);
                }
                Err(_) => return Err(ClientFault::Read),
            }
            self.number = self.number.saturating_add(1);
            if !self.bytes().is_empty() {
                return Ok(true);
            }
        }
        Ok(false)
    }

    /// Returns the number of the line read last, from 1 on. Empty lines count.
    pub fn number(&self) -> u64 {
        self.number
    }

    /// Returns the text of that line, if it is UTF-8.
    pub fn text(&self) -> Option<&str> {
        str::from_utf8(self.bytes()).ok()
    }

    /// Returns the bytes of the line that a client command read last from standard input, without
    /// its LF and a CR before it.
    fn bytes(&self) -> &[u8] {
        let line = self.line.as_slice();
        let line = line.strip_suffix(b"\n").unwrap_or(line);
        line.strip_suffix(b"\r").unwrap_or(line)
    }
}
