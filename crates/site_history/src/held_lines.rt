//! The lines of a script that held a request.

use crate::event::message_in;
use replay::{PlayedLine, PrintedLine};
use std::alloc::{AllocError, Global};

/// A request that a line of a script held.
#[derive(Drop)]
pub struct HeldLine {
    /// The number of the request.
    pub request: u64,
    /// The line's number.
    pub line: u64,
    /// The identity of the point whose schedule is requested.
    pub point: String,
}

/// The lines so far that held a request, released or not.
#[derive(Drop)]
pub struct HeldLines {
    alloc: Global,
    lines: Vec<HeldLine>,
}

impl HeldLines {
    /// Returns those before the first line: none.
    pub fn new(alloc: Global) -> HeldLines {
        HeldLines {
            alloc,
            lines: Vec::new(alloc),
        }
    }

    /// Reads the next line of the script.
    pub fn read(&mut self, played: &PlayedLine<'_>) -> Result<(), AllocError> {
        let Some(sent) = message_in(played) else {
            return Ok(());
        };
        for printed in &played.outcome.printed {
            if let PrintedLine::Held(request) = printed {
                self.lines.push(HeldLine {
                    request: *request,
                    line: played.number,
                    point: String::from_str(self.alloc, sent.point())?,
                })?;
            }
        }
        Ok(())
    }

    /// Returns the line that held the request of this number, if one did.
    pub fn line_of(&self, request: u64) -> Option<&HeldLine> {
        self.lines.iter().find(|held| held.request == request)
    }
}
