//! The message in a line of a script, as the checks read it.

use crate::audit_check::JudgedAudit;
use messages::{ActionKind, CallFault, Response, Side};
use ocpp_scalars::{Instant, Refusal};
use replay::{PlayedLine, PointChange, PrintedLine};
use site_history::Event;
use site_rules::Site;
use texts::SentText;

/// The second word of a line with a message.
#[derive(Clone, Copy, PartialEq, Eq)]
pub(crate) enum Sender {
    /// `operator`
    Operator,
    /// `point`
    Point,
    /// `hold`
    Hold,
}

impl Sender {
    /// Returns the sender of a message that `check` or `call` checks, an operator or a point, in a
    /// line of a script without a `hold`.
    pub(crate) fn of_side(side: Side) -> Sender {
        match side {
            Side::Operator => Sender::Operator,
            Side::Point => Sender::Point,
        }
    }

    /// Returns the side that sends a message that `check` or `call` checks: an operator, also in a
    /// `hold` line of a script, or a point.
    pub(crate) fn side(self) -> Side {
        match self {
            Sender::Operator | Sender::Hold => Side::Operator,
            Sender::Point => Side::Point,
        }
    }
}

/// A message in a line, and its outcome.
#[derive(Clone, Copy)]
pub(crate) struct LineMessage<'a> {
    pub site: &'a Site,
    pub moment: Instant,
    pub sender: Sender,
    /// The identity of the point.
    pub point: &'a str,
    pub frame: &'a str,
    /// The whole line.
    pub line: &'a str,
    /// The lines that `replay` prints for it.
    pub printed: &'a [PrintedLine],
    /// Whether the message confirmed the call in flight.
    pub confirms_call: bool,
    /// The point's audit, where the message confirmed a call.
    pub audit: Option<JudgedAudit>,
    /// The action of the call that the message confirmed.
    pub replies_to: Option<ActionKind>,
}

impl<'a> LineMessage<'a> {
    /// Makes the message of a script's line for the findings of `check` or `call`, with the output
    /// that `replay` prints for the line.
    pub(crate) fn new(
        site: &'a Site,
        played: &'a PlayedLine<'_>,
        sent: &'a SentText<'_>,
    ) -> LineMessage<'a> {
        LineMessage {
            site,
            moment: sent.moment(),
            sender: Sender::of_side(sent.sender()),
            point: sent.point(),
            frame: sent.frame(),
            line: utf8_of(played.line).0,
            printed: played.outcome.printed.as_slice(),
            confirms_call: played.outcome.change == PointChange::Confirmed,
            audit: None,
            replies_to: None,
        }
    }

    /// Makes the message of a journal's event for the findings of `check`. It changed something, so
    /// it has no refusal as a script's message may.
    pub(crate) fn noted(
        site: &'a Site,
        event: &Event<'a>,
        sender: Sender,
        frame: &'a str,
    ) -> LineMessage<'a> {
        LineMessage {
            site,
            moment: event.moment,
            sender,
            point: event.point,
            frame,
            line: frame,
            printed: &[],
            confirms_call: false,
            audit: None,
            replies_to: None,
        }
    }

    /// Returns the reason of a `Rejected`, if that is the answer to this message of a script. A
    /// finding of `check` or `call` names it.
    pub(crate) fn rejection(&self) -> Option<Refusal> {
        for line in self.printed {
            if let PrintedLine::Answer {
                response: Response::Rejected(refusal),
                ..
            } = line
            {
                return Some(*refusal);
            }
        }
        None
    }

    /// Returns the reason of a `Rejected` or a CALLERROR, if that is the answer to this message of
    /// a script. A finding of `check` or `call` names it.
    pub(crate) fn refusal(&self) -> Option<Refusal> {
        for line in self.printed {
            let PrintedLine::Answer { response, .. } = line else {
                continue;
            };
            if let Response::Rejected(refusal)
            | Response::Error(CallFault::Refused(refusal)) = response
            {
                return Some(*refusal);
            }
        }
        None
    }
}

/// Returns a script's line as a text for the findings of `check` or `call`, empty if it isn't
/// UTF-8. Also returns the number of bytes up to the first that isn't UTF-8.
pub(crate) fn utf8_of(line: &[u8]) -> (&str, usize) {
    match std::str::from_utf8(line) {
        Ok(text) => (text, line.len()),
        Err(error) => ("", error.valid_up_to()),
    }
}
