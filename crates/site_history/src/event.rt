//! The events of a site's history, and those of a script's line.

use messages::{Call, Side};
use ocpp_scalars::Instant;
use replay::{PlayedLine, PointChange, PrintedLine, ScriptLine};
use texts::SentText;

/// Something that happened at a point.
#[derive(Clone, Copy)]
pub struct Event<'a> {
    /// The number of its line, from 1: in a script, or in the output of `central journal`.
    pub line: u64,
    pub moment: Instant,
    /// The identity of the point.
    pub point: &'a str,
    pub kind: EventKind<'a>,
}

/// The kind of an event.
#[derive(Clone, Copy)]
pub enum EventKind<'a> {
    /// A message of this side changed something. The name is that of the operator's key, if the
    /// journal has it.
    Message {
        sender: Side,
        name: Option<&'a str>,
        frame: &'a str,
    },
    /// The point's reply confirmed the call in flight. In a script an audit's reply is judged with
    /// it.
    Reply {
        frame: &'a str,
    },
    /// The point's reply to its audit was judged, after that reply's own event.
    Verdict,
    /// The first waiting call went out.
    Sent {
        call: &'a Call,
    },
}

/// Returns the message in a line of a script, if it has one.
pub fn message_in<'a, 'b>(played: &'a PlayedLine<'b>) -> Option<&'a SentText<'b>> {
    match &played.said {
        Some(Ok(ScriptLine::Text(sent) | ScriptLine::Hold(sent))) => Some(sent),
        _ => None,
    }
}

/// Returns the change that the message in a line of a script made, if it made one.
pub fn change_in<'a>(played: &'a PlayedLine<'_>) -> Option<Event<'a>> {
    let sent = message_in(played)?;
    let kind = match played.outcome.change {
        PointChange::Nothing => return None,
        PointChange::Confirmed => EventKind::Reply {
            frame: sent.frame(),
        },
        PointChange::Profiles
        | PointChange::Transaction
        | PointChange::Audit
        | PointChange::RemoteStart => EventKind::Message {
            sender: sent.sender(),
            name: None,
            frame: sent.frame(),
        },
    };
    Some(event_of(played, sent, kind))
}

/// Returns the call that went out after the message in a line of a script, if one did.
pub fn call_after<'a>(played: &'a PlayedLine<'_>) -> Option<Event<'a>> {
    let sent = message_in(played)?;
    let call = played.outcome.printed.iter().find_map(called)?;
    Some(event_of(played, sent, EventKind::Sent { call }))
}

/// Returns the call to a point in a line that playing a script prints, for the event in the site's
/// history that it was sent. `show` and `check` follow such events.
fn called(line: &PrintedLine) -> Option<&Call> {
    match line {
        PrintedLine::Call { call, .. } => Some(call),
        PrintedLine::Answer { .. } | PrintedLine::Held(_) | PrintedLine::Fault { .. } => None,
    }
}

/// Returns the event in a site's history that a line of a script brings by its message. `show`,
/// `check` and `call` follow these events.
fn event_of<'a>(played: &PlayedLine<'_>, sent: &'a SentText<'_>, kind: EventKind<'a>) -> Event<'a> {
    Event {
        line: played.number,
        moment: sent.moment(),
        point: sent.point(),
        kind,
    }
}
