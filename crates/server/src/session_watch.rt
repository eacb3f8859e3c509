//! Observations of a session: for the status of its site, and as lines for people.

use messages::{ActionKind, CallFault};
use ocpp_scalars::{Instant, Moments};
use server_core::{PointReply, Rejected};
use server_ports::Seats;
use session::{Breach, Context, Ended, SentCall, SessionCore, SessionEvent};
use site_status::{CallNumbers, Observation, RefusedMessage, SentMoment};
use std::alloc::{AllocError, Global};
use std::rt::Clock;
use std::sync::Wait;
use world::World;

/// The observer of a session of a point or of an operator.
#[derive(Drop)]
pub(crate) struct SessionWatch<'a, R> {
    pub(crate) seats: &'a Seats<R>,
    /// The place of its point in the site.
    pub(crate) place: usize,
    /// The link of a point. An operator has none.
    pub(crate) link: Option<u64>,
}

impl<R: Wait + Clock> SessionWatch<'_, R> {
    /// Records that a client's session has begun, for the site's status port and the server's lines
    /// on standard error.
    pub(crate) fn begin(&self, core: &SessionCore) {
        let seats = self.seats;
        seats.watch.begin(&seats.rt, self.link.is_some());
        if let (Some(link), Some(moment)) = (self.link, seats.clock.now()) {
            self.see(Observation::Connected { link, moment });
            self.say(core, Event::Connected);
        }
    }

    /// Records how a client's session has ended, for the site's status port and the server's lines
    /// on standard error.
    pub(crate) fn end(&self, core: &SessionCore, ended: Ended) {
        let seats = self.seats;
        seats.watch.end(&seats.rt, self.link.is_some());
        let Some(link) = self.link else {
            return;
        };
        let is_newest = seats.watch.leave(&seats.rt, self.place, link);
        let event = match ended {
            Ended::Breach(breach) if is_newest => Event::Breach(breach),
            _ if is_newest => Event::Lost,
            _ => Event::Superseded,
        };
        self.say(core, event);
    }

    /// Records a message of a client's session, with its event, for the site's status port and the
    /// server's lines on standard error.
    pub(crate) fn hear<W: World>(
        &self,
        context: &Context<'_, W>,
        core: &SessionCore,
        event: SessionEvent,
    ) {
        let Some(moment) = self.seats.clock.now() else {
            return;
        };
        if self.link.is_none() {
            if let SessionEvent::Added = event {
                self.see_calls(context, core, moment);
            }
            return;
        }
        self.see(Observation::Heard { moment });
        match event {
            SessionEvent::Boot => {
                self.say(core, Event::Booted);
                // Its profiles may have been installed again, which adds calls.
                self.see_calls(context, core, moment);
            }
            SessionEvent::Reply { call, rejection } => {
                let reply = PointReply {
                    call,
                    rejection,
                    moment,
                };
                self.hear_reply(core, reply);
            }
            SessionEvent::Refused(fault) => self.hear_refused(fault, moment),
            SessionEvent::Added | SessionEvent::Other => {}
        }
    }

    /// Records that the server's session sent a call to its point, for the site's status port.
    pub(crate) fn send(&self, call: SentCall) {
        if let Some(moment) = self.seats.clock.now() {
            self.see(Observation::Sent(SentMoment {
                number: call.number,
                action: call.action,
                moment,
            }));
        }
    }

    /// Reports on the server's standard error the fault with which a request of the session's point
    /// was answered. A fault in an operator's request isn't reported, since the operator sees the
    /// answer.
    pub(crate) fn refuse(&self, core: &SessionCore, fault: CallFault) {
        if self.link.is_some() {
            self.say_made(core, answered_with(self.seats.alloc, fault));
        }
    }

    /// Reports on the server's standard error that the call of this number has no reply from the
    /// session's point in time.
    pub(crate) fn give_up(&self, core: &SessionCore, call: u64) {
        self.say_made(core, without_reply(self.seats.alloc, call));
    }

    /// Records, from a session of the server, when a call was last added to its point, for the
    /// site's status port.
    fn see_calls<W: World>(&self, context: &Context<'_, W>, core: &SessionCore, moment: Instant) {
        let seats = self.seats;
        let book = context.shared.lock(context.rt);
        let numbers = match book.present().outbox_of(core.point_id().as_str()) {
            Some(outbox) => Some(CallNumbers::of(outbox)),
            None => None,
        };
        drop(book);
        if let Some(numbers) = numbers {
            seats
                .watch
                .see_calls(&seats.rt, self.place, numbers, moment);
        }
    }

    /// Records, from a session of the server, that a message of its point was refused, for the
    /// site's status port. An action that isn't implemented is no fault of the point.
    fn hear_refused(&self, fault: CallFault, moment: Instant) {
        if fault != CallFault::NotImplemented {
            self.see(Observation::Refused(RefusedMessage { fault, moment }));
        }
    }

    /// Records the reply of the session's point to a call, for the site's status port. Reports a
    /// rejection on the server's standard error.
    fn hear_reply(&self, core: &SessionCore, reply: PointReply) {
        let seats = self.seats;
        let call = reply.call;
        let said = reason_of(seats.alloc, &reply);
        let Some(Rejected { action }) = seats.watch.reply(&seats.rt, self.place, reply) else {
            return;
        };
        let what: Result<String, AllocError> = match said {
            Ok(reason) => rejected(seats.alloc, call, action, reason.as_str()),
            Err(AllocError) => Err(AllocError),
        };
        self.say_made(core, what);
    }

    /// Adds an observation of the session's point to those that the server keeps for the site's
    /// status port.
    fn see(&self, sighting: Observation) {
        let seats = self.seats;
        seats.watch.see(&seats.rt, self.place, sighting);
    }

    /// Reports an event of the session's point in a line on the server's standard error.
    fn say(&self, core: &SessionCore, event: Event) {
        let seats = self.seats;
        let who = core.point_id().as_str();
        seats
            .notices
            .say(&seats.rt, &seats.clock, who, event.name());
    }

    /// Reports a text about the session's point on the server's standard error, if memory sufficed
    /// to make the text.
    fn say_made(&self, core: &SessionCore, what: Result<String, AllocError>) {
        let seats = self.seats;
        let who = core.point_id().as_str();
        seats.notices.say_made(&seats.rt, &seats.clock, who, what);
    }
}

/// An event of a point's connection.
#[derive(Clone, Copy)]
enum Event {
    Connected,
    Booted,
    Lost,
    /// Its connection has ended, because it broke the protocol.
    Breach(Breach),
    /// Its earlier connection has ended. It has a later one.
    Superseded,
}

impl Event {
    /// Returns the words for an event of a point's connection in the server's line on standard
    /// error.
    fn name(self) -> &'static str {
        match self {
            Event::Connected => "connected",
            Event::Booted => "booted",
            Event::Lost => "lost",
            Event::Breach(Breach::TooLong) => "lost: its message was too long",
            Event::Breach(Breach::NotUtf8) => "lost: its message wasn't UTF-8",
            Event::Breach(Breach::Frame) => "lost: it broke the WebSocket protocol",
            Event::Superseded => "its earlier connection is closed",
        }
    }
}

/// Returns a copy of the reason why a point's reply rejects a call, for a line on the server's
/// standard error. The text is empty if the reply rejects none.
fn reason_of(alloc: Global, reply: &PointReply) -> Result<String, AllocError> {
    match &reply.rejection {
        Some(reason) => String::from_str(alloc, reason.as_str()),
        None => Ok(String::new(alloc)),
    }
}

/// Returns the text of the server's line on standard error that a point hasn't replied to the call
/// of this number in time.
fn without_reply(alloc: Global, call: u64) -> Result<String, AllocError> {
    format!(in alloc; "call {call} has no reply in time: its connection is closed")
}

/// Returns the text of the server's line on standard error that a point's request is answered with
/// a fault. It has the code, and the field or the refusal.
fn answered_with(alloc: Global, fault: CallFault) -> Result<String, AllocError> {
    let (code, description) = (fault.code(), fault.description());
    if description.is_empty() {
        format!(in alloc; "its message was answered {code}")
    } else {
        format!(in alloc; "its message was answered {code}, {description}")
    }
}

/// Returns the text of the server's line on standard error that a point rejected a call: its
/// number, its action and the reason.
fn rejected(
    alloc: Global,
    call: u64,
    action: Option<ActionKind>,
    reason: &str,
) -> Result<String, AllocError> {
    let mut what = format!(in alloc; "rejected call {call}")?;
    if let Some(action) = action {
        what.push_str(", ")?;
        what.push_str(action.name())?;
    }
    what.push_str(": ")?;
    what.push_str(reason)?;
    Ok(what)
}
