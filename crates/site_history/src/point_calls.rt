//! The progress of a charge point's calls, event by event.

use crate::event::{Event, EventKind};
use crate::reply::rejection_in;
use messages::{ActionKind, Call, push_payload_fields, push_subject};
use ocpp_scalars::Instant;
use ocppj_frame::ReadingMemory;
use site_core::Outbox;
use std::alloc::{AllocError, Global};

/// A call that went out.
#[derive(Drop)]
pub struct TracedCall {
    pub number: u64,
    /// Its action and the profiles that it is about, in words.
    pub what: String,
    pub action: ActionKind,
    /// The fields of its payload, as JSON with commas between them.
    pub fields: String,
    /// The line after which it went out.
    pub line: u64,
    /// When it was added; `None` for call 0, which waits from the start.
    pub added: Option<Instant>,
}

/// A call that hasn't gone out.
#[derive(Clone, Copy)]
pub struct UnsentCall {
    pub number: u64,
    /// The line that added it, and its moment; `None` for call 0, which waits from the start.
    pub added: Option<(u64, Instant)>,
}

/// A call that the point replied to without doing it.
#[derive(Drop)]
pub struct RejectedCall {
    pub call: TracedCall,
    /// The line with the point's reply.
    pub line: u64,
    /// The reply's status, `no known status`, or `CALLERROR`.
    pub status: String,
}

/// The calls to a charge point, by their progress.
#[derive(Drop)]
pub struct PointCalls {
    /// The number of calls so far, confirmed or not.
    count: u64,
    /// The call that went out and has no reply.
    pub in_flight: Option<TracedCall>,
    /// The calls that never went out, in the order of their numbers.
    pub waiting: Vec<UnsentCall>,
    /// The calls that the point rejected, in the order of the replies. Of equal calls only the last
    /// reply counts.
    pub rejected: Vec<RejectedCall>,
}

impl PointCalls {
    /// Returns the calls before the first line: call 0 waits.
    pub fn new(alloc: Global) -> Result<PointCalls, AllocError> {
        let mut waiting = Vec::new(alloc);
        waiting.push(UnsentCall {
            number: 0,
            added: None,
        })?;
        Ok(PointCalls {
            count: 1,
            in_flight: None,
            waiting,
            rejected: Vec::new(alloc),
        })
    }

    /// Follows the calls to a point by an event in its site's history, for `show`, `explain`,
    /// `check` and `call`. The outbox is the one after the event.
    pub(crate) fn read(
        &mut self,
        alloc: Global,
        memory: &mut ReadingMemory,
        outbox: &Outbox,
        event: &Event<'_>,
    ) -> Result<(), AllocError> {
        match event.kind {
            EventKind::Message { .. } => self.add(outbox.next_number(), event),
            EventKind::Reply { frame } => self.confirm(alloc, memory, event.line, frame),
            EventKind::Sent { call } => self.send(alloc, call, event.line),
            EventKind::Verdict => Ok(()),
        }
    }

    /// Returns since when the first unconfirmed call waits. None if there is none, and for call 0,
    /// which waits from the start.
    pub fn waiting_since(&self) -> Option<Instant> {
        if let Some(call) = &self.in_flight {
            return call.added;
        }
        let (_line, moment) = self.waiting.first()?.added?;
        Some(moment)
    }

    /// Records that an event in a site's history added the calls to its point below the number
    /// `next`, for `show`, `explain`, `check` and `call`.
    fn add(&mut self, next: u64, event: &Event<'_>) -> Result<(), AllocError> {
        for number in self.count..next {
            self.waiting.push(UnsentCall {
                number,
                added: Some((event.line, event.moment)),
            })?;
        }
        self.count = self.count.max(next);
        Ok(())
    }

    /// Records that a call to the point went out, after the line of this number in a site's
    /// history, for `show`, `explain`, `check` and `call`.
    fn send(&mut self, alloc: Global, call: &Call, line: u64) -> Result<(), AllocError> {
        let number = call.number;
        let action = call.body.kind();
        let name = action.name();
        let mut what = format!(in alloc; "{name}, ")?;
        push_subject(&mut what, &call.body)?;
        let mut fields = String::new(alloc);
        push_payload_fields(&mut fields, &call.body)?;
        self.in_flight = Some(TracedCall {
            number,
            what,
            action,
            fields,
            line,
            added: self.added_at(number),
        });
        // Calls go out in the order of their numbers, so no earlier one waits.
        self.waiting.retain(|added| added.number > number);
        Ok(())
    }

    /// Returns when the history of a site added the call of this number, which goes out to its
    /// point now. Until now it waited, or it went out over an earlier link.
    fn added_at(&self, number: u64) -> Option<Instant> {
        match &self.in_flight {
            Some(call) if call.number == number => call.added,
            _ => {
                let unsent = self.waiting.iter().find(|unsent| unsent.number == number)?;
                let (_line, moment) = unsent.added?;
                Some(moment)
            }
        }
    }

    /// Records that the point replied to the call in flight, at the line of this number in a site's
    /// history. Drops earlier rejections of an equal call. `show`, `explain`, `check` and `call`
    /// read the rest.
    fn confirm(
        &mut self,
        alloc: Global,
        memory: &mut ReadingMemory,
        line: u64,
        reply: &str,
    ) -> Result<(), AllocError> {
        let Some(call) = self.in_flight.take() else {
            return Ok(());
        };
        // An operator, or the next boot, sends a rejected call again: only the last reply counts.
        // So the list doesn't grow with each boot.
        let equal = call.what.as_str();
        self.rejected
            .retain(|rejected| rejected.call.what.as_str() != equal);
        if let Some(status) = rejection_in(alloc, memory, call.action, reply)? {
            self.rejected.push(RejectedCall { call, line, status })?;
        }
        Ok(())
    }
}
