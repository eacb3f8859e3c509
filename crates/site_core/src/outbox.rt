//! The calls of the central system to a charge point.

ghost use Rattle.std.specs.Prelude.{◌≡◌, ◌+◌, ◌-◌, ◌<◌, ◌≤◌, ◌^◌, ◌++◌, IfErr, IfOk, IsSome, OnErr, OnOk, length};
ghost use Rattle.site_core.specs.Limits.{max_calls, max_number};
ghost use Rattle.site_core.specs.Outbox.{IsOutbox, added, attached, confirmed, is_exhausted, is_full, is_number_in_flight, is_unconfirmed, lost, numbered, opening_outbox, sendable, sending_link, sent};

use crate::call_queue::CallQueue;
use crate::numbers::MAX_NUMBER;
use messages::{Call, CallBody};
use profile::Criteria;
use std::alloc::{AllocError, Global};
use std::collections::LinkedList;
use std::marker::Model;

/// The most unconfirmed calls of a point, including the one in flight.
const MAX_CALLS: usize = 256;

/// ClearChargingProfile without a criterion (chapter 5.5).
const EVERY_PROFILE: Criteria = Criteria {
    id: None,
    connector: None,
    purpose: None,
    stack_level: None,
};

/// A call with its memory, so that adding it to an outbox needs none.
#[derive(Drop)]
pub struct PreparedCall {
    /// One body, in the list node that moves into an outbox.
    bodies: LinkedList<CallBody>,
}

// Clauses see the call's body.
impl Model for PreparedCall {
    ghost use Rattle.std.specs.Prelude.{◌≡◌, length, slice_index_or};
    ghost use Rattle.messages.specs.declared.call.CallBody.{CallBody};
    ghost use Rattle.site_core.specs.Outbox.{clear_all};

    ghost Value = { CallBody };

    ghost view = { λ p. slice_index_or p.bodies 0 clear_all };

    ghost invariant = { λ p. length p.bodies ≡ 1 };
}

impl PreparedCall {
    /// Makes a call of this body, which comes back if memory runs out.
    pub fn new(alloc: Global, body: CallBody) -> Result<PreparedCall, (AllocError, CallBody)>
        ensures call { IfOk result (λ call. call ≡ body) }
        ensures back { IfErr result (λ refused. refused.1 ≡ body) }
    {
        let mut bodies = LinkedList::new(alloc);
        match bodies.push_back(body) {
            Ok(()) => Ok(PreparedCall { bodies }),
            Err(refused) => Err((AllocError, refused.value)),
        }
    }
}

/// The calls of the central system to a charge point: the point's present link, and the unconfirmed
/// calls. The first of these is in flight or waits. Call 0 clears all profiles.
#[derive(Drop)]
pub struct Outbox {
    /// The number of the point's present link.
    link: Option<u64>,
    /// The unconfirmed calls. The last one has the number before `next`.
    bodies: CallQueue,
    /// The number of the next call.
    next: u64,
    /// Whether the first call was sent over the present link.
    is_in_flight: bool,
}

impl Model for Outbox {
    ghost use Rattle.std.specs.Prelude.{◌+◌, ◌-◌, ◌<◌, ◌≤◌, ◌≡◌, true, IsSome, length};
    ghost use Rattle.site_core.specs.Limits.{max_number, max_calls};
    ghost use Rattle.site_core.specs.Outbox.{OutboxState, numbered};

    ghost Value = { OutboxState };

    ghost view = { λ o. record {
      link = o.link;
      calls = numbered (o.next - length o.bodies) o.bodies;
      next = o.next;
      is_in_flight = o.is_in_flight;
    } };

    ghost invariant = { λ o. (length o.bodies ≤ o.next)
        × (o.next ≤ max_number + 1)
        × (length o.bodies ≤ max_calls)
        × (o.is_in_flight ≡ true → IsSome o.link × (0 < length o.bodies)) };
}

impl Outbox {
    /// Makes the outbox of a point that never had a link: call 0 waits in it.
    pub fn new(alloc: Global) -> Result<Outbox, AllocError>
        ensures { IfOk result (λ outbox. outbox ≡ opening_outbox) }
    {
        // The point may have profiles from before, of which the central system knows nothing.
        Ok(Outbox {
            link: None,
            bodies: CallQueue::new(alloc, CallBody::Clear(EVERY_PROFILE))?,
            next: 1,
            is_in_flight: false,
        })
    }

    /// Copies the outbox, sharing the gathered calls.
    pub fn copy(&self) -> Result<Outbox, AllocError>
        ensures { IfOk result (λ copy. copy ≡ self.now) }
    {
        Ok(Outbox {
            link: self.link,
            bodies: self.bodies.copy()?,
            next: self.next,
            is_in_flight: self.is_in_flight,
        })
    }

    /// Gathers the calls, if memory lasts, so that copies share them. Changes nothing else.
    pub fn gather_calls(&mut self)
        ensures { self.new ≡ self.old }
    {
        self.bodies.gather();
    }

    /// Returns the number of unconfirmed calls, including the one in flight.
    pub fn len(&self) -> usize
        ensures value { result ≡ length self.now.calls }
        ensures outbox { IsOutbox self.now }
    {
        self.bodies.len()
    }

    /// Copies the unconfirmed calls, in the order of their numbers, which begin with
    /// `first_number`.
    pub fn bodies(&self, alloc: Global) -> Result<Vec<CallBody>, AllocError>
        ensures { IfOk result (λ bodies.
            numbered (self.now.next - length self.now.calls) bodies.items ≡ self.now.calls) }
    {
        let bodies = self.bodies.bodies(alloc)?;
        Ok(bodies)
    }

    /// Whether the outbox has the most unconfirmed calls, so that no more may be added.
    pub fn is_full(&self) -> bool
        ensures { result ≡ is_full self.now }
    {
        MAX_CALLS <= self.len()
    }

    /// Whether the last call number was drawn, so that no more calls may be added.
    pub fn is_exhausted(&self) -> bool
        ensures { result ≡ is_exhausted self.now }
    {
        MAX_NUMBER < self.next
    }

    /// Returns the point's present link.
    pub fn link(&self) -> Option<u64>
        ensures { result ≡ self.now.link }
    {
        self.link
    }

    /// Whether the first call was sent over the present link, and is unconfirmed.
    pub fn is_in_flight(&self) -> bool
        ensures { result ≡ self.now.is_in_flight }
    {
        self.is_in_flight
    }

    /// Returns the point's present link, if a call can be sent over it now.
    #[tactic(auto, using(crate::proofs::OutboxLemmas::sends_over_link))]
    pub fn sending_link(&self) -> Option<u64>
        ensures { result ≡ sending_link self.now }
    {
        if self.is_in_flight || self.len() == 0 {
            return None;
        }
        self.link
    }

    /// Sets the point's present link. A call in flight over the one before waits again.
    pub fn attach(&mut self, link: u64)
        ensures { self.new ≡ attached self.old link }
    {
        self.link = Some(link);
        // The older link's reply won't count any more, so the call has to be sent again.
        self.is_in_flight = false;
    }

    /// Removes the present link. A call in flight waits again.
    pub fn lose(&mut self)
        ensures { self.new ≡ lost self.old }
    {
        self.link = None;
        self.is_in_flight = false;
    }

    /// Adds a call, which gets the next number. Allocates nothing.
    pub fn add(&mut self, call: PreparedCall)
        requires room { length self.old.calls < max_calls }
        requires number { self.old.next ≤ max_number }
        ensures { self.new ≡ added self.old call }
    {
        self.bodies.append(call.bodies);
        self.next += 1;
    }

    /// Copies the first call, which is in flight from then on. `None` if there is no link, if a
    /// call is in flight, or if none waits. Only the copy needs memory; without it nothing changes.
    pub fn send(&mut self) -> Result<Option<Call>, AllocError>
        ensures call { IfOk result (λ call. call ≡ sendable self.old) }
        ensures outbox { OnOk result (self.new ≡ sent self.old) }
        ensures kept { OnErr result (self.new ≡ self.old) }
        ensures wanted { OnErr result (IsSome (sendable self.old)) }
    {
        if self.link.is_none() || self.is_in_flight {
            return Ok(None);
        }
        let number = self.first_number();
        let Some(body) = self.bodies.front() else {
            return Ok(None);
        };
        let body = body.copy(self.bodies.allocator())?;
        self.is_in_flight = true;
        Ok(Some(Call { number, body }))
    }

    /// Removes the call in flight if it has this number, and returns whether it has.
    pub fn confirm(&mut self, number: u64) -> bool
        ensures answer { result ≡ is_number_in_flight self.old number }
        ensures outbox { self.new ≡ confirmed self.old number }
    {
        if !self.is_number_in_flight(number) {
            return false;
        }
        self.bodies.remove_first();
        self.is_in_flight = false;
        true
    }

    /// Whether the call in flight has this number.
    #[tactic(auto, using(crate::proofs::OutboxLemmas::number_in_flight))]
    pub fn is_number_in_flight(&self, number: u64) -> bool
        ensures { result ≡ is_number_in_flight self.now number }
    {
        if !self.is_in_flight {
            return false;
        }
        self.first_number() == number
    }

    /// Whether the call of this number is unconfirmed.
    #[tactic(auto, using(crate::proofs::OutboxLemmas::waits_by_number))]
    pub fn is_unconfirmed(&self, number: u64) -> bool
        ensures { result ≡ is_unconfirmed self.now.calls number }
    {
        self.first_number() <= number && number < self.next
    }

    /// Returns the number of the next call.
    pub fn next_number(&self) -> u64
        ensures { result ≡ self.now.next }
    {
        self.next
    }

    /// Returns the number of the first unconfirmed call, or the next call's if there is none. It is
    /// also the number of confirmed calls.
    pub fn first_number(&self) -> u64
        ensures value { result ≡ self.now.next - length self.now.calls }
        ensures outbox { IsOutbox self.now }
    {
        self.next - self.len() as u64
    }
}
