//! The replies to the steps of the central system.

ghost use Rattle.std.specs.Prelude.{◌≡◌};
ghost use Rattle.site_core.specs.State.{AreNumbers, MachineState};
ghost use Rattle.site_core.specs.Step.{counted, drawn, is_event};

use crate::numbers::Numbers;
use crate::shared_book::SharedBook;
use meaning::{Ask, Composite};
use messages::{Call, PointStatus};
use ocpp_scalars::Refusal;
use profile::Unit;

/// The reply to a step that was made.
#[derive(Drop)]
pub enum Reply {
    /// The profile is installed, or the matching profiles are removed.
    Accepted,
    /// No profile matches the criteria: nothing was changed.
    Unknown,
    /// The transaction of this number began.
    Started(i32),
    /// The transaction of this number had begun, and its start was retransmitted: nothing was
    /// changed.
    Repeated(i32),
    /// The transaction ended.
    Ended,
    /// No transaction of the number is active at the point: nothing was changed.
    NoSuch,
    /// The request of this number is kept, with its point's book and its `Ask`.
    Taken {
        number: u64,
        book: SharedBook,
        ask: Ask,
    },
    /// The request has its answer.
    Compiled,
    /// The answer to a request, with the book that its point had and its `Ask`.
    Answered {
        book: SharedBook,
        ask: Ask,
        answer: Result<Composite, Refusal>,
    },
    /// The request has no answer yet, and is still kept.
    NotYet,
    /// The central system is stopped.
    Finished,
    /// The point has the link of this number now.
    Attached(u64),
    /// The call that goes out to the point.
    Sent(Call),
    /// No call can be sent: none waits, or one is in flight.
    Nothing,
    /// The call in flight was answered, and is removed.
    Confirmed,
    /// The point has no link now. A call that was in flight waits again.
    LinkLost,
    /// The call of this number requests the point's schedule, in this unit.
    Audited {
        call: u64,
        unit: Unit,
    },
    /// The verdict is kept.
    VerdictKept,
    /// The status of a point.
    Status(PointStatus),
    /// The call of this number asks the point to start a transaction.
    Called(u64),
    /// The boot is recorded. The point may have lost what came by the calls before the one of this
    /// number, the first that it hasn't confirmed.
    Booted(u64),
}

/// The numbers of changes, Takes and answers that a reply counts.
#[derive(Clone, Copy, PartialEq, Eq)]
pub struct Counted {
    pub changes: u64,
    pub takes: u64,
    pub answers: u64,
}

/// A reply that counts none.
const NO_COUNT: Counted = Counted {
    changes: 0,
    takes: 0,
    answers: 0,
};

impl Reply {
    /// Whether a step with this reply is an event, given whether the central system was stopped
    /// before it.
    pub fn is_event(&self, was_stopped: bool) -> bool
        ensures { (old : MachineState) → old.is_stopped ≡ was_stopped
            → result ≡ is_event old self.now }
    {
        match self {
            Reply::Accepted
            | Reply::Started(_)
            | Reply::Ended
            | Reply::Taken { .. }
            | Reply::Compiled
            | Reply::Answered { .. }
            | Reply::Attached(_)
            | Reply::Sent(_)
            | Reply::Confirmed
            | Reply::LinkLost
            | Reply::Audited { .. }
            | Reply::VerdictKept
            | Reply::Called(_)
            | Reply::Booted(_) => true,
            Reply::Unknown
            | Reply::Repeated(_)
            | Reply::NoSuch
            | Reply::NotYet
            | Reply::Nothing
            | Reply::Status(_) => false,
            // A second Finish replies the same, but changes nothing.
            Reply::Finished => !was_stopped,
        }
    }

    /// Returns the numbers of versions, requests, transactions and links that the machine drew
    /// last, after a step with this reply.
    pub(crate) fn drawn(&self, numbers: Numbers) -> Numbers
        requires { AreNumbers numbers }
        ensures { result ≡ drawn self.now numbers }
    {
        match self {
            Reply::Accepted | Reply::Ended => Numbers {
                version: numbers.version + 1,
                ..numbers
            },
            Reply::Started(_) => Numbers {
                version: numbers.version + 1,
                transaction: numbers.transaction + 1,
                ..numbers
            },
            Reply::Taken { .. } => Numbers {
                request: numbers.request + 1,
                ..numbers
            },
            Reply::Attached(_) => Numbers {
                link: numbers.link + 1,
                ..numbers
            },
            _ => numbers,
        }
    }

    /// Returns the numbers of changes, Takes and answers that the reply counts.
    pub fn counted(&self) -> Counted
        ensures { result ≡ counted self.now }
    {
        match self {
            Reply::Accepted | Reply::Started(_) | Reply::Ended => Counted {
                changes: 1,
                ..NO_COUNT
            },
            Reply::Taken { .. } => Counted {
                takes: 1,
                ..NO_COUNT
            },
            Reply::Answered { .. } => Counted {
                answers: 1,
                ..NO_COUNT
            },
            _ => NO_COUNT,
        }
    }
}
