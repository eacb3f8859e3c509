//! The observations of a charge point since the program began.

ghost use Rattle.std.specs.Prelude.{◌≡◌, ◌==◌, IfOk};
ghost use Rattle.site_status.specs.News.{action_of, connected, left, replied, resumed, seen, unseen};

use messages::{ActionKind, CallFault};
use ocpp_scalars::Instant;
use std::alloc::{AllocError, Global};

/// The observations of a charge point since the program began.
#[derive(Drop)]
pub struct PointActivity {
    /// Its newest link, and since when it is connected over that, if it still is.
    pub connection: Connection,
    /// The moment of its last message.
    pub heard: Option<Instant>,
    /// The last call that was sent to it.
    pub sent: Option<SentMoment>,
    /// The number of calls that it rejected, including those before the program began, and the last
    /// of them.
    pub rejections: u64,
    pub rejection: Option<Rejection>,
    /// The number of its messages that were refused, and the last of them.
    pub refusals: u64,
    pub refused: Option<RefusedMessage>,
}

/// The newest link of a point. Links are numbered from 1, in the order in which points get them.
#[derive(Clone, Copy, PartialEq, Eq)]
pub struct Connection {
    pub link: u64,
    /// Since when the point is connected over it, if it still is.
    pub since: Option<Instant>,
}

/// A call that was sent to a point.
#[derive(Clone, Copy, PartialEq, Eq)]
pub struct SentMoment {
    pub number: u64,
    pub action: ActionKind,
    pub moment: Instant,
}

/// A message of a point that was refused: it was answered with a CALLERROR.
#[derive(Clone, Copy, PartialEq, Eq)]
pub struct RefusedMessage {
    pub fault: CallFault,
    pub moment: Instant,
}

/// A call that a point rejected.
#[derive(Drop)]
pub struct Rejection {
    pub call: u64,
    /// Its action, if known.
    pub action: Option<ActionKind>,
    pub moment: Instant,
    /// In the point's words.
    pub reason: String,
}

/// The calls that a point rejected.
#[derive(Drop)]
pub struct RejectedCalls {
    pub count: u64,
    pub last: Option<Rejection>,
}

/// An observation of a point.
#[derive(Clone, Copy, PartialEq, Eq)]
pub enum Observation {
    /// The point got this link at a moment.
    Connected { link: u64, moment: Instant },
    /// A message came from it.
    Heard { moment: Instant },
    Sent(SentMoment),
    Refused(RefusedMessage),
}

impl Connection {
    /// Records that the point has this link since a moment, unless it has a later one.
    pub fn connect(&mut self, link: u64, moment: Instant)
        ensures { self.new ≡ connected self.old link moment }
    {
        // A session reports its link after releasing the lock under which it got it, so a later
        // link may be reported first.
        if link < self.link {
            return;
        }
        self.link = link;
        self.since = Some(moment);
    }

    /// Records that the connection of this link has ended. A later one remains. Returns whether
    /// there is none.
    pub fn leave(&mut self, link: u64) -> bool
        ensures left { self.new ≡ left self.old link }
        ensures newest { result ≡ (self.old.link == link) }
    {
        // The newest connection supersedes an older one, whose session ends later.
        let is_newest = self.link == link;
        if is_newest {
            self.since = None;
        }
        is_newest
    }
}

impl PointActivity {
    /// Returns no observations.
    pub fn new() -> PointActivity
        ensures { result ≡ unseen }
    {
        PointActivity {
            connection: Connection {
                link: 0,
                since: None,
            },
            heard: None,
            sent: None,
            rejections: 0,
            rejection: None,
            refusals: 0,
            refused: None,
        }
    }

    /// Returns a copy. The clause leaves out the last rejection.
    pub fn copy(&self, alloc: Global) -> Result<PointActivity, AllocError>
        ensures { IfOk result (λ copy. copy ≡ record self.now { rejection = copy.rejection }) }
    {
        let rejection = match &self.rejection {
            Some(rejection) => Some(rejection.copy(alloc)?),
            None => None,
        };
        Ok(PointActivity {
            connection: self.connection,
            heard: self.heard,
            sent: self.sent,
            rejections: self.rejections,
            rejection,
            refusals: self.refusals,
            refused: self.refused,
        })
    }

    /// Records an observation.
    pub fn see(&mut self, sighting: Observation)
        ensures { self.new ≡ seen self.old sighting }
    {
        match sighting {
            Observation::Connected { link, moment } => self.connection.connect(link, moment),
            Observation::Heard { moment } => self.heard = Some(moment),
            Observation::Sent(sent) => self.sent = Some(sent),
            Observation::Refused(message) => {
                self.refusals = self.refusals.saturating_add(1);
                self.refused = Some(message);
            }
        }
    }

    /// Records a reply to the call of this number, which rejects it for a reason if there is one.
    /// Returns the call's action, if known.
    pub fn reply(
        &mut self,
        call: u64,
        rejection: Option<String>,
        moment: Instant,
    ) -> Option<ActionKind>
        ensures news { self.new ≡ replied self.old call rejection moment }
        ensures action { result ≡ action_of self.old.sent call }
    {
        let action = self.action_of(call);
        if let Some(reason) = rejection {
            self.rejections = self.rejections.saturating_add(1);
            self.rejection = Some(Rejection {
                call,
                action,
                moment,
                reason,
            });
        }
        action
    }

    /// Records the calls that the point rejected before the program began.
    pub fn resume_rejections(&mut self, rejected: RejectedCalls)
        ensures { self.new ≡ resumed self.old rejected }
    {
        self.rejections = rejected.count;
        self.rejection = rejected.last;
    }

    /// Returns, for the site's status, the action of the call of this number to a charge point, if
    /// it is the last one sent.
    fn action_of(&self, call: u64) -> Option<ActionKind>
        ensures { result ≡ action_of self.now.sent call }
    {
        match self.sent {
            Some(sent) if sent.number == call => Some(sent.action),
            _ => None,
        }
    }
}

impl RejectedCalls {
    /// Returns no calls.
    pub fn none() -> RejectedCalls {
        RejectedCalls {
            count: 0,
            last: None,
        }
    }

    /// Adds a rejected call.
    pub fn add(&mut self, rejection: Rejection) {
        self.count = self.count.saturating_add(1);
        self.last = Some(rejection);
    }
}

impl Rejection {
    /// Returns a copy of a call's rejection by a charge point, for a report on the site's status.
    fn copy(&self, alloc: Global) -> Result<Rejection, AllocError> {
        Ok(Rejection {
            call: self.call,
            action: self.action,
            moment: self.moment,
            reason: String::from_str(alloc, self.reason.as_str())?,
        })
    }
}
