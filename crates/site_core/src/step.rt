//! The steps of the central system.

ghost use Rattle.site_core.specs.Step.{work};
ghost use Rattle.site_core.specs.ByCases.Made.{IsAtPoint, IsFor};

use crate::point_id::PointId;
use crate::via::Via;
use ocpp_scalars::{IdTag, Instant};
use profile::{Criteria, Profile, Row, Unit};
use sweep_compiler::Judged;
use transactions::Begin;

/// A step for the central system to make.
#[derive(Drop)]
pub enum Step {
    /// To install a profile at a point (chapter 5.16).
    Install {
        point: PointId,
        row: Row,
    },
    /// To remove the profiles of a point that match each given criterion (chapter 5.5).
    Clear {
        point: PointId,
        criteria: Criteria,
    },
    /// To begin a transaction at a connector of a point (chapter 4.8).
    Start {
        point: PointId,
        connector: u32,
        begin: Begin,
    },
    /// To end the transaction of this number at a point (chapter 4.10).
    Stop {
        point: PointId,
        transaction: i32,
    },
    /// To keep a request for a composite schedule (chapter 5.7) with its point's present book.
    Take(Take),
    /// To compile the schedule of the request of this number.
    Compile(u64),
    /// To hand out the answer to the request of this number.
    Answer(u64),
    /// To stop: requests without an answer are answered `Stopped`.
    Finish,
    /// To give a point a new link, over which its calls are sent from now on.
    Attach(PointId),
    /// To send the first call that waits for a point over its link.
    Send {
        point: PointId,
        link: u64,
    },
    /// To record that a point has answered the call of this number.
    Confirm {
        point: PointId,
        link: u64,
        call: u64,
        /// Whether its reply has the status Accepted.
        accepted: bool,
    },
    /// To record that a link to a point is lost.
    Lost {
        point: PointId,
        link: u64,
    },
    /// To ask a point for its own schedule of a connector, 0 being the whole point (chapter 5.7).
    Audit {
        point: PointId,
        connector: u32,
        /// Seconds.
        duration: u32,
    },
    /// To keep the verdict on a point's reply to the audit whose call has this number.
    Judge {
        point: PointId,
        call: u64,
        judged: Judged,
    },
    /// To report the version of the store, the number of unconfirmed calls of a point, and its
    /// audit.
    Status(PointId),
    /// To ask a point to start a transaction at a connector (chapter 5.11).
    RemoteStart {
        point: PointId,
        connector: u32,
        id_tag: IdTag,
        /// The TxProfile with which that transaction begins.
        profile: Option<Profile>,
    },
    /// To record that a point has booted (chapter 4.2): it may have lost its profiles.
    Boot {
        point: PointId,
        moment: Instant,
    },
}

/// A request for the composite schedule of a connector, 0 being the whole point.
#[derive(Drop)]
pub struct Take {
    pub point: PointId,
    pub connector: u32,
    /// The first second of the schedule.
    pub start: Instant,
    /// Seconds.
    pub duration: u32,
    /// The unit that the schedule must have, if one is given.
    pub unit: Option<Unit>,
    /// The newest version of the store that the client has seen, 0 for none.
    pub seen: u64,
}

impl Step {
    /// Returns the charge point that a step of the machine names, and how it names the point: by
    /// its identity, its link or its audit.
    pub(crate) fn target(&self) -> (&PointId, Via)
        requires { IsAtPoint (work self.now) }
        ensures { IsFor (work self.now) result.0.now result.1 }
    {
        match self {
            Step::Install { point, .. }
            | Step::Clear { point, .. }
            | Step::Start { point, .. }
            | Step::Stop { point, .. }
            | Step::Attach(point)
            | Step::Audit { point, .. }
            | Step::Status(point)
            | Step::RemoteStart { point, .. }
            | Step::Boot { point, .. } => (point, Via::Name),
            // These name their link, so that a session whose link was superseded can't change a
            // newer session's calls.
            Step::Send { point, link }
            | Step::Confirm { point, link, .. }
            | Step::Lost { point, link } => (point, Via::Link(*link)),
            Step::Judge { point, .. } => (point, Via::Audit),
            Step::Take(_) | Step::Compile(_) | Step::Answer(_) | Step::Finish => unreachable!(),
        }
    }
}
