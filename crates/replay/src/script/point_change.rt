//! The change that a line of a script makes at its point.

ghost use Rattle.std.specs.Prelude.{◌≡◌};
ghost use Rattle.replay.specs.PointChange.{change_by, change_of};

use crate::player::machine_steps::StepOutcome;
use site_core::Reply;

/// The change that a line of a script makes at its point, by the reply to the step that its message
/// requests. The link and outgoing calls aren't counted.
#[derive(Clone, Copy, PartialEq, Eq)]
pub enum PointChange {
    /// None, or a request for a schedule is kept or answered.
    Nothing,
    /// Profiles were installed or removed, and a call with this change was added.
    Profiles,
    /// A transaction began or ended. TxProfiles may have been removed with it, or one installed.
    Transaction,
    /// An audit began, and its call was added.
    Audit,
    /// A remote start was requested, and its call was added.
    RemoteStart,
    /// The point replied to the call in flight, which ends it. A reply to its audit is judged.
    Confirmed,
}

/// Returns the change by a step with this outcome.
pub fn change_of(outcome: &StepOutcome) -> PointChange
    ensures { result ≡ change_of outcome.now }
{
    match outcome {
        Ok(reply) => change_by(reply),
        Err(_) => PointChange::Nothing,
    }
}

/// Returns the change that a line of a replayed script makes at its point, by the reply to its
/// step.
fn change_by(reply: &Reply) -> PointChange
    ensures { result ≡ change_by reply.now }
{
    match reply {
        Reply::Accepted => PointChange::Profiles,
        Reply::Started(_) | Reply::Ended => PointChange::Transaction,
        Reply::Audited { .. } => PointChange::Audit,
        Reply::Called(_) => PointChange::RemoteStart,
        Reply::Confirmed => PointChange::Confirmed,
        Reply::Unknown
        | Reply::Repeated(_)
        | Reply::NoSuch
        | Reply::Taken { .. }
        | Reply::Compiled
        | Reply::Answered { .. }
        | Reply::NotYet
        | Reply::Finished
        | Reply::Attached(_)
        | Reply::Sent(_)
        | Reply::Nothing
        | Reply::LinkLost
        | Reply::VerdictKept
        | Reply::Status(_)
        | Reply::Booted(_) => PointChange::Nothing,
    }
}
