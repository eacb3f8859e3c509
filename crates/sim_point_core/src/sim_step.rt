//! The actions that a simulated charge point takes on its own.
use ocpp_scalars::IdTag;
use profile::Profile;

/// A step of a simulated charge point, which makes one of its calls.
#[derive(Drop)]
pub enum SimStep {
    /// A Heartbeat (chapter 4.6).
    Heartbeat,
    /// A StartTransaction (chapter 4.8) of this idTag, with meterStart in watt-hours. It is skipped
    /// at connector 0 and at a connector that the point lacks.
    Start {
        connector: u32,
        tag: IdTag,
        meter: i32,
    },
    /// A StartTransaction that the central system requested (chapter 5.11), with meterStart 0. Its
    /// transaction begins with this profile. It is skipped in the same cases as a start.
    RemoteStart {
        connector: u32,
        tag: IdTag,
        profile: Option<Profile>,
    },
    /// A StopTransaction (chapter 4.10) of the active transaction at the connector, with the meter
    /// of its start as meterStop. It is skipped if none is active.
    Stop {
        connector: u32,
    },
}
