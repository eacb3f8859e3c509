//! One step of a charging schedule.

ghost use Rattle.std.specs.Prelude.{◌≡◌};

/// One step of a charging schedule (chapter 7, ChargingSchedulePeriod).
#[derive(Clone, Copy, PartialEq, Eq)]
pub struct Period {
    /// startPeriod: seconds from the start of the schedule.
    pub start: u32,
    /// The limit from there on, in tenths of A or W.
    pub limit: u32,
    /// numberPhases; kept and forwarded.
    pub number_phases: Option<u32>,
}
