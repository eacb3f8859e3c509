//! The state of a charge point at one time.

ghost use Rattle.std.specs.Prelude.{◌≡◌};

use ocpp_scalars::Instant;
use profile::Row;

/// The state of a charge point at one time: its ceilings, its active transactions and its rows.
#[derive(Clone, Copy)]
pub struct View<'a> {
    /// The point's ceiling, in tenths of A or W.
    pub ceiling: u32,
    /// The ceilings of connectors 1, 2, .., in tenths.
    pub ceilings: &'a [u32],
    /// The start of the active transaction at connectors 1, 2, ..
    pub starts: &'a [Option<Instant>],
    /// The installed profiles.
    pub rows: &'a [Row],
}

impl View<'_> {
    ghost use Rattle.meaning.specs.View.{point_state, active_since};

    /// Returns the start of the active transaction at a connector; connector 0 never has one.
    pub fn active_since(&self, connector: usize) -> Option<Instant>
        ensures { result ≡ active_since (point_state self.now) connector }
    {
        if connector == 0 {
            return None;
        }
        match self.starts.get(connector - 1) {
            Some(start) => *start,
            None => None,
        }
    }
}
