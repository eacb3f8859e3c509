//! The limit of a connector at an instant.

ghost use Rattle.std.specs.Prelude.{◌≡◌, ℕ, ◌<◌, ◌≤◌, min, length, ◌+◌};
ghost use Rattle.meaning.specs.View.{point_state};
ghost use Rattle.meaning.specs.Limit.{transaction_limit, own_limit, point_limit, shared_limit, limit};

use crate::view::View;
use ocpp_scalars::Instant;
use profile::Purpose;

/// Returns the limit of a connector at an instant, in tenths, in a schedule requested from `asked`
/// on (chapter 3.13). Connector 0 is the whole point.
pub fn limit_at(view: &View<'_>, connector: u32, asked: Instant, instant: Instant) -> u32
    requires has_connector { connector ≤ length view.now.ceilings.now }
    ensures { result ≡ limit (point_state view.now) connector asked instant }
{
    // As the definition does, this reads all rows for one second. The sweep is faster, and proved
    // to give the same limits.
    let point = view.point_limit(asked, instant);
    if connector == 0 {
        // The point's limit alone would promise power that no connector may draw.
        view.shared_limit_within(point, asked, instant)
    } else {
        point.min(view.own_limit(connector as usize, asked, instant))
    }
}

impl View<'_> {
    /// Returns the charge point's own limit at an instant, definition by definition: the least of
    /// its ceiling and the prevailing ChargePointMaxProfile. For the simulated point's schedules.
    fn point_limit(&self, asked: Instant, instant: Instant) -> u32
        ensures { result ≡ point_limit (point_state self.now) asked instant }
    {
        match self.prevailing(Purpose::ChargePointMaxProfile, 0, asked, instant) {
            Some(limit) => self.ceiling.min(limit),
            None => self.ceiling,
        }
    }

    /// Returns a connector's own limit at an instant, definition by definition: the least of its
    /// ceiling and its prevailing TxProfile's or TxDefaultProfile's limit. For the simulated
    /// point's schedules.
    fn own_limit(&self, connector: usize, asked: Instant, instant: Instant) -> u32
        requires above { 0 < connector }
        requires has_connector { connector ≤ length self.now.ceilings.now }
        ensures { result ≡ own_limit (point_state self.now) connector asked instant }
    {
        let ceiling = self.ceilings[connector - 1];
        match self.transaction_limit(connector, asked, instant) {
            Some(limit) => ceiling.min(limit),
            None => ceiling,
        }
    }

    /// Returns a connector's limit at an instant, definition by definition: by the prevailing
    /// TxProfile, otherwise by the prevailing TxDefaultProfile. For the simulated point's
    /// schedules.
    fn transaction_limit(&self, connector: usize, asked: Instant, instant: Instant) -> Option<u32>
        ensures { result ≡ transaction_limit (point_state self.now) connector asked instant }
    {
        // Second by second: a TxProfile without a limit at this one leaves the default in force.
        match self.prevailing(Purpose::TxProfile, connector, asked, instant) {
            Some(limit) => Some(limit),
            None => self.prevailing(Purpose::TxDefaultProfile, connector, asked, instant),
        }
    }

    /// Returns the sum of the active connectors' own limits at an instant, definition by
    /// definition, but at most `most`, as a limit of the whole charge point. For the simulated
    /// point's schedules.
    fn shared_limit_within(&self, most: u32, asked: Instant, instant: Instant) -> u32
        ensures { result ≡ min most (shared_limit (point_state self.now) asked instant) }
    {
        let mut sum = 0;
        for index in 0..self.ceilings.len() {
            let connector = index + 1;
            if self.active_since(connector).is_some() {
                let own = self.own_limit(connector, asked, instant);
                // Cut at `most`, which leaves the least of both as it is: the definition's sum has
                // no bound, but this one would overflow.
                sum = least_sum(most, sum, own);
            }
        }
        sum
    }
}

/// Adds a connector's limit to those of the connectors before it, for the definition of the whole
/// charge point's limit. The sum is at most `most`.
fn least_sum(most: u32, sum: u32, limit: u32) -> u32
    ensures { result ≡ min most (sum + limit) }
{
    if u64::from(sum) + u64::from(limit) < u64::from(most) {
        sum + limit
    } else {
        most
    }
}
