//! The reason why a profile of a point doesn't prevail.

ghost use Rattle.std.specs.Prelude.{◌≡◌, ℕ, ◌<◌, Option, Some, length, slice_get};
ghost use Rattle.std.specs.List.{list_any};
ghost use Rattle.profile.specs.declared.row.Row.{Row};
ghost use Rattle.meaning.specs.View.{point_state};
ghost use Rattle.meaning.specs.Cause.{counts_for, prevailing_row};
ghost use Rattle.meaning.specs.WhyNot.{why_not, why_not_counted, why_no_limit, why_no_limit_in, why_behind, is_above, is_elsewhere};
ghost use Rattle.meaning.specs.ByCases.WhyNot.{is_higher};

use crate::cause::WhyNot;
use crate::prevailing::has_its_transaction;
use crate::view::View;
use ocpp_scalars::Instant;
use profile::{Purpose, Row, is_candidate};

/// Returns the reason why the row at an index of a view doesn't prevail for a connector at an
/// instant, in a schedule requested from `asked` on (chapter 3.13), or `None` if it does. A
/// ChargePointMaxProfile prevails for the whole point; connector 0 is taken as one that never
/// charges.
pub fn why_not(
    view: &View<'_>,
    connector: u32,
    asked: Instant,
    instant: Instant,
    place: usize,
) -> Option<WhyNot>
    requires within { place < length view.now.rows.now }
    ensures { (row : Row) → slice_get view.now.rows.now place ≡ Some row
        → result ≡ why_not (point_state view.now) connector asked instant row }
{
    let row = &view.rows[place];
    let connector = match row.profile.purpose {
        Purpose::ChargePointMaxProfile => 0,
        Purpose::TxDefaultProfile | Purpose::TxProfile => connector as usize,
    };
    if let Some(why) = view.why_not_counted(connector, row) {
        return Some(why);
    }
    if let Some(why) = view.why_no_limit(connector, asked, instant, row) {
        return Some(why);
    }
    view.why_behind(connector, asked, instant, row)
}

impl View<'_> {
    /// Returns the reason why a row (an installed charging profile) doesn't count for a connector:
    /// `OtherConnector`, `NoTransaction` or `Hidden`. For `explain`, `check`, `call` and the status
    /// page.
    fn why_not_counted(&self, connector: usize, row: &Row) -> Option<WhyNot>
        ensures { result ≡ why_not_counted (point_state self.now) connector row.now }
    {
        if is_elsewhere(row.profile.purpose, connector, row.connector as usize) {
            return Some(WhyNot::OtherConnector);
        }
        if matches!(row.profile.purpose, Purpose::TxProfile)
            && self.active_since(connector).is_none()
        {
            return Some(WhyNot::NoTransaction);
        }
        if !is_candidate(row.profile.purpose, self.rows, connector, row) {
            return Some(WhyNot::Hidden);
        }
        None
    }

    /// Returns the reason why a row (an installed charging profile) has no limit for a connector at
    /// an instant, if it has none. For `explain`, `check`, `call` and the status page.
    fn why_no_limit(
        &self,
        connector: usize,
        asked: Instant,
        instant: Instant,
        row: &Row,
    ) -> Option<WhyNot>
        ensures { result ≡ why_no_limit (point_state self.now) connector asked instant row.now }
    {
        if row.profile.valid_from.is_some_and(|from| instant < from) {
            return Some(WhyNot::NotYetValid);
        }
        if row.profile.valid_to.is_some_and(|to| to <= instant) {
            return Some(WhyNot::NoLongerValid);
        }
        let base = row.base(self.active_since(connector), asked);
        why_no_limit_in(row, row.profile.offset(base, instant))
    }

    /// Returns the reason why a charging profile with a limit doesn't prevail for a connector:
    /// `BelowHigherLevel` or `BehindTxProfile`. For `explain`, `check`, `call` and the status page.
    fn why_behind(
        &self,
        connector: usize,
        asked: Instant,
        instant: Instant,
        row: &Row,
    ) -> Option<WhyNot>
        ensures { result ≡ why_behind (point_state self.now) connector asked instant row.now }
    {
        let purpose = row.profile.purpose;
        if self.has_higher(purpose, row.profile.stack_level, connector, asked, instant) {
            return Some(WhyNot::BelowHigherLevel);
        }
        let is_default = matches!(purpose, Purpose::TxDefaultProfile);
        if is_default
            && self
                .prevailing_profile(Purpose::TxProfile, connector, asked, instant)
                .is_some()
        {
            return Some(WhyNot::BehindTxProfile);
        }
        None
    }

    /// Whether a profile of a purpose with a higher stack level has a limit for a connector at an
    /// instant. Then a lower level doesn't prevail. For `explain`, `check`, `call` and the status
    /// page.
    fn has_higher(
        &self,
        purpose: Purpose,
        level: u32,
        connector: usize,
        asked: Instant,
        instant: Instant,
    ) -> bool
        ensures { result ≡ is_above level
            (prevailing_row purpose (point_state self.now) connector asked instant) }
    {
        has_its_transaction(purpose, self.active_since(connector))
            && self.any_higher(purpose, level, connector, asked, instant)
    }

    /// Whether any row (installed charging profile) that applies to a connector by a purpose has a
    /// higher stack level and a limit at an instant. For `explain`, `check`, `call` and the status
    /// page.
    fn any_higher(
        &self,
        purpose: Purpose,
        level: u32,
        connector: usize,
        asked: Instant,
        instant: Instant,
    ) -> bool
        ensures { result ≡ list_any
            (is_higher purpose (point_state self.now) connector asked instant level)
            self.now.rows.now }
    {
        // Stops at the first such row, and tests last whether it is a candidate, which may read all
        // rows. An explanation asks this for every row: finding the prevailing profile each time
        // was cubic.
        let started = self.active_since(connector);
        self.rows.iter().any(|row| {
            level < row.profile.stack_level
                && row
                    .profile
                    .rate(row.base(started, asked), instant)
                    .is_some()
                && is_candidate(purpose, self.rows, connector, row)
        })
    }
}

/// Whether a charging profile of a purpose that is installed at one connector doesn't apply to
/// another one. For `explain`, `check`, `call` and the status page.
fn is_elsewhere(purpose: Purpose, connector: usize, at: usize) -> bool
    ensures { result ≡ is_elsewhere purpose connector at }
{
    match purpose {
        Purpose::ChargePointMaxProfile => at != 0,
        Purpose::TxDefaultProfile => at != connector && at != 0,
        Purpose::TxProfile => at != connector,
    }
}

/// Returns the reason why a row (an installed charging profile) has no limit at an offset in its
/// schedule, or before it. `None` if it has a limit there. For `explain`, `check`, `call` and the
/// status page.
fn why_no_limit_in(row: &Row, offset: Option<u64>) -> Option<WhyNot>
    ensures { result ≡ why_no_limit_in row.now offset }
{
    let Some(offset) = offset else {
        return Some(WhyNot::BeforeAnchor);
    };
    let schedule = &row.profile.schedule;
    if schedule
        .duration
        .is_some_and(|duration| u64::from(duration) <= offset)
    {
        return Some(WhyNot::PastDuration);
    }
    if schedule.periods.limit_in_force(offset).is_none() {
        return Some(WhyNot::BeforeFirstPeriod);
    }
    None
}
