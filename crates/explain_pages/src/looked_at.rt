//! The connectors for which a row is checked in a request, and the reasons that hold for all of
//! them.

ghost use Rattle.std.specs.Prelude.{◌≡◌, MatchBool};
ghost use Rattle.meaning.specs.View.{point_state};
ghost use Rattle.explain_pages.specs.NotCounted.{is_of_one, is_of_active};
ghost use Rattle.explain_pages.specs.ByCases.Throughout.{FoundConnector, FoundFailing, IsOf, IsThroughout, FailsSomewhere};

use crate::explained_request::NotCountedReason;
use crate::row_at_connector::{RowAtConnector, RowInRequest};
use ocpp_scalars::Instant;
use profile::Purpose;

impl RowInRequest<'_> {
    /// Returns the first connector for which an installed profile is checked, to find the reason on
    /// `explain`'s pages why it never sets the limit.
    pub(crate) fn first_connector(&self) -> Option<u32>
        ensures { FoundConnector self.now result }
    {
        let asked = self.ask.connector;
        if self.is_of_one() {
            return Some(asked);
        }
        // The limit of the whole point sums up the connectors with a transaction: no other counts.
        for place in 0..self.view.starts.len() {
            let Ok(connector) = u32::try_from(place + 1) else {
                return None;
            };
            if self.is_of_active(connector) {
                return Some(connector);
            }
        }
        None
    }

    /// Returns the first second at which a reason why a profile never sets the limit fails, for
    /// `explain`'s pages. Takes the first connector where it fails.
    pub(crate) fn first_failing(&self, reason: NotCountedReason) -> Option<Instant>
        ensures { FoundFailing reason self.now result }
    {
        let asked = self.ask.connector;
        if self.is_of_one() {
            return self.looked_at(asked).first_failing(reason);
        }
        for place in 0..self.view.starts.len() {
            let Ok(connector) = u32::try_from(place + 1) else {
                return None;
            };
            if self.is_of_active(connector) {
                if let Some(failing) = self.looked_at(connector).first_failing(reason) {
                    return Some(failing);
                }
            }
        }
        None
    }

    /// Returns whether a reason why a profile never sets the limit holds at each second for each
    /// connector. Then `explain`'s pages may give it. If `BehindOthers` doesn't, the profile
    /// prevails at some second.
    pub(crate) fn is_throughout(&self, reason: NotCountedReason) -> bool
        ensures { MatchBool result (IsThroughout reason self.now) (FailsSomewhere reason self.now) }
    {
        self.first_failing(reason).is_none()
    }

    /// Returns an installed profile as it is checked for a connector, to find the reason on
    /// `explain`'s pages why it never sets the limit.
    fn looked_at(&self, connector: u32) -> RowAtConnector<'_>
        ensures { IsOf self.now connector result }
    {
        let at = match self.row.profile.purpose {
            Purpose::ChargePointMaxProfile => 0,
            Purpose::TxDefaultProfile | Purpose::TxProfile => connector as usize,
        };
        RowAtConnector {
            view: self.view,
            ask: self.ask,
            place: self.place,
            row: self.row,
            connector,
            at,
        }
    }

    /// Returns whether an installed profile is checked for one connector alone, to find the reason
    /// on `explain`'s pages why it never sets the limit.
    fn is_of_one(&self) -> bool
        ensures { result ≡ is_of_one self.now.ask.connector self.now.row.now }
    {
        self.ask.connector != 0
            || matches!(self.row.profile.purpose, Purpose::ChargePointMaxProfile)
    }

    /// Returns whether a connector has a transaction, and an installed profile may apply to it.
    /// There the reason on `explain`'s pages why the profile never sets the limit is checked.
    fn is_of_active(&self, connector: u32) -> bool
        ensures { result ≡ is_of_active (point_state self.now.view) self.now.row.now connector }
    {
        self.view.active_since(connector as usize).is_some()
            && (self.row.connector == 0 || self.row.connector == connector)
    }
}
