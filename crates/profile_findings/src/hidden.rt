//! Finds a profile at connector 0 that may prevail at no connector.

ghost use Rattle.std.specs.Prelude.{◌≡◌, ◌↔◌, IsTrue, length};
ghost use Rattle.profile_findings.specs.Hidden.{SpeaksForNone, IsHiddenEverywhere};

use meaning::View;
use profile::{Purpose, Row, is_candidate};

/// Returns whether `check` or `call` warns of a point's TxDefaultProfile at connector 0: each
/// connector has one of its own at that stack level (chapter 3.13). It counts nowhere, even while
/// those have no limit.
pub(crate) fn is_hidden_everywhere(view: &View<'_>, row: &Row) -> bool
    ensures { IsTrue result
        ↔ IsHiddenEverywhere view.now.rows.now (length view.now.ceilings.now) row.now }
{
    row.connector == 0
        && row.profile.purpose == Purpose::TxDefaultProfile
        && speaks_for_none(view, row)
}

/// Returns whether an installed profile may prevail at no connector among the TxDefaultProfiles of
/// its point, for a warning of `check` or `call`.
fn speaks_for_none(view: &View<'_>, row: &Row) -> bool
    ensures { IsTrue result
        ↔ SpeaksForNone view.now.rows.now (length view.now.ceilings.now) row.now }
{
    for before in 0..view.ceilings.len() {
        if is_candidate(Purpose::TxDefaultProfile, view.rows, before + 1, row) {
            return false;
        }
    }
    true
}
