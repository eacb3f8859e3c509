//! The profiles that a point isn't known to have.

ghost use Rattle.std.specs.Prelude.{◌≡◌};
ghost use Rattle.std.specs.List.{list_any};
ghost use Rattle.site_core.specs.State.{profile_state_of};
ghost use Rattle.site_status.specs.Unsure.{is_unsure, may_have_lost};

use profile::Row;
use site_core::{Machine, ProfileState};

/// Returns whether a point may have lost one of these installed profiles: it accepted the profile
/// before it booted, or before an audit in which it differed.
pub fn may_have_lost(machine: &Machine, point: &str, rows: &[Row]) -> bool
    ensures { result ≡ may_have_lost machine.now point.now rows.now }
{
    rows.iter()
        .any(|row| is_unsure(machine.profile_state_of(point, row)))
}

/// Returns how many of these installed profiles a point isn't known to have, for the texts of the
/// status port.
pub(crate) fn unheld_profiles(machine: &Machine, point: &str, rows: &[Row]) -> u64 {
    let mut unheld = 0u64;
    for row in rows {
        if machine.profile_state_of(point, row) != ProfileState::Held {
            unheld = unheld.saturating_add(1);
        }
    }
    unheld
}

/// Returns whether a charge point accepted an installed profile and may have lost it since, for the
/// status port and `check`.
fn is_unsure(state: ProfileState) -> bool
    ensures { result ≡ is_unsure state }
{
    state == ProfileState::Unsure
}
