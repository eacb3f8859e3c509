//! The rows of a point that apply to a connector.

ghost use Rattle.std.specs.Prelude.{◌≡◌};
ghost use Rattle.profile.specs.Candidates.{is_candidate, is_replaced_at};

use crate::purpose::Purpose;
use crate::row::Row;

/// Whether a row applies to a connector among the profiles of a purpose (chapter 3.13).
pub fn is_candidate(purpose: Purpose, rows: &[Row], connector: usize, row: &Row) -> bool
    ensures { result ≡ is_candidate purpose rows.now connector row.now }
{
    match (purpose, row.profile.purpose) {
        (Purpose::ChargePointMaxProfile, Purpose::ChargePointMaxProfile) => row.connector == 0,
        (Purpose::TxDefaultProfile, Purpose::TxDefaultProfile) => {
            row.connector as usize == connector
                || (row.connector == 0 && !is_replaced_at(rows, connector, row.profile.stack_level))
        }
        (Purpose::TxProfile, Purpose::TxProfile) => row.connector as usize == connector,
        _ => false,
    }
}

/// Whether a connector has, among a charge point's installed profiles, its own TxDefaultProfile at
/// a stack level. It replaces that of the whole point (connector 0).
fn is_replaced_at(rows: &[Row], connector: usize, level: u32) -> bool
    ensures { result ≡ is_replaced_at rows.now connector level }
{
    // It replaces by being installed, not only at seconds that it covers: OCPP lets it override the
    // default of the point, and mentions no seconds.
    rows.iter().any(|row| {
        matches!(row.profile.purpose, Purpose::TxDefaultProfile)
            && row.connector as usize == connector
            && row.profile.stack_level == level
    })
}
