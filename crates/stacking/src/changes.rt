//! The rows that an install, a clear and the end of a transaction remove.

ghost use Rattle.std.specs.Prelude.{◌≡◌, ◌≤◌, length, vec_len, vec_capacity};
ghost use Rattle.std.specs.List.{list_any};
ghost use Rattle.profile.specs.Changes.{is_purpose, has_key_of, is_replaced_by, rows_beside, matches, cleared, is_tx_profile_at, without_transaction_profiles};

use profile::{Criteria, Purpose, Row};

/// Returns the number of a charge point's rows (installed charging profiles) that a newly installed
/// one doesn't replace.
pub(crate) fn staying(rows: &[Row], new: &Row) -> usize
    ensures { result ≡ length (rows_beside rows.now new.now) }
{
    // In a free function: inside a method of `Rows` the prover left this chain and `retain` open.
    rows.iter().filter(|row| !is_replaced_by(new, row)).count()
}

/// Whether any row (installed charging profile) of a charge point matches each given criterion of a
/// ClearChargingProfile.
pub(crate) fn has_match(rows: &[Row], criteria: &Criteria) -> bool
    ensures { result ≡ list_any (matches criteria.now) rows.now }
{
    rows.iter().any(|row| matches(criteria, row))
}

/// Removes the rows (installed charging profiles) of a charge point that a newly installed one
/// replaces.
pub(crate) fn drop_replaced(rows: &mut Vec<Row>, new: &Row)
    ensures rows { rows.new.items ≡ rows_beside rows.old.items new.now }
    ensures bound { vec_len rows.new ≤ vec_len rows.old }
    ensures capacity { vec_capacity rows.new ≡ vec_capacity rows.old }
{
    rows.retain(|row| !is_replaced_by(new, row));
}

/// Removes the rows (installed charging profiles) of a charge point that match each given criterion
/// of a ClearChargingProfile.
pub(crate) fn drop_cleared(rows: &mut Vec<Row>, criteria: &Criteria)
    ensures rows { rows.new.items ≡ cleared rows.old.items criteria.now }
    ensures bound { vec_len rows.new ≤ vec_len rows.old }
{
    rows.retain(|row| !matches(criteria, row));
}

/// Removes the rows (installed charging profiles) of a charge point that are TxProfiles at this
/// connector, whose transaction has ended.
pub(crate) fn drop_transaction_profiles(rows: &mut Vec<Row>, connector: u32)
    ensures rows { rows.new.items ≡ without_transaction_profiles rows.old.items connector }
    ensures bound { vec_len rows.new ≤ vec_len rows.old }
    ensures capacity { vec_capacity rows.new ≡ vec_capacity rows.old }
{
    rows.retain(|row| !is_tx_profile_at(connector, row));
}

/// Whether a newly installed row (a charging profile at a connector) replaces a row of its charge
/// point: they share the chargingProfileId, or the connector, purpose and stack level.
fn is_replaced_by(new: &Row, row: &Row) -> bool
    ensures { result ≡ is_replaced_by new.now row.now }
{
    row.profile.id == new.profile.id || has_key_of(new, row)
}

/// Whether a row (an installed charging profile) has the connector, purpose and stack level of a
/// newly installed one, which then replaces it.
fn has_key_of(new: &Row, row: &Row) -> bool
    ensures { result ≡ has_key_of new.now row.now }
{
    row.connector == new.connector
        && is_purpose(new.profile.purpose, row.profile.purpose)
        && row.profile.stack_level == new.profile.stack_level
}

/// Whether two purposes of charging profiles are equal. So are installed profiles compared at an
/// install, a clear, a transaction's end, or a look-up by stack level.
pub(crate) fn is_purpose(purpose: Purpose, other: Purpose) -> bool
    ensures { result ≡ is_purpose purpose other }
{
    purpose == other
}

/// Whether a charge point's row (an installed charging profile) matches each given criterion of a
/// ClearChargingProfile, and so is cleared.
fn matches(criteria: &Criteria, row: &Row) -> bool
    ensures { result ≡ matches criteria.now row.now }
{
    criteria.id.is_none_or(|id| row.profile.id == id)
        && criteria
            .connector
            .is_none_or(|connector| row.connector == connector)
        && criteria
            .purpose
            .is_none_or(|purpose| is_purpose(purpose, row.profile.purpose))
        && criteria
            .stack_level
            .is_none_or(|level| row.profile.stack_level == level)
}

/// Whether a row (an installed charging profile) is a TxProfile at this connector, to be removed
/// when the connector's transaction ends.
fn is_tx_profile_at(connector: u32, row: &Row) -> bool
    ensures { result ≡ is_tx_profile_at connector row.now }
{
    is_purpose(Purpose::TxProfile, row.profile.purpose) && row.connector == connector
}
