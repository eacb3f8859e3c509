//! The profiles of a point at a line, as an undo compares them.

use meaning::PrevailingProfile;
use messages::push_profile;
use profile::Row;
use site_core::Machine;
use site_history::name_of;
use std::alloc::{AllocError, Global};

/// A profile of a point at a line.
#[derive(Drop)]
pub(crate) struct InstalledProfile {
    pub(crate) name: PrevailingProfile,
    /// The payload that installs it.
    // A profile is compared by this text, since it has all fields and the connector.
    pub(crate) payload: String,
    /// The number of its connector's active transaction, if there is one.
    pub(crate) transaction: Option<i32>,
    /// Whether it is gone and will be installed again.
    pub(crate) comes_back: bool,
}

/// Returns the charging profiles that a point has, for the undo of `call`, which compares those of
/// two moments.
pub(crate) fn installed_profiles(
    alloc: Global,
    machine: &Machine,
    point: &str,
) -> Result<Vec<InstalledProfile>, AllocError> {
    let mut kept = Vec::new(alloc);
    if let Some(book) = machine.book_of(point) {
        for row in book.view().rows {
            kept.push(InstalledProfile {
                name: name_of(row),
                payload: payload_of(alloc, row)?,
                transaction: transaction_of(machine, point, row.connector),
                comes_back: false,
            })?;
        }
    }
    Ok(kept)
}

/// Returns the payload of the SetChargingProfile by which an undo of `call` installs a profile
/// again.
fn payload_of(alloc: Global, row: &Row) -> Result<String, AllocError> {
    let connector = row.connector;
    let mut payload = format!(in alloc; "{{\"connectorId\":{connector},\"csChargingProfiles\":")?;
    push_profile(&mut payload, &row.profile)?;
    payload.push_str("}")?;
    Ok(payload)
}

/// Returns the number of the active transaction at a connector of a point. An undo of `call`
/// installs a TxProfile again only in its own transaction.
pub(crate) fn transaction_of(machine: &Machine, point: &str, connector: u32) -> Option<i32> {
    let book = machine.book_of(point)?;
    let transaction = book.transaction_at(connector)?;
    Some(transaction.id)
}

/// Returns whether one of these charging profiles has the same fields and connector as this one,
/// for the undo of `call`.
pub(crate) fn contains_profile(kept: &InstalledProfile, others: &[InstalledProfile]) -> bool {
    let payload = kept.payload.as_str();
    others.iter().any(|other| other.payload.as_str() == payload)
}
