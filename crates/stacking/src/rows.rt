//! The rows of a charge point.

ghost use Rattle.std.specs.Prelude.{◌≡◌, ◌↔◌, ◌+◌, ◌≤◌, nat_le, [], None, IsOk, IsTrue, IfErr, IfOk, OnErr, OnOk, length, slice_index_or};
ghost use Rattle.profile.specs.Candidates.{candidates};
ghost use Rattle.std.specs.List.{list_any};
ghost use Rattle.profile.specs.Changes.{matches, installed, cleared, without_transaction_profiles};
ghost use Rattle.stacking.specs.Limits.{max_rows};
ghost use Rattle.stacking.specs.Candidates.{AreByFallingLevel};
ghost use Rattle.stacking.specs.ByCases.Candidates.{candidates_left};
ghost use Rattle.stacking.specs.Rows.{AreRows, IsRefused, rows_begun};

use crate::candidates::Candidates;
use crate::changes::{drop_cleared, drop_replaced, drop_transaction_profiles, has_match, staying};
use crate::levels::{candidate_row_indexes, level_above};
use ocpp_scalars::{Instant, Refusal};
use profile::{Criteria, Profile, Purpose, Row};
use std::alloc::{AllocError, Global};
use std::marker::Model;

/// The most rows of a charge point.
pub const MAX_ROWS: usize = 200;

/// The profiles that a charge point has installed, in the order of their installs, at most
/// `MAX_ROWS`. No two have the same chargingProfileId, and no two the same connector, purpose and
/// stack level.
#[derive(Drop)]
pub struct Rows {
    items: Vec<Row>,
}

impl Model for Rows {
    ghost use Rattle.std.specs.Prelude.{List};
    ghost use Rattle.profile.specs.declared.row.Row.{Row};
    ghost use Rattle.stacking.specs.Candidates.{AreByFallingLevel};
    ghost use Rattle.stacking.specs.ByCases.Candidates.{candidates_left};
    ghost use Rattle.stacking.specs.Rows.{AreRows};

    ghost Value = { List Row };

    ghost view = { λ r. r.items.items };

    ghost invariant = { λ r. AreRows r.items.items };
}

impl Rows {
    /// Makes an empty list. Allocates nothing.
    pub fn new(alloc: Global) -> Rows
        ensures { result ≡ [] }
    {
        Rows {
            items: Vec::new(alloc),
        }
    }

    /// Returns the rows, in the order of their installs.
    pub fn as_slice(&self) -> &[Row]
        ensures value { result.now ≡ self.now }
        ensures rows { AreRows self.now }
    {
        self.items.as_slice()
    }

    /// Installs a row, which replaces those with its chargingProfileId and those with its
    /// connector, purpose and stack level. On `TooManyProfiles` and `OutOfMemory` nothing changes,
    /// and the row is returned.
    pub fn install(&mut self, row: Row) -> Result<(), (Refusal, Row)>
        ensures rows { OnOk result (self.new ≡ installed self.old row) }
        ensures room { OnOk result (length (installed self.old row) ≤ max_rows) }
        ensures refused { IfErr result (λ refused. IsRefused self.old row refused self.new) }
    {
        if staying(self.items.as_slice(), &row) >= MAX_ROWS {
            return Err((Refusal::TooManyProfiles, row));
        }
        // After the limit, so that a full table is refused as such without memory too; before the
        // removal, so that a refusal leaves all rows.
        if self.items.reserve(1).is_err() {
            return Err((Refusal::OutOfMemory, row));
        }
        drop_replaced(&mut self.items, &row);
        self.items.push(row).unwrap();
        Ok(())
    }

    /// Whether there would be at most `MAX_ROWS` rows after the install of a row.
    pub fn has_room(&self, row: &Row) -> bool
        ensures { result ≡ nat_le (length (installed self.now row.now)) max_rows }
    {
        staying(self.items.as_slice(), row) < MAX_ROWS
    }

    /// Whether a row matches each given criterion.
    pub fn has_match(&self, criteria: &Criteria) -> bool
        ensures { result ≡ list_any (matches criteria.now) self.now }
    {
        has_match(self.items.as_slice(), criteria)
    }

    /// Removes the rows that match each given criterion, and returns their number.
    pub fn clear(&mut self, criteria: &Criteria) -> usize
        ensures rows { self.new ≡ cleared self.old criteria.now }
        ensures count { result + length self.new ≡ length self.old }
    {
        let before = self.items.len();
        drop_cleared(&mut self.items, criteria);
        before - self.items.len()
    }

    /// Removes the TxProfile rows of a connector, whose transaction has ended, and returns their
    /// number.
    pub fn drop_tx(&mut self, connector: u32) -> usize
        ensures rows { self.new ≡ without_transaction_profiles self.old connector }
        ensures count { result + length self.new ≡ length self.old }
    {
        let before = self.items.len();
        drop_transaction_profiles(&mut self.items, connector);
        before - self.items.len()
    }

    /// Begins the transaction of a number at a connector at a moment: removes the TxProfile rows of
    /// the previous one, and installs its own profile (chapter 5.11), if it has one. If there would
    /// be more than `MAX_ROWS` rows, the profile is dropped. Only a profile needs memory: if there
    /// is none, nothing changes and the profile is returned.
    pub fn begin(
        &mut self,
        connector: u32,
        moment: Instant,
        id: i32,
        profile: Option<Profile>,
    ) -> Result<(), Option<Profile>>
        ensures rows { OnOk result (self.new ≡ rows_begun self.old connector moment id profile) }
        ensures unchanged { OnErr result (self.new ≡ self.old) }
        ensures back { IfErr result (λ refused. refused ≡ profile) }
        ensures certain { profile ≡ None → IsOk result }
    {
        let Some(profile) = profile else {
            drop_transaction_profiles(&mut self.items, connector);
            return Ok(());
        };
        // Memory comes first, so that a refusal leaves all rows.
        if self.items.reserve(1).is_err() {
            return Err(Some(profile));
        }
        drop_transaction_profiles(&mut self.items, connector);
        let row = Row {
            connector,
            moment,
            profile: profile.with_transaction(id),
        };
        if staying(self.items.as_slice(), &row) < MAX_ROWS {
            drop_replaced(&mut self.items, &row);
            self.items.push(row).unwrap();
        }
        Ok(())
    }

    /// Returns the rows of a purpose that apply to a connector (chapter 3.13), by strictly falling
    /// stack level, each once. It includes TxProfile rows whether or not a transaction is active.
    pub fn candidates(&self, purpose: Purpose, connector: u32) -> Candidates<'_>
        ensures { AreByFallingLevel
            (candidates purpose self.now connector)
            (candidates_left result) }
    {
        let rows = self.items.as_slice();
        Candidates {
            rows,
            places: candidate_row_indexes(rows, purpose, connector),
            // From the highest level of a row: a walk from level 99 cost a point with few profiles
            // more than the rest of its sweep.
            below: level_above(rows),
        }
    }

    /// Returns a copy.
    pub fn copy(&self) -> Result<Rows, AllocError>
        ensures { IfOk result (λ copy. copy ≡ self.now) }
    {
        let items = copy_of_rows(*self.items.allocator(), self.items.as_slice())?;
        Ok(Rows { items })
    }

    /// Whether two points have equal rows, in the same order and installed at the same moments.
    pub fn same(&self, other: &Rows) -> bool
        ensures { IsTrue result ↔ (self.now ≡ other.now) }
    {
        same_rows(self.as_slice(), other.as_slice())
    }
}

/// Copies the rows of a charge point, which are its installed charging profiles (each with its
/// connector), for a copy of the point's book.
fn copy_of_rows(alloc: Global, rows: &[Row]) -> Result<Vec<Row>, AllocError>
    ensures { IfOk result (λ copy. copy.items ≡ rows.now) }
{
    let mut copies = Vec::with_capacity(alloc, rows.len())?;
    for row in rows {
        copies.push(row.copy()?)?;
    }
    Ok(copies)
}

/// Whether two charge points have equal rows, their installed charging profiles, in the same order.
fn same_rows(rows: &[Row], others: &[Row]) -> bool
    ensures { IsTrue result ↔ (rows.now ≡ others.now) }
{
    if rows.len() != others.len() {
        return false;
    }
    for place in 0..rows.len() {
        if !rows[place].same(&others[place]) {
            return false;
        }
    }
    true
}
