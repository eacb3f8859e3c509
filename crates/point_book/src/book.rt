//! The book of a charge point.

ghost use Rattle.std.specs.Prelude.{◌≡◌, ◌↔◌, ◌+◌, ◌<◌, ◌≤◌, None, IsOk, IsTrue, IfErr, IfOk, OnOk, length};
ghost use Rattle.std.specs.List.{list_any};
ghost use Rattle.std.specs.Option.{option_copied};
ghost use Rattle.profile.specs.Candidates.{candidates};
ghost use Rattle.profile.specs.Changes.{matches};
ghost use Rattle.meaning.specs.View.{point_state};
ghost use Rattle.stacking.specs.Candidates.{AreByFallingLevel};
ghost use Rattle.stacking.specs.ByCases.Candidates.{candidates_left};
ghost use Rattle.stacking.specs.Rows.{AreRows};
ghost use Rattle.transactions.specs.ActiveTable.{active_at, began, connector_of};
ghost use Rattle.point_book.specs.Book.{IsBook, empty_book, state_of};
ghost use Rattle.point_book.specs.Changes.{install_refusal, IsRefused, IsStartRefused, book_installed, book_cleared, book_started, book_stopped};

use crate::refusal::transaction_refusal;
use meaning::View;
use ocpp_scalars::Refusal;
use profile::{Criteria, Profile, Purpose, Row};
use stacking::{Candidates, Rows};
use std::alloc::{AllocError, Global};
use std::marker::Model;
use std::sync::ArcSlice;
use transactions::{ActiveTable, Began, Begin, Transaction};

/// The state of a charge point: its ceilings, its profiles and its active transactions. Every
/// profile is at connector 0 or at one that the point has, and every TxProfile at one with an
/// active transaction.
#[derive(Drop)]
pub struct PointBook {
    /// The point's ceiling, in tenths of A or W.
    ceiling: u32,
    /// The ceilings of connectors 1, 2, .., in tenths.
    // Shared, since they never change: the first change after a request or an audit copies the
    // book.
    ceilings: ArcSlice<u32>,
    rows: Rows,
    transactions: ActiveTable,
}

impl Model for PointBook {
    ghost use Rattle.std.specs.Arc.{arc_slice_items};
    ghost use Rattle.point_book.specs.Book.{BookState, IsBook};

    ghost Value = { BookState };

    ghost view = { λ b. record {
      ceiling = b.ceiling;
      ceilings = arc_slice_items b.ceilings;
      rows = b.rows;
      transactions = b.transactions;
    } };

    ghost invariant = { λ b. IsBook (record {
      ceiling = b.ceiling;
      ceilings = arc_slice_items b.ceilings;
      rows = b.rows;
      transactions = b.transactions;
    }) };
}

impl PointBook {
    /// Makes the book of a point with these ceilings, in tenths, and with neither profiles nor
    /// transactions. If there are more connectors than a `u32` counts, it fails as if out of
    /// memory.
    pub fn try_new(alloc: Global, ceiling: u32, ceilings: Vec<u32>) -> Result<PointBook, AllocError>
        ensures { IfOk result (λ book. book ≡ empty_book ceiling ceilings.items) }
    {
        let connectors = u32::try_from(ceilings.len()).ok().ok_or(AllocError)?;
        let transactions = ActiveTable::new(alloc, connectors)?;
        Ok(PointBook {
            ceiling,
            ceilings: ArcSlice::from_vec(ceilings)?,
            rows: Rows::new(alloc),
            transactions,
        })
    }

    /// Returns the state from which limits are computed.
    pub fn view(&self) -> View<'_>
        ensures state { point_state result ≡ state_of self.now }
        ensures connectors { length result.ceilings.now ≡ length self.now.ceilings }
        ensures book { IsBook self.now }
        ensures rows { AreRows self.now.rows }
    {
        View {
            ceiling: self.ceiling,
            ceilings: self.ceilings.as_slice(),
            starts: self.transactions.starts(),
            rows: self.rows.as_slice(),
        }
    }

    /// Returns the rows of a purpose that apply to a connector (chapter 3.13), by strictly falling
    /// stack level, each once.
    pub fn candidates(&self, purpose: Purpose, connector: u32) -> Candidates<'_>
        ensures { AreByFallingLevel
            (candidates purpose self.now.rows connector)
            (candidates_left result) }
    {
        self.rows.candidates(purpose, connector)
    }

    /// Returns the number of connectors of the point; they are numbered from 1.
    pub fn connectors(&self) -> u32
        ensures { result ≡ length self.now.ceilings }
    {
        self.ceilings.len() as u32
    }

    /// Returns the reason why a row isn't installed even with enough memory: the first of
    /// `NoTransaction`, `OtherTransaction` and `TooManyProfiles`. Changes nothing.
    pub fn install_refusal(&self, row: &Row) -> Option<Refusal>
        ensures { result ≡ install_refusal self.now row.now }
    {
        let transaction = self.transactions.active_on(row.connector);
        if let Some(refusal) = transaction_refusal(transaction, &row.profile) {
            return Some(refusal);
        }
        if self.rows.has_room(row) {
            None
        } else {
            Some(Refusal::TooManyProfiles)
        }
    }

    /// Whether a profile matches each given criterion (chapter 5.5).
    pub fn has_match(&self, criteria: &Criteria) -> bool
        ensures { result ≡ list_any (matches criteria.now) self.now.rows }
    {
        self.rows.has_match(criteria)
    }

    /// Returns the connector of the active transaction of this number, or `None` if none has it.
    pub fn connector_of(&self, id: i32) -> Option<u32>
        ensures { result ≡ connector_of self.now.transactions id }
    {
        self.transactions.connector_of(id)
    }

    /// Returns the active transaction at a connector; connector 0 and connectors that the point
    /// lacks have none.
    pub fn transaction_at(&self, connector: u32) -> Option<&Transaction>
        ensures { option_copied result ≡ active_at self.now.transactions connector }
    {
        self.transactions.active_at(connector)
    }

    /// Installs a row, which replaces those with its chargingProfileId and those with its
    /// connector, purpose and stack level (chapter 5.16). On a refusal nothing changes, and the row
    /// is returned. The refusal is the first cause of `NoTransaction`, `OtherTransaction` and
    /// `TooManyProfiles`, otherwise `OutOfMemory`.
    pub fn install(&mut self, row: Row) -> Result<(), (Refusal, Row)>
        requires { row.connector ≤ length self.old.ceilings }
        ensures allowed { OnOk result (install_refusal self.old row ≡ None) }
        ensures book { OnOk result (self.new ≡ book_installed self.old row) }
        ensures refused { IfErr result (λ refused. IsRefused self.old row refused self.new) }
    {
        let active = self.transactions.active_on(row.connector);
        if let Some(refusal) = transaction_refusal(active, &row.profile) {
            return Err((refusal, row));
        }
        match self.rows.install(row) {
            Ok(()) => Ok(()),
            Err(refused) => Err(refused),
        }
    }

    /// Removes the profiles that match each given criterion (chapter 5.5), and returns their
    /// number.
    pub fn clear(&mut self, criteria: &Criteria) -> usize
        ensures book { self.new ≡ book_cleared self.old criteria.now }
        ensures count { result + length self.new.rows ≡ length self.old.rows }
    {
        self.rows.clear(criteria)
    }

    /// Begins a transaction at a connector (chapter 4.8), ends the one that is active there, and
    /// removes that one's TxProfiles. A given profile (chapter 5.11) is installed for the
    /// transaction, from its timestamp on, unless there would be too many: then it is dropped. A
    /// retransmitted StartTransaction of the active one changes nothing. Only a profile needs
    /// memory: on `OutOfMemory` nothing changes, and both are returned.
    pub fn start(
        &mut self,
        connector: u32,
        begin: Begin,
        next: i32,
        profile: Option<Profile>,
    ) -> Result<Began, (Refusal, Begin, Option<Profile>)>
        requires above { 0 < connector }
        requires has { connector ≤ length self.old.ceilings }
        ensures answer { IfOk result
            (λ answer. answer ≡ began self.old.transactions connector begin) }
        ensures book { OnOk result (self.new ≡ book_started self.old connector begin next profile) }
        ensures refused { IfErr result
            (λ refused. IsStartRefused self.old begin profile refused self.new) }
        ensures certain { profile ≡ None → IsOk result }
    {
        // First, since a retransmission must not remove the TxProfiles of its own transaction.
        if let Began::Repeat(id) = self.transactions.began(connector, &begin) {
            return Ok(Began::Repeat(id));
        }
        let moment = begin.timestamp;
        // The rows before the transactions: only they can fail, and then both are unchanged.
        if let Err(profile) = self.rows.begin(connector, moment, next, profile) {
            return Err((Refusal::OutOfMemory, begin, profile));
        }
        Ok(self.transactions.start(connector, begin, next))
    }

    /// Returns the effect that a start at a connector would have: a new transaction, or a
    /// retransmission of the active one's StartTransaction. Changes nothing.
    pub fn began(&self, connector: u32, begin: &Begin) -> Began
        ensures { result ≡ began self.now.transactions connector begin.now }
    {
        self.transactions.began(connector, begin)
    }

    /// Ends the transaction of this number (chapter 4.10), removes the TxProfiles of its connector
    /// and returns the connector. Returns `None` and changes nothing if no active transaction has
    /// the number. Allocates nothing.
    pub fn stop(&mut self, id: i32) -> Option<u32>
        ensures connector { result ≡ connector_of self.old.transactions id }
        ensures book { self.new ≡ book_stopped self.old id }
    {
        let connector = self.transactions.stop(id)?;
        self.rows.drop_tx(connector);
        Some(connector)
    }

    /// Whether two books are equal: in their ceilings, their profiles with order and moments of
    /// install, and their transactions. The case of idTags counts.
    pub fn same(&self, other: &PointBook) -> bool
        ensures { IsTrue result ↔ (self.now ≡ other.now) }
    {
        // By value, also for an answer and its own request: the library has no `Arc::ptr_eq`, and
        // an equal book is as good.
        self.ceiling == other.ceiling
            && self.ceilings.as_slice() == other.ceilings.as_slice()
            && self.rows.same(&other.rows)
            && self.transactions.same(&other.transactions)
    }

    /// Whether two books have equal transactions at their connectors: in their numbers, idTags with
    /// case, meterStarts and starts.
    pub fn same_transactions(&self, other: &PointBook) -> bool
        ensures { IsTrue result ↔ (self.now.transactions ≡ other.now.transactions) }
    {
        self.transactions.same(&other.transactions)
    }

    /// Returns a copy.
    pub fn copy(&self) -> Result<PointBook, AllocError>
        ensures { IfOk result (λ copy. copy ≡ self.now) }
    {
        Ok(PointBook {
            ceiling: self.ceiling,
            ceilings: self.ceilings.clone()?,
            rows: self.rows.copy()?,
            transactions: self.transactions.copy()?,
        })
    }
}

impl Clone for PointBook {
    ghost is_clone = { λ old new. new ≡ old };

    fn clone(&self) -> Result<PointBook, AllocError> {
        self.copy()
    }
}
