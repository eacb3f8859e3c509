//! The book of a simulated charge point.

ghost use Rattle.std.specs.Prelude.{◌≡◌, ◌<◌, ◌≤◌, IfOk, IfErr, OnErr, OnOk, length, map, option_map, replicate, None};
ghost use Rattle.std.specs.List.{list_any};
ghost use Rattle.profile.specs.Changes.{matches};
ghost use Rattle.transactions.specs.ActiveTable.{active_at};
ghost use Rattle.point_book.specs.Book.{empty_book};
ghost use Rattle.point_book.specs.Changes.{install_refusal, IsRefused, book_installed, book_cleared, book_started, book_stopped};
ghost use Rattle.sim_point_core.specs.ByCases.ActiveTransaction.{running_of, running_at};

use ocpp_scalars::Refusal;
use point_book::PointBook;
use profile::{Criteria, Profile, Row};
use std::alloc::{AllocError, Global};
use std::marker::Model;
use transactions::{Began, Begin};

/// The data of an active transaction that its stop needs.
#[derive(Clone, Copy, PartialEq, Eq)]
pub struct ActiveTransaction {
    /// transactionId.
    pub id: i32,
    /// meterStart, in watt-hours.
    pub meter: i32,
}

/// The book of a simulated point, with the number and the meter of each active transaction.
#[derive(Drop)]
pub struct OwnBook {
    book: PointBook,
    /// The transactions of connectors 1, 2, ..
    running: Vec<Option<ActiveTransaction>>,
}

// Clauses see only the book; the transactions beside it are those in it.
impl Model for OwnBook {
    ghost use Rattle.std.specs.Prelude.{◌≡◌};
    ghost use Rattle.point_book.specs.Book.{BookState};
    ghost use Rattle.sim_point_core.specs.ByCases.ActiveTransaction.{slots_of};

    ghost Value = { BookState };

    ghost view = { λ b. b.book };

    ghost invariant = { λ b. b.running.items ≡ slots_of b.book.transactions };
}

impl OwnBook {
    /// Makes the book of a point with these ceilings, in tenths, and no profiles or transactions.
    pub fn try_new(alloc: Global, ceiling: u32, ceilings: Vec<u32>) -> Result<OwnBook, AllocError>
        ensures { IfOk result (λ book. book ≡ empty_book ceiling ceilings.items) }
    {
        let book = PointBook::try_new(alloc, ceiling, ceilings)?;
        let running = nothing_running(alloc, book.connectors())?;
        Ok(OwnBook { book, running })
    }

    /// Returns the book itself.
    pub fn book(&self) -> &PointBook
        ensures { result.now ≡ self.now }
    {
        &self.book
    }

    /// Returns the active transaction at a connector. Connector 0 and a connector that the point
    /// lacks have none.
    pub fn running_at(&self, connector: u32) -> Option<ActiveTransaction>
        ensures { result ≡ option_map running_of (active_at self.now.transactions connector) }
    {
        running_at(self.running.as_slice(), connector)
    }

    /// Installs a row (chapter 5.16), as [`PointBook::install`] does.
    pub fn install(&mut self, row: Row) -> Result<(), (Refusal, Row)>
        requires { row.connector ≤ length self.old.ceilings }
        ensures allowed { OnOk result (install_refusal self.old row ≡ None) }
        ensures book { OnOk result (self.new ≡ book_installed self.old row) }
        ensures refused { IfErr result (λ refused. IsRefused self.old row refused self.new) }
    {
        self.book.install(row)
    }

    /// Removes the profiles that match every given criterion (chapter 5.5).
    pub fn clear(&mut self, criteria: &Criteria)
        ensures { self.new ≡ book_cleared self.old criteria.now }
    {
        let _count = self.book.clear(criteria);
    }

    /// Begins a transaction at a connector (chapter 4.8), and ends the active one there. It may
    /// have a profile, as [`PointBook::start`] says. A retransmitted start changes nothing. Only a
    /// profile needs memory. If that fails, nothing changes, and both are returned.
    pub fn start(
        &mut self,
        connector: u32,
        begin: Begin,
        id: i32,
        profile: Option<Profile>,
    ) -> Result<(), (Begin, Option<Profile>)>
        requires above { 0 < connector }
        requires has { connector ≤ length self.old.ceilings }
        ensures book { OnOk result (self.new ≡ book_started self.old connector begin id profile) }
        ensures unchanged { OnErr result (self.new ≡ self.old) }
        ensures begin_back { IfErr result (λ refused. refused.0 ≡ begin) }
        ensures profile_back { IfErr result (λ refused. refused.1 ≡ profile) }
    {
        // The view shows that the book has a slot for each connector.
        let _view = self.book.view();
        let running = running_of(id, &begin);
        match self.book.start(connector, begin, id, profile) {
            Ok(Began::Fresh) => {
                self.running[connector as usize - 1] = Some(running);
                Ok(())
            }
            Ok(Began::Repeat(_)) => Ok(()),
            Err((_, begin, profile)) => Err((begin, profile)),
        }
    }

    /// Ends the transaction of this number (chapter 4.10). If no active one has it, nothing
    /// changes. Allocates nothing.
    pub fn stop(&mut self, id: i32)
        ensures { self.new ≡ book_stopped self.old id }
    {
        if let Some(connector) = self.book.stop(id) {
            self.running[connector as usize - 1] = None;
        }
    }
}

/// Returns the part of a simulated point's transaction that its StopTransaction needs: the
/// transactionId, and the meter value of its start.
fn running_of(id: i32, begin: &Begin) -> ActiveTransaction
    ensures { result ≡ record { id = id; meter = begin.now.meter_start } }
{
    ActiveTransaction {
        id,
        meter: begin.meter_start,
    }
}

/// Returns the active transaction at a connector of a simulated point, if there is one.
fn running_at(running: &[Option<ActiveTransaction>], connector: u32) -> Option<ActiveTransaction>
    ensures { result ≡ running_at running.now connector }
{
    if connector == 0 {
        return None;
    }
    match running.get(connector as usize - 1) {
        Some(running) => *running,
        None => None,
    }
}

/// Returns the active transactions of a simulated point with this many connectors before any start:
/// none.
fn nothing_running(
    alloc: Global,
    connectors: u32,
) -> Result<Vec<Option<ActiveTransaction>>, AllocError>
    ensures { IfOk result (λ running. running.items ≡ replicate connectors None) }
{
    let mut running = Vec::with_capacity(alloc, connectors as usize)?;
    for _connector in 0..connectors {
        running.push(None)?;
    }
    Ok(running)
}
