//! The active transactions of a charge point, by connector.

ghost use Rattle.std.specs.Prelude.{◌≡◌, ◌↔◌, ◌<◌, ◌≤◌, ℕ, List, Option, None, IsTrue, IfOk, length, replicate, option_map, slice_set};
ghost use Rattle.transactions.specs.declared.transaction.Transaction.{Transaction};
ghost use Rattle.std.specs.List.{position};
ghost use Rattle.std.specs.Option.{option_copied};
ghost use Rattle.transactions.specs.ActiveTable.{start_of, starts, active_at, began, started, has_id, connector_of, stopped};

use crate::begin::Begin;
use crate::transaction::Transaction;
use ocpp_scalars::Instant;
use std::alloc::{AllocError, Global};
use std::marker::Model;

/// The effect of a start at a connector.
#[derive(Clone, Copy, PartialEq, Eq)]
pub enum Began {
    /// A new transaction begins, with the number that was offered for it.
    Fresh,
    /// A retransmitted StartTransaction of the active transaction, which has this number.
    Repeat(i32),
}

/// The active transactions of a charge point: at most one at each of its connectors 1, 2, ..
#[derive(Drop)]
pub struct ActiveTable {
    slots: Vec<Option<Transaction>>,
    /// The start of each slot's transaction.
    // Kept beside the slots, so that a view of the point borrows them as a slice and copies
    // nothing.
    starts: Vec<Option<Instant>>,
}

// In clauses, a table is the list of its slots, those of connectors 1, 2, ..
impl Model for ActiveTable {
    ghost use Rattle.std.specs.Prelude.{List, Option};
    ghost use Rattle.transactions.specs.declared.transaction.Transaction.{Transaction};
    ghost use Rattle.transactions.specs.ActiveTable.{AreSlots};

    ghost Value = { List (Option Transaction) };

    ghost view = { λ t. t.slots.items };

    ghost invariant = { λ t. AreSlots t.slots.items t.starts.items };
}

impl ActiveTable {
    /// Makes a table of a number of connectors, all without a transaction.
    pub fn new(alloc: Global, connectors: u32) -> Result<ActiveTable, AllocError>
        ensures { IfOk result (λ table. table ≡ replicate connectors None) }
    {
        let slots = empty_slots(alloc, connectors as usize)?;
        let starts = empty_slots(alloc, connectors as usize)?;
        Ok(ActiveTable { slots, starts })
    }

    /// Begins a transaction at a connector, and ends the one that is active there. A retransmitted
    /// StartTransaction of that one changes nothing. Allocates nothing.
    pub fn start(&mut self, connector: u32, begin: Begin, next: i32) -> Began
        requires above { 0 < connector }
        requires has { connector ≤ length self.old }
        ensures answer { result ≡ began self.old connector begin }
        ensures slots { self.new ≡ started self.old connector begin next }
    {
        let began = what_began(self.slots.as_slice(), connector, &begin);
        if let Began::Fresh = began {
            self.put(
                connector as usize - 1,
                Some(Transaction { id: next, begin }),
            );
        }
        began
    }

    /// Returns the effect that a start at a connector would have. Changes nothing.
    pub fn began(&self, connector: u32, begin: &Begin) -> Began
        ensures { result ≡ began self.now connector begin.now }
    {
        what_began(self.slots.as_slice(), connector, begin)
    }

    /// Ends the transaction of this number, and returns its connector, or `None` if no active
    /// transaction has it. Allocates nothing.
    pub fn stop(&mut self, id: i32) -> Option<u32>
        ensures connector { result ≡ connector_of self.old id }
        ensures slots { self.new ≡ stopped self.old id }
    {
        let place = place_of(self.slots.as_slice(), id)?;
        self.put(place, None);
        Some(place as u32 + 1)
    }

    /// Returns the connector of the active transaction of this number, or `None` if none has it.
    pub fn connector_of(&self, id: i32) -> Option<u32>
        ensures { result ≡ connector_of self.now id }
    {
        let before = place_of(self.slots.as_slice(), id)?;
        Some(before as u32 + 1)
    }

    /// Stores a connector's transaction, or that it has none, in the table of a charge point's
    /// active transactions, with its start.
    fn put(&mut self, place: usize, slot: Option<Transaction>)
        requires { place < length self.old }
        ensures { self.new ≡ slice_set self.old place slot }
    {
        self.starts[place] = start_of(&slot);
        self.slots[place] = slot;
    }

    /// Returns the number of the active transaction at a connector; connector 0 and connectors that
    /// the table lacks have none.
    pub fn active_on(&self, connector: u32) -> Option<i32>
        ensures { result ≡ option_map (λ (t : Transaction). t.id) (active_at self.now connector) }
    {
        match active_at(self.slots.as_slice(), connector) {
            Some(active) => Some(active.id),
            None => None,
        }
    }

    /// Returns the active transaction at a connector; connector 0 and connectors that the table
    /// lacks have none.
    pub fn active_at(&self, connector: u32) -> Option<&Transaction>
        ensures { option_copied result ≡ active_at self.now connector }
    {
        active_at(self.slots.as_slice(), connector)
    }

    /// Returns the starts of the active transactions at connectors 1, 2, ..
    pub fn starts(&self) -> &[Option<Instant>]
        ensures { result.now ≡ starts self.now }
    {
        self.starts.as_slice()
    }

    /// Returns a copy.
    pub fn copy(&self) -> Result<ActiveTable, AllocError>
        ensures { IfOk result (λ copy. copy ≡ self.now) }
    {
        let alloc = *self.slots.allocator();
        let slots = copy_of_slots(alloc, self.slots.as_slice())?;
        let starts = Vec::from_slice(alloc, self.starts.as_slice())?;
        Ok(ActiveTable { slots, starts })
    }

    /// Whether two tables are equal; the case of idTags counts.
    pub fn same(&self, other: &ActiveTable) -> bool
        ensures { IsTrue result ↔ (self.now ≡ other.now) }
    {
        same_slots(self.slots.as_slice(), other.slots.as_slice())
    }
}

/// Returns the start that the table of a point's active transactions keeps beside a connector's
/// slot: the timestamp of its transaction, if it has one. Limits are computed from these starts.
fn start_of(slot: &Option<Transaction>) -> Option<Instant>
    ensures { result ≡ start_of slot.now }
{
    match slot {
        Some(active) => Some(active.begin.timestamp),
        None => None,
    }
}

/// Returns the active transaction at a connector of a charge point, from the table of these;
/// connector 0 and connectors without a slot have none.
fn active_at(slots: &[Option<Transaction>], connector: u32) -> Option<&Transaction>
    ensures { option_copied result ≡ active_at slots.now connector }
{
    if connector == 0 {
        return None;
    }
    match slots.get(connector as usize - 1) {
        Some(Some(active)) => Some(active),
        _ => None,
    }
}

/// Returns the effect of a charge point's StartTransaction at a connector on the table of its
/// active transactions: a new transaction, or the number of the active one, if it is retransmitted.
fn what_began(slots: &[Option<Transaction>], connector: u32, begin: &Begin) -> Began
    ensures { result ≡ began slots.now connector begin.now }
{
    // Only the active transaction is compared: remembering ended ones would need unbounded memory.
    match active_at(slots, connector) {
        Some(active) if begin.is_repeat_of(&active.begin) => Began::Repeat(active.id),
        _ => Began::Fresh,
    }
}

/// Makes the slots of a charge point's connectors in the table of active transactions, all empty.
fn empty_slots<T: Drop>(alloc: Global, count: usize) -> Result<Vec<Option<T>>, AllocError>
    ensures { IfOk result (λ slots. slots.items ≡ replicate count None) }
{
    let mut slots = Vec::with_capacity(alloc, count)?;
    for _slot in 0..count {
        slots.push(None)?;
    }
    Ok(slots)
}

/// Returns the index of the connector's slot in the table of a point's active transactions whose
/// transaction has this number.
fn place_of(slots: &[Option<Transaction>], id: i32) -> Option<usize>
    ensures { result ≡ position (has_id id) slots.now }
{
    slots
        .iter()
        .position(|slot| slot.as_ref().is_some_and(|active| active.id == id))
}

/// Copies the slots of the table of a charge point's active transactions, one for each connector.
fn copy_of_slots(
    alloc: Global,
    slots: &[Option<Transaction>],
) -> Result<Vec<Option<Transaction>>, AllocError>
    ensures { IfOk result (λ copy. copy.items ≡ slots.now) }
{
    let mut copies = Vec::with_capacity(alloc, slots.len())?;
    for slot in slots {
        copies.push(copy_of_slot(alloc, slot)?)?;
    }
    Ok(copies)
}

/// Copies the transaction in a connector's slot of the table of a charge point's active
/// transactions, if it has one.
fn copy_of_slot(
    alloc: Global,
    slot: &Option<Transaction>,
) -> Result<Option<Transaction>, AllocError>
    ensures { IfOk result (λ copy. copy ≡ slot.now) }
{
    match slot {
        Some(active) => Ok(Some(active.copy(alloc)?)),
        None => Ok(None),
    }
}

/// Whether two tables of a charge point's active transactions have equal transactions at each
/// connector.
fn same_slots(slots: &[Option<Transaction>], others: &[Option<Transaction>]) -> bool
    ensures { IsTrue result ↔ (slots.now ≡ others.now) }
{
    if slots.len() != others.len() {
        return false;
    }
    for place in 0..slots.len() {
        if !same_slot(&slots[place], &others[place]) {
            return false;
        }
    }
    true
}

/// Whether the slots of a connector in two tables of a charge point's active transactions have
/// equal transactions, or both none.
fn same_slot(slot: &Option<Transaction>, other: &Option<Transaction>) -> bool
    ensures { IsTrue result ↔ (slot.now ≡ other.now) }
{
    match (slot, other) {
        (Some(active), Some(other)) => active.same(other),
        (None, None) => true,
        _ => false,
    }
}
