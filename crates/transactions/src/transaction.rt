//! A transaction at a connector.

ghost use Rattle.std.specs.Prelude.{◌≡◌, ◌↔◌, IsTrue, IfOk};

use crate::begin::Begin;
use std::alloc::{AllocError, Global};

/// A transaction at a connector.
#[derive(Drop)]
pub struct Transaction {
    /// transactionId.
    pub id: i32,
    /// The StartTransaction that began it.
    pub begin: Begin,
}

impl Transaction {
    /// Returns a copy.
    pub fn copy(&self, alloc: Global) -> Result<Transaction, AllocError>
        ensures { IfOk result (λ copy. copy ≡ self.now) }
    {
        Ok(Transaction {
            id: self.id,
            begin: self.begin.copy(alloc)?,
        })
    }

    /// Whether two are equal; the case of idTags counts.
    pub fn same(&self, other: &Transaction) -> bool
        ensures { IsTrue result ↔ (self.now ≡ other.now) }
    {
        self.id == other.id && self.begin.same(&other.begin)
    }
}
