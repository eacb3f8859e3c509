//! The ghost record of a file for clauses: its contents, now and before. It takes no memory.

ghost use Rattle.std.specs.Prelude.{◌≡◌};
ghost use Rattle.std.specs.Borrow.{ftrue};
ghost use Rattle.append_log.specs.History.{History};
ghost use Rattle.append_log.specs.Recorded.{noted, opened};

use std::marker::{Model, PhantomData};

/// The contents of a file, now and before, according to the noted calls. `proofs/record/` has the
/// proofs, which are by hand.
#[derive(Drop)]
pub struct Record {
    marker: PhantomData<u8>,
    pub ghost history: { History },
}

impl Model for Record {
    ghost also_owns = { λ _. ftrue };
}

// A record owns nothing, so it may cross threads; `proofs/record/` proves it.
unsafe impl Send for Record {}

unsafe impl Sync for Record {}

impl Record {
    /// Makes the ghost record of an append-only log's file, before its first call.
    pub(crate) fn new() -> Record
        ensures { result.history ≡ opened 0 }
    {
        Record {
            marker: PhantomData,
        }
    }

    /// Notes in the ghost record a call on an append-only log's file by its number. Adds a count
    /// and the bytes that were passed to the call.
    // The body is empty: no proof ties a note to the call, so callers of this method need review.
    pub(crate) fn note(&mut self, _call: &[u64], _bytes: &[u8])
        ensures { self.new.history ≡ noted _call.now _bytes.now self.old.history }
    {}
}
