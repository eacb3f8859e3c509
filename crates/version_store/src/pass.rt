//! The counts of a session's own calls.

ghost use Rattle.std.specs.Prelude.{◌≡◌, IfOk, All, length};
ghost use Rattle.version_store.specs.Passes.{unused_pass};

use crate::totals::Totals;
use std::alloc::{AllocError, Global};
use std::marker::Model;
use std::sync::ledger::{Ledger, Share};

/// The counts of one session: the changes and the answers of its own calls, and the newest version
/// of the store that it has seen. It fits only the book that it was made with.
#[derive(Drop)]
pub struct Pass<C: Ledger, A: Ledger> {
    /// Its part of the book's changes, and of its answers.
    pub(crate) changed: Share<C>,
    pub(crate) answered: Share<A>,
    pub(crate) totals: Totals,
    pub(crate) seen: u64,
}

impl<C: Ledger, A: Ledger> Model for Pass<C, A> {
    ghost use Rattle.std.specs.Prelude.{◌≡◌};
    ghost use Rattle.version_store.specs.Passes.{PassState};

    ghost Value = { PassState };

    ghost view = { λ pass. record { totals = pass.totals; seen = pass.seen } };

    ghost invariant = { λ pass. (pass.changed.parts ≡ 1) × (pass.answered.parts ≡ 1)
        × (pass.changed.amount ≡ pass.totals.changes)
        × (pass.answered.amount ≡ pass.totals.answers) };
}

impl<C: Ledger, A: Ledger> Pass<C, A> {
    /// Makes the pass of a session to the central system's book, which counts its changes and
    /// answers: none yet.
    pub(crate) fn new(changed: Share<C>, answered: Share<A>) -> Pass<C, A>
        requires parts { (changed.parts ≡ 1) × (answered.parts ≡ 1) }
        requires amounts { (changed.amount ≡ 0) × (answered.amount ≡ 0) }
        ensures { result ≡ unused_pass }
    {
        Pass {
            changed,
            answered,
            totals: Totals::none(),
            seen: 0,
        }
    }

    /// Returns the parts of the book's changes and answers that a session's pass has, each with its
    /// count, to settle the book.
    pub(crate) fn into_shares(self) -> (Share<C>, Share<A>)
        ensures parts { (result.0.parts ≡ 1) × (result.1.parts ≡ 1) }
        ensures changes { result.0.amount ≡ self.totals.changes }
        ensures answers { result.1.amount ≡ self.totals.answers }
    {
        (self.changed, self.answered)
    }

    /// Returns the numbers of changes that its calls made, and of answers handed out to them.
    pub fn totals(&self) -> Totals
        ensures { result ≡ self.now.totals }
    {
        self.totals
    }

    /// Returns the newest version of the store that the session has seen, 0 for none.
    pub fn seen(&self) -> u64
        ensures { result ≡ self.now.seen }
    {
        self.seen
    }
}

/// Makes the passes of this many sessions of the central system's book, which together have all its
/// parts.
pub(crate) fn passes_of<C: Ledger, A: Ledger>(
    alloc: Global,
    mut changed: Share<C>,
    mut answered: Share<A>,
    sessions: u64,
) -> Result<Vec<Pass<C, A>>, AllocError>
    requires parts { (changed.parts ≡ sessions) × (answered.parts ≡ sessions) }
    requires amounts { (changed.amount ≡ 0) × (answered.amount ≡ 0) }
    ensures passes { IfOk result (λ passes. length passes.items ≡ sessions) }
    ensures unused { IfOk result (λ passes. All (λ pass. pass ≡ unused_pass) passes.items) }
{
    let mut passes = Vec::new(alloc);
    for _session in 0..sessions {
        let pass = Pass::new(changed.split_off(1, 0), answered.split_off(1, 0));
        passes.push(pass)?;
    }
    Ok(passes)
}
