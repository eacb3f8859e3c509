//! The numbers of changes made and answers handed out.

ghost use Rattle.std.specs.Prelude.{◌≡◌, ◌+◌, ◌<◌, ◌^◌};
ghost use Rattle.site_core.specs.Step.{counted};
ghost use Rattle.version_store.specs.Passes.{no_totals, totals_after};

use site_core::{Counted, Reply};

/// The numbers of changes of points' books that were made, and of answers that were handed out.
#[derive(Clone, Copy, PartialEq, Eq)]
pub struct Totals {
    pub changes: u64,
    pub answers: u64,
}

impl Totals {
    /// Returns the totals of the book or of a session's pass before any change or answer.
    pub(crate) fn none() -> Totals
        ensures { result ≡ no_totals }
    {
        Totals {
            changes: 0,
            answers: 0,
        }
    }

    /// Returns the numbers of changes made and of answers handed out that the book counts for one
    /// reply.
    pub(crate) fn of(reply: &Reply) -> Totals
        ensures { result ≡ totals_after no_totals reply.now }
    {
        let Counted {
            changes,
            answers,
            ..
        } = reply.counted();
        Totals { changes, answers }
    }

    /// Returns these totals of the book or of a session's pass with the changes and answers of one
    /// more reply.
    pub(crate) fn after(self, reply: &Reply) -> Totals
        requires changes { self.changes + (counted reply.now).changes < 2 ^ 64 }
        requires answers { self.answers + (counted reply.now).answers < 2 ^ 64 }
        ensures { result ≡ totals_after self reply.now }
    {
        let counted = Totals::of(reply);
        Totals {
            changes: self.changes + counted.changes,
            answers: self.answers + counted.answers,
        }
    }
}
