//! The numbers that were drawn last.

ghost use Rattle.std.specs.Prelude.{◌≡◌, None};
ghost use Rattle.site_core.specs.State.{AreNumbers};
ghost use Rattle.site_core.specs.Step.{next_transaction, refusal_to_attach, refusal_to_start, version_refusal};

use ocpp_scalars::Refusal;

/// The highest version, request, link and call number.
pub const MAX_NUMBER: u64 = 1_000_000_000_000;

/// The highest number of a transaction.
pub(crate) const MAX_TRANSACTION: u32 = 2_147_483_647;

/// The numbers that were drawn last, each 0 before the first.
#[derive(Clone, Copy, PartialEq, Eq)]
pub struct Numbers {
    /// The version of the store: one more with each change of a point's book.
    pub version: u64,
    /// The number of a request for a composite schedule.
    pub request: u64,
    /// The number of a transaction.
    pub transaction: u32,
    /// The number of a link to a point.
    pub link: u64,
}

impl Numbers {
    /// Returns the reason why the machine can't change a charge point's book, if there is one: the
    /// store's versions are exhausted.
    pub(crate) fn version_refusal(&self) -> Option<Refusal>
        ensures { result ≡ version_refusal self.now }
    {
        if self.version == MAX_NUMBER {
            Some(Refusal::VersionsExhausted)
        } else {
            None
        }
    }

    /// Returns the reason why the machine can't begin a transaction, if there is one: the store's
    /// versions or the transactions' numbers are exhausted.
    pub(crate) fn refusal_to_start(&self) -> Option<Refusal>
        ensures { result ≡ refusal_to_start self.now }
    {
        if let Some(refusal) = self.version_refusal() {
            return Some(refusal);
        }
        if self.transaction == MAX_TRANSACTION {
            return Some(Refusal::TransactionsExhausted);
        }
        None
    }

    /// Returns the reason why the machine can't give a charge point a new link, if there is one:
    /// the links' numbers are exhausted.
    pub(crate) fn refusal_to_attach(&self) -> Option<Refusal>
        ensures { result ≡ refusal_to_attach self.now }
    {
        if self.link == MAX_NUMBER {
            Some(Refusal::VersionsExhausted)
        } else {
            None
        }
    }

    /// Returns the number (transactionId) that the machine gives the next transaction at the site,
    /// which must be within the limit.
    pub(crate) fn next_transaction(&self) -> i32
        requires numbers { AreNumbers self.now }
        requires last { refusal_to_start self.now ≡ None }
        ensures { result ≡ next_transaction self.now }
    {
        (self.transaction + 1) as i32
    }
}
