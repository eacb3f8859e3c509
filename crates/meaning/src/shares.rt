//! The shares of a sum.

ghost use Rattle.std.specs.Prelude.{◌≡◌, ◌↔◌, IsTrue, []};

use crate::cause::Share;
use std::alloc::Global;
use std::marker::Model;

/// The shares of the active connectors of a point in the sum of connector 0, by rising connector.
#[derive(Drop)]
pub struct Shares {
    items: Vec<Share>,
}

impl Model for Shares {
    ghost use Rattle.std.specs.Prelude.{List};
    ghost use Rattle.meaning.specs.declared.cause.Share.{Share};

    ghost Value = { List Share };

    ghost view = { λ s. s.items.items };
}

impl Shares {
    /// Makes an empty list. Allocates nothing.
    pub fn none(alloc: Global) -> Shares
        ensures { result ≡ [] }
    {
        Shares {
            items: Vec::new(alloc),
        }
    }

    /// Makes the shares of a list.
    pub fn new(items: Vec<Share>) -> Shares
        ensures { result ≡ items.items }
    {
        Shares { items }
    }

    /// Returns the shares, by rising connector.
    pub fn as_slice(&self) -> &[Share]
        ensures { result.now ≡ self.now }
    {
        self.items.as_slice()
    }

    /// Whether two lists of shares are equal.
    pub fn same(&self, other: &Shares) -> bool
        ensures { IsTrue result ↔ (self.now ≡ other.now) }
    {
        same_shares(self.as_slice(), other.as_slice())
    }
}

/// Whether two reasons for a limit have equal lists of the active connectors' shares in the sum
/// that is the whole charge point's limit.
fn same_shares(shares: &[Share], others: &[Share]) -> bool
    ensures { IsTrue result ↔ (shares.now ≡ others.now) }
{
    if shares.len() != others.len() {
        return false;
    }
    for place in 0..shares.len() {
        if shares[place] != others[place] {
            return false;
        }
    }
    true
}
