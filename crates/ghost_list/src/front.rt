//! The entries of a ghost list that a thread knows.

ghost use Rattle.std.specs.Prelude.{◌≡◌, ◌≤◌, List, length};
ghost use mathlib.Core.List.{IsPrefix};
ghost use base.Stored.{coded_list};
ghost use denote.Sharing.{said};
ghost use Rattle.ghost_list.specs.Owned.{known};

use crate::name::ListName;
use std::marker::{Model, PhantomData};

/// A prefix of the ghost list J: all its entries at some moment. It stays a prefix whatever is
/// added, and has no bytes at run time.
pub struct Front<E, J: ListName> {
    // J is in the type, so that fronts of different ghost lists can't be mixed.
    pub(crate) marker: PhantomData<(E, J)>,
    pub ghost entries: { List E } by { coded_list E.code },
}

impl<E, J: ListName> Model for Front<E, J> {
    ghost also_owns = { λ f. known E.row.coded.code J.name f.entries };

    ghost also_shares = { λ f _ κ. said (known E.row.coded.code J.name f.entries) κ };
}

impl<E, J: ListName> Front<E, J> {
    /// Copies the front.
    pub fn copy(&self) -> Front<E, J>
        ensures { result.entries ≡ self.now.entries }
    {
        Front {
            marker: PhantomData,
        }
    }

    /// Shows that the shorter of two fronts is a prefix of the longer.
    pub fn compare(&self, other: &Front<E, J>)
        ensures longer { length other.now.entries ≤ length self.now.entries
            → IsPrefix other.now.entries self.now.entries }
        ensures shorter { length self.now.entries ≤ length other.now.entries
            → IsPrefix self.now.entries other.now.entries }
    {}
}

impl<E, J: ListName> Drop for Front<E, J> {
    fn drop(self) {
        let Self { marker: _ } = self;
    }
}

unsafe impl<E, J: ListName> Send for Front<E, J> {}

unsafe impl<E, J: ListName> Sync for Front<E, J> {}
