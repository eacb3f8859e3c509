//! The one owner of a ghost list.

ghost use Rattle.std.specs.Prelude.{◌≡◌, ℕ, List, [], ◌∷◌, ◌++◌};
ghost use mathlib.Core.List.{IsPrefix};
ghost use base.Fraction.{full_share};
ghost use base.Stored.{coded_list};
ghost use denote.Sharing.{one};
ghost use Rattle.ghost_list.specs.Owned.{held, unnamed};

use crate::front::Front;
use crate::name::ListName;
use std::marker::{Model, PhantomData};

/// A new ghost list without entries, which no type names yet.
pub struct Unnamed {
    marker: PhantomData<()>,
    pub ghost name: { ℕ },
}

impl Model for Unnamed {
    ghost also_owns = { λ u. unnamed u.name };
}

/// The ghost list J: a list of E that only grows and takes no memory. Only this value adds to it.
pub struct GhostList<E, J: ListName> {
    marker: PhantomData<(E, J)>,
    pub ghost entries: { List E } by { coded_list E.code },
}

impl<E, J: ListName> Model for GhostList<E, J> {
    ghost also_owns = { λ c. held E.row.coded.code J.name c.entries full_share };

    ghost also_shares = { λ c _. one (held E.row.coded.code J.name c.entries) };
}

/// A way to make an entry from a value. The entry may contain ghost values, which take no memory.
pub trait EntryFrom<X, E> {
    ghost entry: { X → E };
}

/// The entry is the value itself.
pub struct Itself;

impl<E> EntryFrom<E, E> for Itself {
    ghost entry = { λ x. x };
}

impl Unnamed {
    /// Makes a ghost list without entries.
    pub fn new() -> Unnamed {
        Unnamed {
            marker: PhantomData,
        }
    }

    /// Gives the ghost list the name of the type J.
    pub fn named<E, J: ListName>(self) -> GhostList<E, J>
        requires { self.name ≡ J.name }
        ensures { result.entries ≡ [] }
    {
        let Self { marker: _ } = self;
        GhostList {
            marker: PhantomData,
        }
    }
}

impl<E, J: ListName> GhostList<E, J> {
    /// Adds an entry at the end.
    pub fn add(&mut self, entry: &E)
        ensures { self.new.entries ≡ self.old.entries ++ entry.now ∷ [] }
    {
        self.add_from::<E, Itself>(entry)
    }

    /// Adds the entry that M makes from a value.
    // The body is empty: entries exist only in proofs, where the proof by hand adds this one.
    pub fn add_from<X, M: EntryFrom<X, E>>(&mut self, from: &X)
        ensures { self.new.entries ≡ self.old.entries ++ M.entry from.now ∷ [] }
    {}

    /// Returns a front of all entries so far.
    pub fn front(&self) -> Front<E, J>
        ensures { result.entries ≡ self.now.entries }
    {
        Front {
            marker: PhantomData,
        }
    }

    /// Shows that the front is a prefix of the ghost list, however old it is.
    pub fn compare(&self, front: &Front<E, J>)
        ensures { IsPrefix front.now.entries self.now.entries }
    {}
}

impl Drop for Unnamed {
    fn drop(self) {
        let Self { marker: _ } = self;
    }
}

impl<E, J: ListName> Drop for GhostList<E, J> {
    fn drop(self) {
        let Self { marker: _ } = self;
    }
}

// These need no trust: `proofs/` shows that the owned resources name no thread.
unsafe impl Send for Unnamed {}

unsafe impl<E, J: ListName> Send for GhostList<E, J> {}

unsafe impl<E, J: ListName> Sync for GhostList<E, J> {}
