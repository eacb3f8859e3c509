//! The types that a site's sessions are generic in.

use ghost_list::ListName;
use journal::{Journal, NoJournal};
use ocpp_scalars::Moments;
use std::marker::PhantomData;
use std::sync::Wait;
use std::sync::ledger::Ledger;
use version_store::NoName;

/// The types that a site's sessions are generic in.
pub trait World {
    /// The ledger that counts the changes of the book.
    type Changes: Ledger;
    /// The ledger that counts the answers of the book.
    type Answers: Ledger;
    /// The name of the ghost list that records the states of the book.
    type Name: ListName;

    type Runtime: Wait;

    type Clock: Moments;

    type Journal: Journal<Self::Name>;
}

/// The world of a book whose states aren't recorded, and whose changes aren't noted.
pub struct Unrecorded<C, A, R, M> {
    _types: PhantomData<(C, A, R, M)>,
}

impl<C: Ledger, A: Ledger, R: Wait, M: Moments> World for Unrecorded<C, A, R, M> {
    type Changes = C;

    type Answers = A;

    type Name = NoName;

    type Runtime = R;

    type Clock = M;

    type Journal = NoJournal;
}
