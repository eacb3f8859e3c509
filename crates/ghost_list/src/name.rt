//! The names that tie a value to its ghost list.

use std::marker::{Brand, PhantomData};

/// The names of a ghost list and of its companion, a second ghost list. A caller that passes
/// `Brand` picks both in its proof.
pub trait ListName {
    ghost use Rattle.std.specs.Prelude.{ℕ, Bool};

    ghost name: { ℕ };

    ghost companion: { ℕ };

    /// Whether anything is recorded under these names.
    ghost is_recorded: { Bool };
}

// Placeholders: the proof of a call that passes `Brand` gives other values, so that the name can be
// that of a list made just before the call.
impl ListName for Brand {
    ghost use Rattle.std.specs.Prelude.{true};

    ghost name = { 0 };

    ghost companion = { 0 };

    ghost is_recorded = { true };
}

/// The name of the companion of N's ghost list.
pub struct Companion<N> {
    marker: PhantomData<N>,
}

impl<N: ListName> ListName for Companion<N> {
    ghost name = { N.companion };

    ghost companion = { N.companion };

    ghost is_recorded = { N.is_recorded };
}
