//! Values that the threads of a server share.

use std::marker::{Send, Sync};

/// A value that threads may share for as long as the program runs.
// The threads of `run` have no scope: they outlive the function that starts them.
pub trait Shareable: Send + Sync + Drop + 'static {}

impl<T: Send + Sync + Drop + 'static> Shareable for T {}
