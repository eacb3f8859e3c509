//! The faults of a file of keys.

ghost use Rattle.std.specs.Prelude.{◌≡◌};
ghost use Rattle.site_keys.specs.declared.keys_fault.KeysFault.TheVariants.{OutOfMemory};

use crate::line_fault::KeyLineFault;
use std::alloc::{AllocError, AllocFailed};
use thiserror::Error;

/// The reason why a file of keys can't be read.
#[derive(Clone, Copy, Debug, PartialEq, Eq, Error)]
pub enum KeysFault {
    /// The number, from 1, of the first line that isn't a key, a comment or empty.
    #[error("line {number}: {fault}")]
    Line { number: usize, fault: KeyLineFault },
    /// Memory ran out.
    #[error("OutOfMemory")]
    OutOfMemory,
}

impl From<AllocError> for KeysFault {
    ghost from_gives = { λ _ fault. fault ≡ OutOfMemory };

    fn from(_error: AllocError) -> KeysFault {
        KeysFault::OutOfMemory
    }
}

impl<T: Drop> From<AllocFailed<T>> for KeysFault {
    ghost from_gives = { λ _ fault. fault ≡ OutOfMemory };

    fn from(_error: AllocFailed<T>) -> KeysFault {
        KeysFault::OutOfMemory
    }
}
