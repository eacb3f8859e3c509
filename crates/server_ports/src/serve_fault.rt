//! Why a server fails.

use std::alloc::AllocError;
use thiserror::Error;

/// Why the server failed.
#[derive(Clone, Copy, Debug, Error, PartialEq, Eq)]
pub enum ServeFault {
    /// A connection couldn't be accepted. Earlier ones were served to their end.
    #[error("device: socket")]
    Socket,
    #[error("OutOfMemory")]
    OutOfMemory,
}

impl From<AllocError> for ServeFault {
    fn from(_: AllocError) -> ServeFault {
        ServeFault::OutOfMemory
    }
}
