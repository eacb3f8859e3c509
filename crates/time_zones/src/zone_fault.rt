//! The faults of a zone's file or of its clock.

use std::alloc::{AllocError, AllocFailed};

/// The reason why the clock of a zone can't be used.
#[derive(Clone, Copy, PartialEq, Eq)]
pub enum ZoneFault {
    /// The bytes aren't a TZif file, or the clock changes more often than any zone's does.
    NoZone,
    /// The time begins before 1970 in local time, or ends after 9999-12-30T22:00:00Z.
    Calendar,
    /// Memory ran out.
    OutOfMemory,
}

impl From<AllocError> for ZoneFault {
    fn from(_: AllocError) -> ZoneFault {
        ZoneFault::OutOfMemory
    }
}

impl<T: Drop> From<AllocFailed<T>> for ZoneFault {
    fn from(_failed: AllocFailed<T>) -> ZoneFault {
        ZoneFault::OutOfMemory
    }
}
