//! The number of free seats.

use std::sync::{Mutex, Wait};

/// The number of seats that wait for a connection, less the connections on their way to them.
#[derive(Drop)]
pub struct FreeSeats {
    count: Mutex<u64>,
}

impl FreeSeats {
    /// Returns the count of a server without seats.
    pub fn new() -> FreeSeats {
        FreeSeats {
            count: Mutex::new(0),
        }
    }

    /// Adds a free seat.
    pub fn add<R: Wait>(&self, rt: &R) {
        let mut count = self.count.lock(rt);
        *count = count.saturating_add(1);
    }

    /// Returns the number of free seats.
    pub fn count<R: Wait>(&self, rt: &R) -> u64 {
        *self.count.lock(rt)
    }

    /// Takes a free seat. Returns false if there is none.
    pub fn take<R: Wait>(&self, rt: &R) -> bool {
        let mut count = self.count.lock(rt);
        if *count == 0 {
            return false;
        }
        *count -= 1;
        true
    }
}
