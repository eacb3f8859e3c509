//! The places of connections with long messages.

use std::sync::{Mutex, Wait};

/// The most connections with long messages at a time.
// Each takes up to four times the longest message in memory, and keeps some of it until it ends.
const MAX_PLACES: u64 = 16;

/// The places for connections with long messages: how many are free, and how many connections wait
/// for one. Most connections never have a long message.
#[derive(Drop)]
pub struct LongMessages {
    places: Mutex<FreePlaces>,
}

#[derive(Clone, Copy)]
struct FreePlaces {
    free: u64,
    waiting: u64,
}

/// Whether a connection has one of the places.
#[derive(Clone, Copy, PartialEq, Eq)]
pub enum LongMessagePlace {
    /// It has had no long message.
    Unasked,
    /// It waits for a place.
    Awaited,
    /// It has a place until it ends.
    Taken,
}

impl LongMessages {
    /// Returns the places, all of them free.
    pub fn new() -> LongMessages {
        LongMessages {
            places: Mutex::new(FreePlaces {
                free: MAX_PLACES,
                waiting: 0,
            }),
        }
    }

    /// Asks for a place for a connection that has none, perhaps not for the first time. If none is
    /// free, the connection waits for one.
    pub fn ask<R: Wait>(&self, rt: &R, place: LongMessagePlace) -> LongMessagePlace {
        let mut places = self.places.lock(rt);
        if places.free == 0 {
            // A waiting connection asks again at each tick, and is counted once.
            if place == LongMessagePlace::Unasked {
                places.waiting = places.waiting.saturating_add(1);
            }
            return LongMessagePlace::Awaited;
        }
        if place == LongMessagePlace::Awaited {
            places.waiting = places.waiting.saturating_sub(1);
        }
        places.free -= 1;
        LongMessagePlace::Taken
    }

    /// Frees the place of a connection that ends, or ends its wait for one.
    pub fn leave<R: Wait>(&self, rt: &R, place: LongMessagePlace) {
        let mut places = self.places.lock(rt);
        match place {
            LongMessagePlace::Unasked => {}
            LongMessagePlace::Awaited => places.waiting = places.waiting.saturating_sub(1),
            LongMessagePlace::Taken => places.free = places.free.saturating_add(1),
        }
    }

    /// Returns whether more connections wait for a place than places are free.
    pub fn are_wanted<R: Wait>(&self, rt: &R) -> bool {
        let places = self.places.lock(rt);
        // A waiting connection may take a second to ask again, so a free place counts as given.
        places.waiting > places.free
    }
}
