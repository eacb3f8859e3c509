//! An entry of a journal, with the number that its step drew.

use crate::entry::Entry;

/// An entry, with the number that its step drew.
#[derive(Drop)]
pub struct NumberedEntry {
    pub entry: Entry,
    pub number: u64,
}
