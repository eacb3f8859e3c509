//! A made step that is to be noted.

use crate::entry::Entry;
use ghost_list::ListName;
use version_store::RecordedStates;

/// A step that was made on a book and changed something.
#[derive(Drop)]
pub struct MadeStep<N: ListName> {
    /// Its entry, and the number that it drew.
    pub entry: Entry,
    pub number: u64,
    /// The recorded states of the book before it, and with it.
    pub before: RecordedStates<N>,
    pub after: RecordedStates<N>,
}
