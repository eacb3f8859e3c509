//! The contents of a file at its start, and at each sync.

ghost use Rattle.append_log.specs.Contents.{file_of};
ghost use Rattle.append_log.specs.Log.{contents};

use append_log::{AppendedFile, Log};
use ghost_list::{Companion, EntryFrom, Front, GhostList, ListName};
use std::marker::Model;
use version_store::RecordedStates;

/// The contents of a file, and the states recorded by its last line. No value of it exists at run
/// time: it is an entry of a ghost list.
pub(crate) struct SyncedFile<N: ListName> {
    bytes: Vec<u8>,
    states: RecordedStates<N>,
}

impl<N: ListName> Model for SyncedFile<N> {
    ghost use Rattle.journal.specs.Account.{FileState};

    ghost Value = { FileState };

    ghost view = { λ s. record { bytes = s.bytes.items; states = s.states } };
}

/// The contents of a file at its start, and then at each sync.
pub(crate) type Syncs<N> = GhostList<SyncedFile<N>, Companion<N>>;

/// The first of these contents, up to some moment.
pub(crate) type KnownSyncs<N> = Front<SyncedFile<N>, Companion<N>>;

/// A log, and the states recorded by its last line.
#[derive(Drop)]
pub(crate) struct AccountedLog<F: AppendedFile, N: ListName> {
    pub log: Log<F>,
    pub states: RecordedStates<N>,
}

/// Makes the ghost entry of a log's file.
pub(crate) struct InFile;

impl<F: AppendedFile, N: ListName> EntryFrom<AccountedLog<F, N>, SyncedFile<N>> for InFile {
    ghost entry = { λ a. record { bytes = file_of (contents a.log); states = a.states } };
}
