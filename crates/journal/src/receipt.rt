//! Receipts: they show that lines are on the disk.

ghost use Rattle.std.specs.Prelude.{◌≡◌, true, Some, IfSome};
ghost use Rattle.journal.specs.Account.{Covers, HasSync, IsAmong, receipt_of};

use crate::synced_file::{KnownSyncs, Syncs};
use ghost_list::ListName;
use std::marker::Model;
use version_store::RecordedStates;

/// A receipt: it shows that the lines that account for these states are on the disk. Only a file
/// that has synced such lines makes one, or a book whose states aren't recorded.
#[derive(Drop)]
pub struct Receipt<N: ListName> {
    recorded: RecordedStates<N>,
    syncs: Option<KnownSyncs<N>>,
}

impl<N: ListName> Model for Receipt<N> {
    ghost use Rattle.std.specs.Prelude.{option_map};
    ghost use Rattle.journal.specs.Account.{IsGiven, ReceiptState, receipt_of};

    ghost Value = { ReceiptState };

    ghost view = { λ r. receipt_of r.recorded (option_map (λ f. f.entries) r.syncs) };

    ghost invariant = { λ r. IsGiven N.is_recorded r.recorded
        (option_map (λ f. f.entries) r.syncs) };
}

impl<N: ListName> Receipt<N> {
    /// Makes the receipt that a journal gives to a session: its lines for these states of the book
    /// are synced to disk.
    pub(crate) fn new(recorded: RecordedStates<N>, syncs: KnownSyncs<N>) -> Receipt<N>
        requires { HasSync syncs.entries recorded }
        ensures { result ≡ receipt_of recorded (Some syncs.entries) }
    {
        Receipt {
            recorded,
            syncs: Some(syncs),
        }
    }

    /// Makes the receipt of a book whose states aren't recorded. Returns `None` if they are.
    pub fn of_nothing(recorded: &RecordedStates<N>) -> Option<Receipt<N>>
        ensures { IfSome result (λ receipt. Covers N.is_recorded receipt recorded.now) }
    {
        // Recorded states need a file, and this receipt has none.
        if recorded.is_recorded() {
            return None;
        }
        Some(Receipt {
            recorded: recorded.copy(),
            syncs: None,
        })
    }

    /// Returns a copy.
    pub fn copy(&self) -> Receipt<N>
        ensures { result ≡ self.now }
    {
        Receipt {
            recorded: self.recorded.copy(),
            syncs: match &self.syncs {
                Some(syncs) => Some(syncs.copy()),
                None => None,
            },
        }
    }

    /// Returns whether it covers these recorded states: the last of them is among its own.
    pub fn covers(&self, recorded: &RecordedStates<N>) -> bool
        ensures { result ≡ true → Covers N.is_recorded self.now recorded.now }
    {
        self.recorded.is_at_least(recorded)
    }

    /// Shows that a journal's file has on its disk the lines that this receipt was given for, if it
    /// was given for a file.
    pub(crate) fn compare(&self, syncs: &Syncs<N>)
        ensures { N.is_recorded ≡ true → IsAmong self.now syncs.now.entries }
    {
        if let Some(known) = &self.syncs {
            syncs.compare(known);
        }
    }
}
