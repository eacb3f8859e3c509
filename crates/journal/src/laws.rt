//! The meaning of entries for a restart.

ghost use Rattle.journal.specs.Account.{AnsweredSurvives, AnsweredSurvivesCalls, EntriesAreRestored};

use crate::noted_run::noted_runs_are_restored;

/// The law of all noted steps: entries that account for states are lines that a restart restores,
/// from the first state to the last one, except for requests.
pub fn entries_are_restored()
    ensures { EntriesAreRestored }
{
    noted_runs_are_restored();
}

/// The law of all answered steps: a crash leaves lines that a restart restores, up to each state
/// that a receipt shows. The crash may come between calls on the file, or at any moment of one.
pub fn answered_survives()
    ensures between { AnsweredSurvives }
    ensures calls { AnsweredSurvivesCalls }
{
    noted_runs_are_restored();
}
