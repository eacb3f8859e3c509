//! The noted lines of a run of steps lead to the state of the run.

ghost use Rattle.journal.specs.NotedRun.{NotedRunsAreRestored};

/// The law that a journal loses nothing but requests. Each step of a run is noted by a line that
/// leads to the step's state, or is about a request for a schedule. Then the lines lead from the
/// old state to the new one, both without their requests and without the number of the last
/// request.
pub fn noted_runs_are_restored()
    ensures { NotedRunsAreRestored }
{}
