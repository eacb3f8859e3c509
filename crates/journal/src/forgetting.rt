//! Requests for schedules can be left out of a journal.

ghost use Rattle.journal.specs.Forgetting.{ForgettingKeepsChanges};

/// The law that requests for schedules change nothing else. A legal history without them is legal,
/// and leads to the same state, except for the kept requests and the number of the last one.
pub fn requests_can_be_left_out()
    ensures { ForgettingKeepsChanges }
{}
