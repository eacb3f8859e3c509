//! The law of reported schedules, on a function that does nothing.

ghost use Rattle.std.specs.Prelude.{◌≡◌, ◌↔◌, ℕ, List, true};
ghost use Rattle.meaning.specs.declared.composite.CompositePeriod.{CompositePeriod};
ghost use Rattle.meaning.specs.Said.{IsSaidSchedule};
ghost use Rattle.meaning.specs.ByCases.Said.{is_said_schedule};

/// The law that the computed test decides whether reported periods make a schedule.
pub fn said_schedules()
    ensures { (duration : ℕ) (periods : List CompositePeriod)
        → (is_said_schedule duration periods ≡ true) ↔ IsSaidSchedule duration periods }
{}
