//! The law of explanations, on a function that does nothing.

ghost use Rattle.std.specs.Prelude.{ℕ, ◌<◌};
ghost use Rattle.meaning.specs.View.{PointState};
ghost use Rattle.meaning.specs.Limit.{limit_asked};
ghost use Rattle.meaning.specs.Exact.{IsExact};
ghost use Rattle.sweep_compiler.specs.Explained.{ExplainedSchedule, IsExplanation, joined};

/// The law that an explanation of a request, with neighbours of equal limit joined, is the
/// composite schedule of the same request.
pub fn explanations_are_schedules()
    ensures { (state : PointState) (connector start duration : ℕ) (explained : ExplainedSchedule)
        → 0 < duration → IsExplanation state connector start duration explained
        → IsExact (limit_asked state connector start) duration (joined explained.intervals) }
{}
