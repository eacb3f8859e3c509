//! The laws of exact schedules.

ghost use Rattle.std.specs.Prelude.{◌≡◌, ◌↔◌, ℕ, ◌<◌, List, Ok, Err};
ghost use Rattle.ocpp_scalars.specs.declared.refusal.Refusal.TheVariants.{ResultTooLong};
ghost use Rattle.meaning.specs.declared.composite.CompositePeriod.{CompositePeriod};
ghost use Rattle.meaning.specs.View.{PointState};
ghost use Rattle.meaning.specs.Limit.{limit_asked};
ghost use Rattle.meaning.specs.Composite.{CompositeSchedule};
ghost use Rattle.meaning.specs.Exact.{IsExact};
ghost use Rattle.meaning.specs.Compiled.{IsExactAnswer, IsTooLong};
ghost use Rattle.meaning.specs.ByCases.Exact.{exact_periods, exact_schedule};

/// The law that every request for a connector of a point has an exact schedule.
pub fn exact_schedule_exists()
    ensures { (state : PointState) (connector start duration : ℕ) → 0 < duration
        → IsExact (limit_asked state connector start) duration
        (exact_periods (limit_asked state connector start) duration) }
{}

/// The law that two exact schedules of one request are equal.
pub fn one_schedule()
    ensures { (state : PointState) (connector start duration : ℕ)
        (one other : List CompositePeriod)
        → IsExact (limit_asked state connector start) duration one
        → IsExact (limit_asked state connector start) duration other → one ≡ other }
{}

/// The law that the periods and the schedule that are computed second by second are the exact ones.
/// A compiler returns that schedule, or that it is too long, or that memory ran out.
pub fn exact_schedules()
    ensures periods { (limit : ℕ → ℕ) (duration : ℕ) (periods : List CompositePeriod) → 0 < duration
        → IsExact limit duration periods ↔ (periods ≡ exact_periods limit duration) }
    ensures answer { (limit : ℕ → ℕ) (duration : ℕ) (schedule : CompositeSchedule) → 0 < duration
        → IsExactAnswer limit duration schedule ↔ (exact_schedule limit duration ≡ Ok schedule) }
    ensures too_long { (limit : ℕ → ℕ) (duration : ℕ) → 0 < duration
        → IsTooLong limit duration ↔ (exact_schedule limit duration ≡ Err ResultTooLong) }
{}
