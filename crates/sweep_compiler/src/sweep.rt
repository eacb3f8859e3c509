//! The only loop of a sweep.

ghost use Rattle.std.specs.Prelude.{◌≡◌, ℕ, ◌+◌, ◌-◌, ◌<◌, ◌≤◌, ◌^◌, length, IfOk};
ghost use Rattle.meaning.specs.Compiled.{IsCompiled};
ghost use Rattle.sweep_compiler.specs.Places.{places_within};

use crate::curve::Curve;
use crate::turns::Turns;
use meaning::{Composite, CompositePeriod, add_second};
use ocpp_scalars::Refusal;
use std::alloc::Global;

/// Returns the schedule compiler's exact composite schedule along a curve, found at its first
/// second and then from place to place: one turn (evaluation) for each. The refusals are
/// `ResultTooLong`, past `MAX_COMPOSITE_PERIODS` periods, and `OutOfMemory`.
pub(crate) fn sweep_along<C: Curve>(
    alloc: Global,
    curve: &mut C,
    duration: u32,
    turns: &mut Turns,
) -> Result<Composite, Refusal>
    requires some { 0 < duration }
    requires whole { C.end curve.old ≡ duration }
    requires start { C.here curve.old ≡ 0 }
    requires ready { C.IsReady curve.old }
    requires fresh { turns.old < 2 ^ 63 }
    ensures compiled { IsCompiled (C.limits curve.old) duration result }
    ensures bound { turns.new ≤ turns.old + (1 + places_within (C.is_place curve.old) duration) }
    ensures counted { turns.old ≤ turns.new }
    ensures each { IfOk result (λ schedule. turns.old + length schedule.periods ≤ turns.new) }
{
    let mut periods = Vec::new(alloc);
    let mut before = None;
    let mut second = 0;
    loop {
        let limit = curve.limit(turns);
        let period = CompositePeriod {
            start: second,
            limit,
        };
        add_second(&mut periods, before, period)?;
        before = Some(limit);
        match curve.go_on()? {
            Some(next) => second = next,
            None => return Ok(Composite::new(duration, periods)),
        }
    }
}
