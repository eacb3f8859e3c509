//! The plain compiler of composite schedules, the reference for every faster one.

ghost use Rattle.std.specs.Prelude.{◌≡◌, ◌+◌, ◌≤◌, ◌++◌, length, IfErr, OnErr, OnOk};
ghost use Rattle.meaning.specs.Limits.{max_composite_periods};
ghost use Rattle.meaning.specs.View.{point_state};
ghost use Rattle.meaning.specs.Limit.{limit_asked};
ghost use Rattle.meaning.specs.Compiled.{IsCompiled};
ghost use Rattle.meaning.specs.ByCases.PlainCompiler.{period_added, IsAddRefused};

use crate::ask::Ask;
use crate::composite::{Composite, CompositePeriod, MAX_COMPOSITE_PERIODS};
use crate::limit::limit_at;
use crate::view::View;
use ocpp_scalars::Refusal;
use std::alloc::Global;

/// Compiles the exact schedule of a request, second by second. Returns `ResultTooLong` if it has
/// more than `MAX_COMPOSITE_PERIODS` periods, or `OutOfMemory`.
pub fn compile_plain(alloc: Global, view: &View<'_>, ask: &Ask) -> Result<Composite, Refusal>
    requires has_connector { ask.now.connector ≤ length view.now.ceilings.now }
    ensures { IsCompiled (limit_asked (point_state view.now) ask.now.connector ask.now.start)
        ask.now.duration result }
{
    let mut periods = Vec::new(alloc);
    let mut before = None;
    for second in 0..ask.duration {
        let instant = ask.start.plus(u64::from(second));
        let limit = limit_at(view, ask.connector, ask.start, instant);
        let period = CompositePeriod {
            start: second,
            limit,
        };
        add_second(&mut periods, before, period)?;
        before = Some(limit);
    }
    Ok(Composite::new(ask.duration, periods))
}

/// Adds the period of one more second, unless its limit is that of the second before. The refusals
/// are `ResultTooLong`, past `MAX_COMPOSITE_PERIODS`, and `OutOfMemory`; then nothing is added.
pub fn add_second(
    periods: &mut Vec<CompositePeriod>,
    before: Option<u32>,
    period: CompositePeriod,
) -> Result<(), Refusal>
    requires few { length periods.old.items ≤ max_composite_periods }
    ensures added { OnOk result
        (periods.new.items ≡ periods.old.items ++ period_added before period) }
    ensures few { OnOk result (length periods.new.items ≤ max_composite_periods) }
    ensures refused { IfErr result
        (λ refusal. IsAddRefused (length periods.old.items + length (period_added before period))
        refusal) }
    ensures unchanged { OnErr result (periods.new.items ≡ periods.old.items) }
{
    if before == Some(period.limit) {
        return Ok(());
    }
    if periods.len() == MAX_COMPOSITE_PERIODS {
        return Err(Refusal::ResultTooLong);
    }
    periods.push(period)?;
    Ok(())
}
