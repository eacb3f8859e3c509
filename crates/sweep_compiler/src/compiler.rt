//! The compiler of composite schedules.

ghost use Rattle.std.specs.Prelude.{◌≡◌, ℕ, ◌+◌, ◌<◌, ◌≤◌, ◌^◌, length, IfOk};
ghost use Rattle.sweep_compiler.specs.Places.{places};
ghost use Rattle.sweep_compiler.specs.Right.{IsCompiledFor};

use crate::gathering::Gathering;
use crate::sweep::sweep_along;
use crate::turns::Turns;
use meaning::{Ask, Composite};
use ocpp_scalars::Refusal;
use point_book::PointBook;
use std::alloc::Global;

/// Compiles the exact schedule of a request (chapter 5.7). Its limit is evaluated once for the
/// start, and at most once for each place after it, however long the request is. The rows that
/// count are gathered first. Their memory grows with them and with the connectors that the request
/// covers, and not with the duration. The refusals are `ResultTooLong`, if the schedule has more
/// than `MAX_COMPOSITE_PERIODS` periods, and `OutOfMemory`.
pub fn compile(
    alloc: Global,
    book: &PointBook,
    ask: &Ask,
    turns: &mut Turns,
) -> Result<Composite, Refusal>
    requires has_connector { ask.now.connector ≤ length book.now.ceilings }
    requires fresh { turns.old < 2 ^ 63 }
    ensures compiled { IsCompiledFor book.now ask.now result }
    ensures bound { turns.new ≤ turns.old + (1 + places book.now ask.now) }
    ensures counted { turns.old ≤ turns.new }
    ensures each { IfOk result (λ schedule. turns.old + length schedule.periods ≤ turns.new) }
{
    let gathering = Gathering {
        alloc,
        book,
        view: book.view(),
        asked: ask.start,
        last: ask.start.plus(u64::from(ask.duration) - 1),
    };
    let mut curve = gathering.curve(ask.connector)?;
    sweep_along(alloc, &mut curve, ask.duration, turns)
}
