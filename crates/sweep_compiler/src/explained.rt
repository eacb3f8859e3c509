//! The causes of a request's limits.

ghost use Rattle.std.specs.Prelude.{◌≡◌, ℕ, ◌+◌, ◌-◌, ◌<◌, ◌≤◌, ◌^◌, length, IfOk};
ghost use Rattle.point_book.specs.Book.{state_of};
ghost use Rattle.meaning.specs.View.{point_state};
ghost use Rattle.sweep_compiler.specs.ByCases.Swept.{IsReadyCurve};
ghost use Rattle.sweep_compiler.specs.Places.{is_second_asked, places, places_within};
ghost use Rattle.sweep_compiler.specs.Explained.{IsExplanation};

use crate::explanation::Explanation;
use crate::gathering::Gathering;
use crate::interval::Interval;
use crate::limit_curve::LimitCurve;
use crate::turns::Turns;
use meaning::Ask;
use ocpp_scalars::Refusal;
use point_book::PointBook;
use std::alloc::{AllocError, Global};

/// Explains the limit at each second of a request (chapter 3.13), in intervals. The reason is
/// evaluated once for the start, and at most once for each place after it, however long the request
/// is. Memory is taken for the rows that count, the intervals, and the shares of each.
pub fn explain(
    alloc: Global,
    book: &PointBook,
    ask: &Ask,
    turns: &mut Turns,
) -> Result<Explanation, AllocError>
    requires has_connector { ask.now.connector ≤ length book.now.ceilings }
    requires fresh { turns.old < 2 ^ 63 }
    ensures explained { IfOk result (λ explained. IsExplanation (state_of book.now)
        ask.now.connector ask.now.start ask.now.duration explained) }
    ensures bound { turns.new ≤ turns.old + (1 + places book.now ask.now) }
    ensures counted { turns.old ≤ turns.new }
    ensures each { IfOk result (λ explained. turns.old + length explained.intervals ≤ turns.new) }
{
    let gathering = Gathering {
        alloc,
        book,
        view: book.view(),
        asked: ask.start,
        last: ask.start.plus(u64::from(ask.duration) - 1),
    };
    // The only refusal possible here is that memory ran out.
    let Ok(mut curve) = gathering.curve(ask.connector) else {
        return Err(AllocError);
    };
    match explain_along(alloc, &mut curve, ask.duration, turns) {
        Ok(explained) => Ok(explained),
        Err(_) => Err(AllocError),
    }
}

/// Explains a schedule's limits in intervals of one reason each, by a sweep of the schedule
/// compiler: for `explain`, `check`, `call` and the status page. It takes one turn (an evaluation)
/// at the first second and at each place.
fn explain_along(
    alloc: Global,
    curve: &mut LimitCurve<'_>,
    duration: u32,
    turns: &mut Turns,
) -> Result<Explanation, Refusal>
    requires some { 0 < duration }
    requires whole { curve.old.last + 1 - curve.old.asked ≡ duration }
    requires start { curve.old.at ≡ curve.old.asked }
    requires ready { IsReadyCurve curve.old }
    requires fresh { turns.old < 2 ^ 63 }
    ensures explained { IfOk result (λ explained. IsExplanation (point_state curve.old.view)
        curve.old.connector curve.old.asked duration explained) }
    ensures bound { turns.new ≤ turns.old + (1 + places_within
        (is_second_asked (point_state curve.old.view) curve.old.connector curve.old.asked)
        duration) }
    ensures counted { turns.old ≤ turns.new }
    ensures each { IfOk result (λ explained. turns.old + length explained.intervals ≤ turns.new) }
{
    let mut intervals = Vec::new(alloc);
    let mut start = 0;
    let mut reason = turns.reason_of(alloc, curve)?;
    loop {
        let Some(next) = curve.go_to_next()? else {
            intervals.push(Interval {
                start,
                end: duration,
                reason,
            })?;
            return Ok(Explanation::new(duration, intervals));
        };
        let found = turns.reason_of(alloc, curve)?;
        if !found.same(&reason) {
            intervals.push(Interval {
                start,
                end: next,
                reason,
            })?;
            start = next;
            reason = found;
        }
    }
}
