//! A caller of `sweep_compiler`.

use crate::{instant_at, row_of};
use meaning::Ask;
use point_book::PointBook;
use std::test::Fail;
use sweep_compiler::{Turns, compile};

/// Checks that a day's schedule of a point is compiled from the three seconds at which a profile
/// may change its limit.
#[test]
fn a_schedule_is_compiled(rt: HostRuntime) -> Result<(), Fail> {
    let mut ceilings = Vec::new(rt.alloc());
    ceilings.push(320)?;
    let mut book = PointBook::try_new(rt.alloc(), 630, ceilings)?;
    let words = "kind=Recurring recurrency=Daily start=79200 duration=28800 periods=0:60";
    let night = row_of(rt.alloc(), words)?;
    let ask = Ask::try_new(1, instant_at(43_200)?, 86_400)?;
    assert!(rt; night.connector <= book.connectors());
    assert!(rt; book.install(night).is_ok());
    assert!(rt; ask.connector <= book.connectors());
    let mut turns = Turns::new();
    let schedule = compile(rt.alloc(), &book, &ask, &mut turns)?;
    for (period, (start, limit)) in schedule
        .periods()
        .iter()
        .zip([(0, 320), (36_000, 60), (64_800, 320)])
    {
        assert_eq!(rt; (period.start, period.limit), (start, limit));
    }
    assert_eq!(rt; (schedule.periods().len(), turns.count()), (3, 3));
    Ok(())
}
