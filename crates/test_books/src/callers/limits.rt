//! A caller of `meaning`.

use crate::{instant_at, row_of};
use meaning::{Ask, View, compile_plain, limit_at};
use std::test::Fail;

/// Checks the limits of a point's charging profiles: at one instant, and for an hour, found second
/// by second.
#[test]
fn a_point_has_limits(rt: HostRuntime) -> Result<(), Fail> {
    let mut rows = Vec::new(rt.alloc());
    rows.push(row_of(rt.alloc(), "start=0 periods=0:160,1800:60")?)?;
    let view = View {
        ceiling: 630,
        ceilings: &[320],
        starts: &[None],
        rows: rows.as_slice(),
    };
    let ask = Ask::try_new(1, instant_at(0)?, 3_600)?;
    assert_eq!(rt; limit_at(&view, 1, ask.start, instant_at(1_800)?), 60);
    // No transaction is active, so the whole point has a limit of 0.
    assert_eq!(rt; limit_at(&view, 0, ask.start, ask.start), 0);
    let schedule = compile_plain(rt.alloc(), &view, &ask)?;
    assert_eq!(rt; schedule.periods().len(), 2);
    Ok(())
}
