//! Explained schedules made by hand.

use explain_pages::{ExplainedRequest, NotCounted};
use meaning::{Ask, Cause, PrevailingProfile, Reason, Shares, View};
use ocpp_scalars::Instant;
use profile::{Purpose, Row, Unit};
use std::alloc::Global;
use std::process::Abort;
use sweep_compiler::Interval;
use test_books::{instant_at, row_of};

/// A point of 63 A with two connectors of 32 A, transactions and rows.
#[derive(Drop)]
pub(crate) struct Point {
    rows: Vec<Row>,
    starts: [Option<Instant>; 2],
}

/// Returns a charge point with the profiles that lines describe, for tests of `explain`'s pages. It
/// has a transaction since midnight at `none` of the connectors, the `first`, the `second` or
/// `both`.
pub(crate) fn point_with(rt: &impl Abort, alloc: Global, lines: &str, active: &str) -> Point {
    let midnight = instant_at(0).expect(rt, "error");
    Point {
        rows: rows_of(rt, alloc, lines),
        starts: starts_of(midnight, active),
    }
}

/// Returns the installed profiles that the lines of a test of `explain`'s pages describe.
fn rows_of(rt: &impl Abort, alloc: Global, lines: &str) -> Vec<Row> {
    let mut rows = Vec::new(alloc);
    for line in lines.lines() {
        let row = row_of(alloc, line).expect(rt, line);
        rows.push(row).ok().expect(rt, line);
    }
    rows
}

/// Returns the starts of the transactions at `none` of a charge point's two connectors, the
/// `first`, the `second` or `both`, for tests of `explain`'s pages.
fn starts_of(start: Instant, active: &str) -> [Option<Instant>; 2] {
    match active {
        "first" => [Some(start), None],
        "second" => [None, Some(start)],
        "both" => [Some(start), Some(start)],
        _ => [None, None],
    }
}

impl Point {
    /// Returns the profiles, ceilings and transactions of the charge point in tests of `explain`'s
    /// pages.
    pub(crate) fn view(&self) -> View<'_> {
        View {
            ceiling: 630,
            ceilings: &[320, 320],
            starts: &self.starts,
            rows: self.rows.as_slice(),
        }
    }
}

/// Returns an explained request made by hand for a connector of a point, for tests of `explain`'s
/// pages. It lasts a number of seconds from midnight on.
pub(crate) fn explain<'a>(
    rt: &impl Abort,
    view: View<'a>,
    (connector, duration): (u32, u32),
    intervals: &'a [Interval],
    not_counted: &'a [NotCounted],
) -> ExplainedRequest<'a> {
    let start = instant_at(0).expect(rt, "error");
    ExplainedRequest {
        point: "CP1",
        unit: Unit::A,
        ask: Ask::try_new(connector, start, duration).expect(rt, "error"),
        view,
        intervals,
        not_counted,
        known: &[],
    }
}

/// Returns the values that identify a profile at connector 0, for tests of `explain`'s pages.
pub(crate) fn profile(id: i32, purpose: Purpose, stack_level: u32) -> PrevailingProfile {
    PrevailingProfile {
        id,
        purpose,
        stack_level,
        connector: 0,
    }
}

/// Returns an interval of an explained schedule without shares, for tests of `explain`'s pages.
pub(crate) fn interval(
    alloc: Global,
    (start, end): (u32, u32),
    limit: u32,
    cause: Cause,
) -> Interval {
    Interval {
        start,
        end,
        reason: Reason {
            limit,
            cause,
            shares: Shares::none(alloc),
        },
    }
}

/// Checks in tests of `explain` and of the status port that a picture or a page contains each line
/// of a wanted text.
pub(crate) fn expect(rt: &impl Abort, text: &str, wanted: &str) {
    for line in wanted.lines() {
        assert!(rt; text.contains(line), "{line}");
    }
}

/// Checks in tests of `explain` and of the status port that a text, or the names of the reasons in
/// JSON, equals the wanted text.
pub(crate) fn same(rt: &impl Abort, found: &str, wanted: &str) {
    assert!(rt; found == wanted, "{found}, wanted {wanted}");
}
