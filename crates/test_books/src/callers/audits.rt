//! A caller of `sweep_compiler` that judges a point's reply, also where memory is refused. The
//! cases
//! `schedules-of-audits` and `replies-to-audits` have the verdicts.

use crate::same::holds;
use crate::{Words, instant_at, row_of};
use meaning::{CompositePeriod, Said, SaidPeriods};
use point_book::PointBook;
use profile::Unit;
use std::alloc::Global;
use std::process::Abort;
use std::sync::Arc;
use sweep_compiler::{AuditJob, Judged, Verdict};

/// Makes a point's book for a test of audits. Its Relative profile has 16 A for half a minute from
/// the start of an audit's request, and then 8 A.
fn relative(rt: &impl Abort, alloc: Global) -> Arc<PointBook> {
    let ceilings = Vec::from_slice(alloc, &[320]).expect(rt, "error");
    let mut book = PointBook::try_new(alloc, 630, ceilings).expect(rt, "error");
    let row = row_of(alloc, "kind=Relative periods=0:160,30:80").expect(rt, "error");
    assert!(rt; row.connector <= book.connectors());
    match book.install(row) {
        Ok(()) => Arc::new(alloc, book).expect(rt, "error"),
        Err((refusal, _)) => panic!(rt; "error: {refusal}"),
    }
}

/// Returns the schedule that a test's charge point reports in an audit, from words such as `0 160`:
/// the start and the limit of each period.
fn schedule(rt: &impl Abort, alloc: Global, words: &str) -> Said {
    let mut words = Words::of(words);
    let mut periods = Vec::new(alloc);
    for _period in 0..2 {
        let start = words.number().expect(rt, "a start");
        let limit = words.number().expect(rt, "a limit");
        let period = CompositePeriod { start, limit };
        periods.push(period).expect(rt, "error");
    }
    Said::Schedule {
        start: instant_at(8).expect(rt, "error"),
        duration: Some(60),
        unit: Unit::A,
        periods: SaidPeriods::new(periods),
    }
}

/// Checks that a point's reply to an audit is Unsettled if memory runs out, and has its verdict
/// when it is judged again.
#[test]
fn an_audit_is_judged_again_where_memory_was_refused(rt: HostRuntime) {
    let alloc = rt.alloc();
    let book = relative(&rt, alloc);
    assert!(rt; book.connectors() >= 1);
    let job = AuditJob::new(book, 1, 60, Unit::A);
    let again = job.share().expect(&rt, "error");
    let said = schedule(&rt, alloc, "0 160 30 80");
    let said_again = schedule(&rt, alloc, "0 160 30 80");
    let first = Judged::make(alloc, job, said);
    if !first.short() {
        holds(&rt, first.verdict() == Verdict::Agrees, "with memory");
        return;
    }
    holds(&rt, first.verdict() == Verdict::Unsettled, "without memory");
    let second = Judged::make(alloc, again, said_again);
    holds(&rt, second.verdict() == Verdict::Agrees, "judged again");
    holds(&rt, !second.short(), "with memory again");
}
