//! The calls of a `Book` that no session of the program makes, once each with ample memory: a body
//! that always reports out of memory would be proved too, whatever its contract.

ghost use Rattle.std.specs.Prelude.{◌≡◌};

use crate::played::site;
use crate::same::holds;
use site_core::PointId;
use std::alloc::Global;
use std::marker::Brand;
use std::process::Abort;
use std::sync::ledger::{Blank, Ledger};
use test_books::{begin_of, criteria_of, row_of};
use version_store::{Book, Pass};

/// Returns the identity of CP1, the charge point at which this test makes calls on a book.
fn point(rt: &impl Abort, alloc: Global) -> PointId {
    PointId::copied(alloc, "CP1").expect(rt, "error")
}

/// Checks the calls of a session on a book that install a charging profile and clear it, and by
/// which a transaction begins and ends.
fn changes<C: Ledger, A: Ledger>(
    rt: &impl Abort,
    alloc: Global,
    book: &mut Book<C, A>,
    pass: &mut Pass<C, A>,
) {
    let row = row_of(alloc, "connector=1 periods=0:100").expect(rt, "error");
    let made = book.install(pass, point(rt, alloc), 1, row.profile, row.moment);
    holds(rt, made.is_ok(), "an install");
    let every = criteria_of("").expect(rt, "error");
    let cleared = book.clear(pass, point(rt, alloc), every);
    holds(rt, cleared == Ok(true), "a clear");
    let begin = begin_of(alloc, "ann", 0, 0).expect(rt, "error");
    let started = book.start(pass, point(rt, alloc), 1, begin);
    holds(rt, started.ok() == Some(1), "a start");
    let stopped = book.stop(pass, point(rt, alloc), 1);
    holds(rt, stopped == Ok(true), "a stop");
}

/// Checks the calls of a session on a book by which a point is audited, its status read, and a
/// remote start requested. Calls 0 to 2 are of a clear, the install and its clear.
fn calls<C: Ledger, A: Ledger>(
    rt: &impl Abort,
    alloc: Global,
    book: &mut Book<C, A>,
    pass: &mut Pass<C, A>,
) {
    let audited = book.audit(pass, point(rt, alloc), 1, 60);
    holds(rt, audited == Ok(3), "an audit");
    let status = book.status(pass, point(rt, alloc)).expect(rt, "error");
    holds(rt, status.outbox == 4, "calls");
    let tag = begin_of(alloc, "bob", 0, 0).expect(rt, "error").id_tag;
    let called = book.remote_start(pass, point(rt, alloc), 1, tag, None);
    holds(rt, called.ok() == Some(4), "a remote start");
}

/// Makes each of these calls on a new book.
fn each_call<C: Ledger, A: Ledger>(rt: &impl Abort, alloc: Global, changed: Blank, answered: Blank)
    requires changed { (changed.name ≡ C.name) × (changed.parts ≡ C.parts)
        × (changed.parts ≡ 1) }
    requires answered { (answered.name ≡ A.name) × (answered.parts ≡ A.parts)
        × (answered.parts ≡ 1) }
{
    let made = Book::<C, A>::make(alloc, changed, answered, site(rt, alloc), 1);
    let (mut book, mut passes) = made.expect(rt, "error");
    let mut pass = passes.pop().expect(rt, "no pass");
    changes(rt, alloc, &mut book, &mut pass);
    calls(rt, alloc, &mut book, &mut pass);
}

/// Makes each of these calls on a book whose ledgers of changes and answers are of this test alone.
fn each_call_of_a_book(rt: &impl Abort, alloc: Global) {
    each_call::<Brand, Brand>(rt, alloc, Blank::new(1), Blank::new(1));
}

/// Checks that each of these calls succeeds if memory suffices.
#[test]
fn each_call_is_made(rt: HostRuntime) {
    each_call_of_a_book(&rt, rt.alloc());
}
