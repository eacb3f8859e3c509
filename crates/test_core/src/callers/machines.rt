//! A caller of `site_core`.

use crate::played::{comes_to, opening};
use crate::same::{same, same_said};
use site_core::{Machine, PointId, Step, Take};
use std::alloc::Global;
use std::process::Abort;
use step_words::Said;
use test_books::{instant_at, row_of};

/// Returns the step of the central system by which an operator installs a profile of 16 A at CP1.
fn install(rt: &impl Abort, alloc: Global) -> Step {
    Step::Install {
        point: PointId::copied(alloc, "CP1").expect(rt, "error"),
        row: row_of(alloc, "start=0 periods=0:160").expect(rt, "error"),
    }
}

/// Returns the step of the central system by which an operator requests a schedule of connector 1
/// of CP1 for a minute.
fn take(rt: &impl Abort, alloc: Global) -> Step {
    Step::Take(Take {
        point: PointId::copied(alloc, "CP1").expect(rt, "error"),
        connector: 1,
        start: instant_at(0).expect(rt, "error"),
        duration: 60,
        unit: None,
        seen: 0,
    })
}

/// Makes a step on the machine of the central system, and checks its outcome.
fn make(rt: &impl Abort, machine: &mut Machine, step: &Step, wanted: Said) {
    same_said(rt, comes_to(machine, step), wanted, wanted.0);
}

/// Checks that the central system's machine installs a profile, and compiles and returns a
/// requested schedule. Two calls wait for the point.
#[test]
fn a_machine_makes_steps(rt: HostRuntime) {
    let alloc = rt.alloc();
    let mut machine = opening(&rt, alloc);
    make(&rt, &mut machine, &install(&rt, alloc), ("Accepted", None));
    make(&rt, &mut machine, &take(&rt, alloc), ("Taken", Some(1)));
    make(&rt, &mut machine, &Step::Compile(1), ("Compiled", None));
    make(&rt, &mut machine, &Step::Answer(1), ("limit", Some(160)));
    same(&rt, machine.outbox_len("CP1") as u64, 2, "calls");
}
