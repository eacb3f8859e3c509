//! Lines of steps in the words of `step_words`, each with its expected outcome, such as `CP1 attach
//! = Attached 1`.

use crate::same::same_said;
use site_core::{Machine, Step};
use site_rules::{Site, read_site};
use std::alloc::Global;
use std::process::Abort;
use step_words::{Said, said_of, step_of};
use test_books::Words;

const SITE: &str =
    r#"{"unit":"A","points":[{"id":"CP1","ceiling":32.0,"connectors":[16.0,16.0]},{"id":"CP2","ceiling":32.0,"connectors":[16.0]}]}"#;

/// Reads the site of `SITE` for a test of the central system's machine: two charge points.
pub(crate) fn site(rt: &impl Abort, alloc: Global) -> Site {
    read_site(alloc, SITE.as_bytes()).expect(rt, "error")
}

/// Makes the machine of a test of `site_core`: the central system of two charge points, before any
/// step.
pub(crate) fn opening(rt: &impl Abort, alloc: Global) -> Machine {
    Machine::new(alloc, site(rt, alloc)).expect(rt, "error")
}

/// Splits a line of a test of `site_core`, such as `CP1 attach = Attached 1`, into the words of its
/// step and the expected outcome.
pub(crate) fn parts_of<'a>(rt: &impl Abort, line: &'a str) -> (&'a str, (&'a str, Option<u64>)) {
    let (step, wanted) = line.split_once(" = ").expect(rt, line);
    let mut words = Words::of(wanted);
    (step, (words.word(), words.long()))
}

/// Parses a step of the central system from the words of a test's line, such as `CP1 attach`.
pub(crate) fn step(rt: &impl Abort, alloc: Global, words: &str) -> Step {
    step_of(alloc, words).expect(rt, "error")
}

/// In the tests of `site_core`: makes a step of the central system on a machine, and returns its
/// outcome in words.
pub(crate) fn comes_to(machine: &mut Machine, step: &Step) -> Said {
    match machine.make(step) {
        Ok(reply) => said_of(&reply),
        Err(refusal) => (refusal.name(), None),
    }
}

/// Makes the steps of a test's lines on a machine of the central system, and checks the outcome
/// that each line expects.
pub(crate) fn run(rt: &impl Abort, alloc: Global, machine: &mut Machine, lines: &str) {
    for line in lines.lines() {
        let (words, wanted) = parts_of(rt, line);
        same_said(rt, comes_to(machine, &step(rt, alloc, words)), wanted, line);
    }
}
