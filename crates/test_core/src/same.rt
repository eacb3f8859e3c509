//! Comparisons for tests, each in a function of its own: an assertion takes long to prove, and a
//! call of one doesn't. Each takes the case that it compares.

use std::process::Abort;

/// Checks that a test of `site_core` or `version_store` found the wanted number. A failure names
/// the case.
pub(crate) fn same(rt: &impl Abort, found: u64, wanted: u64, case: &str) {
    assert!(rt; found == wanted, "{case}: {found}, wanted {wanted}");
}

/// Checks that a test of `site_core` or `version_store` found the wanted text. A failure names the
/// case.
pub(crate) fn same_text(rt: &impl Abort, found: &str, wanted: &str, case: &str) {
    assert!(rt; found == wanted, "{case}: {found}, wanted {wanted}");
}

/// Checks that a step of the central system had the wanted outcome: its name, and its number if it
/// has one.
pub(crate) fn same_said(
    rt: &impl Abort,
    found: (&str, Option<u64>),
    wanted: (&str, Option<u64>),
    case: &str,
) {
    same_text(rt, found.0, wanted.0, case);
    holds(rt, found.1 == wanted.1, case);
}

/// Checks a fact in a test of `site_core` or `version_store`. A failure names the case.
pub(crate) fn holds(rt: &impl Abort, fact: bool, case: &str) {
    assert!(rt; fact, "{case}");
}
