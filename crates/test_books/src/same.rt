//! Comparisons for tests, each in a function of its own: an assertion takes long to prove, and a
//! call of one doesn't. Each takes the case that it compares.

use std::process::Abort;

/// Checks that a test of a point's book found the wanted text. A failure names the case.
pub(crate) fn same_text(rt: &impl Abort, found: &str, wanted: &str, case: &str) {
    assert!(rt; found == wanted, "{case}: {found}, wanted {wanted}");
}

/// Checks a fact in a test of a point's book. A failure names the case.
pub(crate) fn holds(rt: &impl Abort, fact: bool, case: &str) {
    assert!(rt; fact, "{case}");
}
