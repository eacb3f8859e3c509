//! Comparisons for tests. Each is a function of its own: an assertion is long to prove, a call of
//! it isn't. Each takes the name of the case that it compares.

use std::process::Abort;

/// Checks that a test of keys, of a log or of OCPP-J frames found the wanted text. A failure names
/// the case.
pub(crate) fn same_text(rt: &impl Abort, found: &str, wanted: &str, case: &str) {
    assert!(rt; found == wanted, "{case}: {found}, wanted {wanted}");
}

/// Checks a fact in a test of OCPP-J frames. A failure names the case.
pub(crate) fn holds(rt: &impl Abort, fact: bool, case: &str) {
    assert!(rt; fact, "{case}");
}
