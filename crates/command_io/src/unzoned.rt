//! Instants of options that have no zone.

/// Prints a note if the instant of an option has no zone, and so counts as UTC.
pub fn note_unzoned<R: Eprint>(rt: &R, option: &str, text: &str) {
    if !has_zone(text) {
        let _ = eprintln!(rt; "central: {option} has no zone and counts as UTC");
    }
}

/// Returns whether the instant in an option, `--start` of `explain` or `--at` of `show` or
/// `explain`, has `Z` or an offset after its time. Any other text needs none.
fn has_zone(text: &str) -> bool {
    match text.split_once(['T', 't', ' ']) {
        // Only the time counts: a date has `-`, too.
        Some((_, time)) => time.contains(['Z', 'z', '+', '-']),
        None => true,
    }
}
