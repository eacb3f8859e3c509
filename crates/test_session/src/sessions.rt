//! Stories of sessions, in the form of `play`: requests that are given up or find no room, and
//! allocations that are refused. `tests/sockets` has streams that fail or end anywhere, and an
//! operator's refused allocations.

use crate::desk::{Tale, play};
use std::alloc::Global;
use std::marker::Brand;
use std::process::Abort;
use std::rt::Clock;
use std::sync::Wait;
use std::sync::ledger::Blank;

/// Plays a story of sessions in a test, on a book of this test alone. Returns how they ended, the
/// messages that their clients read, and the book's counts.
fn played<R: Abort + Wait + Clock>(rt: &R, alloc: Global, story: &str, enough: &str) -> String {
    let tale = Tale { story, enough };
    play::<Brand, Brand, R>(rt, alloc, Blank::new(1), Blank::new(1), &tale)
}

/// No worker compiles a job. If its client leaves, a request is kept no longer, and is counted. A
/// request that finds no room is answered at once; any other one waits. Without a clock no message
/// is read.
const STORIES: &str = "watched ask | close = closed close/0 1 1 0 1;
watched ask | end = broken/0 1 1 0 1;
other; watched ask | end = /0 0 1 1 1;open ask-short/0 1 1 1 1;
point no-frame heartbeat close = closed clear moment close/0 0 1 0 0;
timeless heartbeat close = broken/0 0 1 0 0;";

/// Checks how the sessions of each story of `STORIES` end, what their clients read, and the counts
/// of the book.
#[test]
fn each_story_comes_to_its_end(rt: HostRuntime) {
    for row in STORIES.lines() {
        let (story, wanted) = row.split_once(" = ").expect(&rt, row);
        let found = played(&rt, rt.alloc(), story, "");
        assert!(rt; found.as_str() == wanted, "{row}: {found}");
    }
}

/// The possible results of a session with a refused allocation, and of its book: it reports that to
/// its client, or ends. No request is left, and a point's call waits again.
const SHORT_POINT: &str = "closed heartbeat-short clear close/0 0 1 0 0
out-of-memory/0 0 1 0 0
out-of-memory close/0 0 1 0 0
out-of-memory moment/0 0 1 0 0
out-of-memory moment clear/0 0 1 0 0
out-of-memory moment clear close/0 0 1 0 0";

/// Checks how a charge point's session ends if any one of its allocations is refused, which
/// `tests/program.py` does. The next session is served.
#[test]
fn a_points_session_is_refused_memory(rt: HostRuntime) {
    let story = "point heartbeat close; point heartbeat close";
    let whole = "closed moment clear close/0 0 1 0 0;";
    let found = played(&rt, rt.alloc(), story, whole);
    if found.as_str() == whole {
        return;
    }
    let (first, next) = found.as_str().split_once(';').expect(&rt, "two sessions");
    let is_short = SHORT_POINT.lines().any(|row| row == first);
    assert!(rt; is_short && next == whole, "{found}");
}
