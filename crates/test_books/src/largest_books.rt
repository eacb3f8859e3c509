//! How many turns a request takes, and that memory suffices at the largest sizes. The lines are
//! those of `scripted_books.rt`.

use crate::LONGEST_TAG;
use crate::same::holds;
use crate::scripted_books::play;
use std::alloc::Global;
use std::process::Abort;

/// Turns are taken only where a limit may change: at the ends of nights, once where ten levels
/// share their places, and up to the most periods of an answer. The last second that may be
/// requested is 9999-12-31T23:59:59Z. Of the last book, two profiles change in different seconds of
/// 24 days, and a third hides both: the limit is evaluated at the start and 2 * 200 * 24 times, and
/// `compile_pool` counts 9,705 changes.
const TURNS: &str = "\
point 630 2 320
row id=1 level=1 kind=Recurring recurrency=Daily start=79200 duration=28800 periods=0:60
row id=2 start=0 periods=0:200
counts 1 194398 86400 = 3 3
counts 1 194398 604800 = 15 15
counts 1 194398 2678400 = 63 63
explained 1 194398 604800 = 15 15
explained 1 194398 2678400 = 63 63
point 630 2 320
row id=0 level=0 kind=Recurring recurrency=Daily start=0 periods=0:60,3600:100
row id=1 level=1 kind=Recurring recurrency=Daily start=0 periods=0:61,3600:101
row id=2 level=2 kind=Recurring recurrency=Daily start=0 periods=0:62,3600:102
row id=3 level=3 kind=Recurring recurrency=Daily start=0 periods=0:63,3600:103
row id=4 level=4 kind=Recurring recurrency=Daily start=0 periods=0:64,3600:104
row id=5 level=5 kind=Recurring recurrency=Daily start=0 periods=0:65,3600:105
row id=6 level=6 kind=Recurring recurrency=Daily start=0 periods=0:66,3600:106
row id=7 level=7 kind=Recurring recurrency=Daily start=0 periods=0:67,3600:107
row id=8 level=8 kind=Recurring recurrency=Daily start=0 periods=0:68,3600:108
row id=9 level=9 kind=Recurring recurrency=Daily start=0 periods=0:69,3600:109
alike 2 86000 5000
counts 2 0 172800 = 4 4
counts 0 0 172800 = 1 1
point 630 2 320
row id=1 kind=Recurring recurrency=Daily start=0 turns=432
counts 1 0 604800 = 1400 1400
counts 1 0 1769472 = 4096 4096
counts 1 0 1769473 = ResultTooLong 4097
counts 1 0 2678400 = ResultTooLong 4097
explained 1 0 2678400 = 6200 6200
point 630 2 320
row id=1 start=0 to=251666611199 periods=0:100
counts 1 251666611198 2 = 2 2
explained 1 251666611198 2 = 2 2
counts 2 251666611199 1 = 1 1
point 630 2 320
row id=1 connector=2 kind=Recurring recurrency=Daily start=100 turns=1
row id=2 connector=2 level=1 kind=Recurring recurrency=Daily start=500 turns=1
row id=3 connector=2 level=2 periods=0:50
counts 2 0 2073599 = 1 9601";

/// Checks that the compiler of schedules evaluates the limit only where it may change, and counts
/// each evaluation as a turn.
#[test]
fn turns_at_places_alone(rt: HostRuntime) {
    play(&rt, rt.alloc(), TURNS);
}

/// Appends a test's line for a point's book for each number of a range, which takes the place of
/// each `@`.
fn put_each(
    rt: &impl Abort,
    alloc: Global,
    lines: &mut String,
    (first, end): (u32, u32),
    line: &str,
) {
    for number in first..end {
        let number = format!(in alloc; "{number}").expect(rt, "error");
        let line = line.replace(alloc, "@", number.as_str());
        lines
            .push_str(line.expect(rt, "error").as_str())
            .expect(rt, "error");
        lines.push('\n').expect(rt, "error");
    }
}

/// A book of 64 connectors with a transaction each, and of 200 rows of 200 periods.
const FULL: &str = "\
counts 1 1 12000 = 200 200
explained 1 1 12000 = 200 200
row id=201 connector=2 = TooManyProfiles";

/// Checks that a point's book has room for the most connectors and profiles, that one more is
/// refused, and that a copy is equal.
#[test]
fn has_room_for_its_connectors_and_rows(rt: HostRuntime) {
    let alloc = rt.alloc();
    let mut lines = String::from_str(alloc, "point 320 64 160\n").expect(&rt, "error");
    let start = format!(in alloc; "start @ {LONGEST_TAG} @ @").expect(&rt, "error");
    put_each(&rt, alloc, &mut lines, (1, 65), start.as_str());
    put_each(
        &rt,
        alloc,
        &mut lines,
        (0, 100),
        "row id=@ level=@ turns=60",
    );
    let row = "row id=1000@ connector=1 level=@ turns=60";
    put_each(&rt, alloc, &mut lines, (0, 100), row);
    lines.push_str(FULL).expect(&rt, "error");
    let book = play(&rt, alloc, lines.as_str());
    let copy = book.copy().expect(&rt, "error");
    holds(&rt, copy.same(&book), "a copy");
}
