//! A point's book in lines, each with its expected result after ` =`, if it has one.
//!
//! | Line | Action and result |
//! |---|---|
//! | `point 630 2 320` | makes a new book with a ceiling and a number of connectors, each with a ceiling |
//! | `row id=1 level=3` | installs a row: the refusal, if it is refused |
//! | `start 1 ann 100 7` | begins a transaction at a connector, with an idTag, a number of seconds after midnight, and a number for it |
//! | `alike 1 30 60` | a request: connector, second, duration. This compiler and the plain one give equal answers |
//! | `counts 1 30 60` | the number of periods of the answer, or its refusal; and the turns that it took |
//! | `explained 1 30 60` | the number of intervals of the explained answer, and the turns that it took |
//! | `reasons 1 30 60` | at the first second of each interval and at its last, its reason is that of `reason_at` |

ghost use Rattle.std.specs.Prelude.{◌≤◌, length};

use crate::same::{holds, same_text};
use crate::{Words, begin_of, row_of};
use meaning::{Ask, compile_plain, reason_at};
use ocpp_scalars::Instant;
use point_book::PointBook;
use std::alloc::Global;
use std::process::Abort;
use sweep_compiler::{Interval, Turns, compile, explain};

/// A line that is played, and its remaining words.
#[derive(Clone, Copy)]
struct Line<'a> {
    alloc: Global,
    whole: &'a str,
    words: Words<'a>,
}

/// Plays a test's lines on a point's book of charging profiles, which the first line makes, and
/// returns the book.
pub(crate) fn play(rt: &impl Abort, alloc: Global, lines: &str) -> PointBook {
    let mut book = PointBook::try_new(alloc, 0, Vec::new(alloc)).expect(rt, "error");
    for line in lines.lines() {
        play_line(rt, alloc, &mut book, line);
    }
    book
}

/// Plays a test's line on a point's book, and checks that its result is the one after ` =`.
fn play_line(rt: &impl Abort, alloc: Global, book: &mut PointBook, whole: &str) {
    let (said, wanted) = whole.split_once(" =").unwrap_or((whole, ""));
    let mut words = Words::of(said);
    let verb = words.word();
    let line = Line {
        alloc,
        whole,
        words,
    };
    let found = outcome(rt, book, verb, line);
    same_text(rt, found.as_str(), wanted.trim_start(), whole);
}

/// Plays a test's line on a point's book, by the line's first word, and returns the result.
fn outcome(rt: &impl Abort, book: &mut PointBook, verb: &str, line: Line<'_>) -> String {
    match verb {
        "point" => begin_anew(rt, book, line),
        "row" => install(rt, book, line),
        "start" => start(rt, book, line),
        verb => answer(rt, book, verb, line),
    }
}

/// Returns the result of a test's line that requests a schedule, or an explanation of one, from a
/// point's book.
fn answer(rt: &impl Abort, book: &PointBook, verb: &str, mut line: Line<'_>) -> String {
    let ask = ask_of(rt, book, &mut line);
    match verb {
        "alike" => expect_alike(rt, book, &ask, line),
        "counts" => return counts(rt, book, &ask, line),
        "explained" => return explained(rt, book, &ask, line),
        "reasons" => expect_reasons(rt, book, &ask, line),
        _ => holds(rt, false, line.whole),
    }
    String::new(line.alloc)
}

/// Replaces a point's book by the new one of a test's line: a point with a ceiling, and connectors
/// with one each.
fn begin_anew(rt: &impl Abort, book: &mut PointBook, mut line: Line<'_>) -> String {
    let ceiling = line.words.number().expect(rt, line.whole);
    let connectors = line.words.number().expect(rt, line.whole);
    let each = line.words.number().expect(rt, line.whole);
    let mut ceilings = Vec::new(line.alloc);
    for _connector in 0..connectors {
        ceilings.push(each).expect(rt, "error");
    }
    *book = PointBook::try_new(line.alloc, ceiling, ceilings).expect(rt, "error");
    String::new(line.alloc)
}

/// Installs the charging profile of a test's line in a point's book, and returns the refusal's
/// name, or an empty text.
fn install(rt: &impl Abort, book: &mut PointBook, line: Line<'_>) -> String {
    let row = row_of(line.alloc, line.words.rest()).expect(rt, line.whole);
    assert!(rt; row.connector <= book.connectors());
    let refusal = match book.install(row) {
        Ok(()) => "",
        Err((refusal, _)) => refusal.name(),
    };
    String::from_str(line.alloc, refusal).expect(rt, line.whole)
}

/// Begins the transaction of a test's line in a point's book.
fn start(rt: &impl Abort, book: &mut PointBook, mut line: Line<'_>) -> String {
    let connector = line.words.number().expect(rt, line.whole);
    let tag = line.words.word();
    let second = line.words.long().expect(rt, line.whole);
    let next = line.words.whole().expect(rt, line.whole);
    let begin = begin_of(line.alloc, tag, 0, second).expect(rt, line.whole);
    assert!(rt; connector > 0);
    assert!(rt; connector <= book.connectors());
    holds(
        rt,
        book.start(connector, begin, next, None).is_ok(),
        line.whole,
    );
    String::new(line.alloc)
}

/// Makes the request for a composite schedule in a test's line, for a connector that the point's
/// book has.
fn ask_of(rt: &impl Abort, book: &PointBook, line: &mut Line<'_>) -> Ask
    ensures { result.connector ≤ length book.now.ceilings }
{
    let connector = line.words.number().expect(rt, line.whole);
    let start = line.words.instant().expect(rt, line.whole);
    let duration = line.words.number().expect(rt, line.whole);
    let ask = Ask::try_new(connector, start, duration).expect(rt, line.whole);
    assert!(rt; ask.connector <= book.connectors());
    ask
}

/// Checks that the compiler of schedules and the plain one, which goes second by second, give a
/// request the same periods.
fn expect_alike(rt: &impl Abort, book: &PointBook, ask: &Ask, line: Line<'_>) {
    assert!(rt; ask.connector <= book.connectors());
    let plain = compile_plain(line.alloc, &book.view(), ask).expect(rt, line.whole);
    let schedule = compile(line.alloc, book, ask, &mut Turns::new()).expect(rt, line.whole);
    holds(rt, schedule.periods() == plain.periods(), line.whole);
}

/// Compiles the schedule of a test's request, and returns its number of periods, or its refusal,
/// and the number of evaluations of the limit.
fn counts(rt: &impl Abort, book: &PointBook, ask: &Ask, line: Line<'_>) -> String {
    assert!(rt; ask.connector <= book.connectors());
    let mut turns = Turns::new();
    let said = match compile(line.alloc, book, ask, &mut turns) {
        Ok(schedule) => { format!(in line.alloc; "{} {}", schedule.periods().len(), turns.count()) }
        Err(refusal) => format!(in line.alloc; "{refusal} {}", turns.count()),
    };
    said.expect(rt, line.whole)
}

/// Explains the limits of a test's request, and returns the number of intervals and the number of
/// evaluations of the limit.
fn explained(rt: &impl Abort, book: &PointBook, ask: &Ask, line: Line<'_>) -> String {
    assert!(rt; ask.connector <= book.connectors());
    let mut turns = Turns::new();
    let explanation = explain(line.alloc, book, ask, &mut turns).expect(rt, line.whole);
    let intervals = explanation.intervals().len();
    format!(in line.alloc; "{intervals} {}", turns.count()).expect(rt, line.whole)
}

/// Checks that each interval of an explained schedule has the right reason at its first second and
/// at its last.
fn expect_reasons(rt: &impl Abort, book: &PointBook, ask: &Ask, line: Line<'_>) {
    assert!(rt; ask.connector <= book.connectors());
    let explanation = explain(line.alloc, book, ask, &mut Turns::new()).expect(rt, line.whole);
    for interval in explanation.intervals() {
        expect_reason(rt, book, ask, (interval, interval.start), line);
        expect_reason(
            rt,
            book,
            ask,
            (interval, interval.end.saturating_sub(1)),
            line,
        );
    }
}

/// Checks that an interval of an explained schedule has, at one of its seconds, the reason that
/// `reason_at` gives for the limit.
fn expect_reason(
    rt: &impl Abort,
    book: &PointBook,
    ask: &Ask,
    (interval, second): (&Interval, u32),
    line: Line<'_>,
) {
    let view = book.view();
    assert!(rt; ask.connector as usize <= view.ceilings.len());
    assert!(rt; view.ceilings.len() < 65);
    let instant = ask.start.seconds().saturating_add(u64::from(second));
    let instant = Instant::try_new(instant).expect(rt, line.whole);
    let reason = reason_at(line.alloc, &view, ask.connector, ask.start, instant);
    let reason = reason.expect(rt, line.whole);
    holds(rt, reason.same(&interval.reason), line.whole);
}
