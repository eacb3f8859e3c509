//! Books that are restored from a journal written by hand, with lines of each kind, whole and
//! changed in each line. `tests/sockets` has journals that are cut, and those of random histories.

ghost use Rattle.std.specs.Prelude.{◌≡◌};

use crate::journal_texts::{CHANGED, JOURNAL, SITE};
use crate::same::same_text;
use journal::{Line, Noted, UNREAD_REPLY, lose_links, push_line, restore};
use site_core::PointId;
use site_rules::read_site;
use std::alloc::Global;
use std::marker::Brand;
use std::process::Abort;
use std::sync::ledger::{Blank, Ledger};
use test_books::instant_at;
use version_store::{Book, Pass};

/// Restores a book from a journal, in a test of that. Returns the journal's number of lines, or its
/// fault, as a text.
fn said_of<C: Ledger, A: Ledger>(
    rt: &impl Abort,
    alloc: Global,
    book: &mut Book<C, A>,
    pass: &mut Pass<C, A>,
    journal: &[u8],
) -> String {
    let said = match restore(alloc, book, pass, journal) {
        Ok(restored) => format!(in alloc; "{} lines", restored.lines),
        Err(unrestored) => format!(in alloc; "{unrestored}"),
    };
    said.expect(rt, "error")
}

/// Returns the state of CP1 in a restored book, for tests of the journal. That is the version of
/// the store, the number of unconfirmed calls, the link or 0, the link over which a call is to be
/// sent or 0, the changes that the book and its pass count, and the outcome of the audit.
fn state_of<C: Ledger, A: Ledger>(
    rt: &impl Abort,
    alloc: Global,
    book: &mut Book<C, A>,
    pass: &mut Pass<C, A>,
) -> String {
    let point = PointId::copied(alloc, "CP1").expect(rt, "error");
    let status = book.status(pass, point).ok().expect(rt, "no status");
    let (link, sending) = (book.link_of("CP1"), book.link_to_send("CP1"));
    let (link, sending) = (link.unwrap_or(0), sending.unwrap_or(0));
    let (all, own) = (book.totals().changes, pass.totals().changes);
    format!(in alloc;
        "{} {} {link} {sending} {all} {own} {}",
        status.version,
        status.outbox,
        status.audit.name()
    )
    .expect(rt, "error")
}

/// Ends all links of a restored book at a minute past midnight, in a test of the journal. Returns
/// the lines that the journal gets for that.
fn losses_of<C: Ledger, A: Ledger>(
    rt: &impl Abort,
    alloc: Global,
    book: &mut Book<C, A>,
) -> String {
    let mut text = String::new(alloc);
    let moment = instant_at(60).expect(rt, "no instant");
    lose_links(alloc, book, moment, &mut text)
        .ok()
        .expect(rt, "error");
    text
}

/// Restores a new book from a journal, in a test of that, and returns the result and the state.
/// Then ends all links, and adds the journal's lines and the state.
fn play<C: Ledger, A: Ledger>(
    rt: &impl Abort,
    alloc: Global,
    changes: Blank,
    answers: Blank,
    journal: &[u8],
) -> String
    requires changes { (changes.name ≡ C.name) × (changes.parts ≡ C.parts) × (changes.parts ≡ 1) }
    requires answers { (answers.name ≡ A.name) × (answers.parts ≡ A.parts) × (answers.parts ≡ 1) }
{
    let site = read_site(alloc, SITE.as_bytes()).expect(rt, "no site");
    let (mut book, mut passes): (Book<C, A>, _) = Book::make(
        alloc, changes, answers, site, 1,
    ).expect(rt, "error");
    let mut pass = passes.pop().expect(rt, "no pass");
    let said = said_of(rt, alloc, &mut book, &mut pass, journal);
    let state = state_of(rt, alloc, &mut book, &mut pass);
    let losses = losses_of(rt, alloc, &mut book);
    let after = state_of(rt, alloc, &mut book, &mut pass);
    format!(in alloc; "{said}\n{state}\n{losses}{after}").expect(rt, "error")
}

/// Returns the outcome of restoring a book of this test alone from a journal, as `play` does, for
/// the tests of the journal.
fn told(rt: &impl Abort, alloc: Global, journal: &str) -> String {
    let (changes, answers) = (Blank::new(1), Blank::new(1));
    play::<Brand, Brand>(rt, alloc, changes, answers, journal.as_bytes())
}

/// Checks in a test of the journal that the outcome of restoring a book from this journal is the
/// wanted text, or begins with it.
fn expect_outcome(rt: &impl Abort, alloc: Global, journal: &str, wanted: &str) {
    let told = told(rt, alloc, journal);
    let begins = told.as_str().get(..wanted.len()).unwrap_or(told.as_str());
    same_text(rt, begins, wanted, journal);
}

/// Returns the journal written by hand, for the tests of restoring books. `line` replaces the line
/// of one number, of which the journal's first line is 1.
fn journal_with(rt: &impl Abort, alloc: Global, number: usize, line: &str) -> String {
    let mut journal = String::new(alloc);
    for (index, own) in JOURNAL.lines().enumerate() {
        let text = if index + 2 == number { line } else { own };
        journal.push_str(text).expect(rt, "error");
        journal.push('\n').expect(rt, "error");
    }
    journal
}

/// The outcome of all lines.
const WHOLE: &str = "21 lines
4 1 2 2 4 4 Agrees
2025-01-01T00:01:00Z lost CP1 2
2025-01-01T00:01:00Z lost CP2 3
4 1 0 0 4 4 Agrees";

/// Checks the book that is restored from the whole journal, and how all its links are lost then. If
/// a verdict was short of memory, it is Unsettled again.
#[test]
fn a_whole_journal_is_restored(rt: HostRuntime) {
    expect_outcome(&rt, rt.alloc(), JOURNAL, WHOLE);
    let short = format!(in rt.alloc(); "2025-01-01T00:00:09Z verdict CP1 2 {UNREAD_REPLY}");
    let journal = journal_with(&rt, rt.alloc(), 11, short.expect(&rt, "error").as_str());
    let wanted = "21 lines\n4 1 2 2 4 4 Unsettled\n";
    expect_outcome(&rt, rt.alloc(), journal.as_str(), wanted);
}

/// Checks a row of the test that changes one line of a journal: its restore names the first line
/// that doesn't fit.
fn changed(rt: &impl Abort, alloc: Global, row: &str) {
    let (number, row) = row.split_once('|').expect(rt, row);
    let (line, wanted) = row.split_once('|').expect(rt, row);
    let number = number.parse::<usize>().expect(rt, number);
    let journal = journal_with(rt, alloc, number, line);
    expect_outcome(rt, alloc, journal.as_str(), wanted);
}

/// Checks for each change of `CHANGED` that the restore of the journal names a line and its fault.
#[test]
fn a_changed_line_is_named(rt: HostRuntime) {
    for row in CHANGED.lines() {
        changed(&rt, rt.alloc(), row);
    }
}

/// Two lines, and a reply with line breaks, as `push_line` writes it.
const BROKEN: &str = "2025-01-01T00:00:00Z attached CP1 1
2025-01-01T00:00:01Z sent CP1 1 0
2025-01-01T00:00:02Z reply CP1 1 [3,\t\t\"0\",{\t\"status\":\t\"Unknown\"}]\t
";

/// Checks that a reply with line breaks is on one line of the journal, and confirms its call as
/// before.
#[test]
fn a_message_with_line_breaks_is_restored(rt: HostRuntime) {
    let mut journal = String::new(rt.alloc());
    let line = Line {
        moment: instant_at(2).expect(&rt, "no instant"),
        point: "CP1",
        noted: Noted::Reply {
            link: 1,
            frame: "[3,\r\n\"0\",{\n\"status\":\r\"Unknown\"}]\n",
        },
    };
    push_line(&mut journal, &line).expect(&rt, "error");
    let wanted = BROKEN.lines().nth(2).expect(&rt, "no line");
    let found = journal.as_str().strip_suffix("\n").expect(&rt, "no end");
    same_text(&rt, found, wanted, "the line");
    expect_outcome(&rt, rt.alloc(), BROKEN, "4 lines\n0 0 1 0 0 0 None\n");
}
