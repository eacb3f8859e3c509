//! Plays tables of steps in words on a book, and prints the outcome of each line.
//! A table begins with its title, `# ..`, and its site file. The words of a step are those of
//! `step_words`; `src/player.rt` has those of the other lines.
#![tactic(auto)]

ghost use Rattle.std.specs.Prelude.{◌≡◌};

mod player;
mod printed;

use crate::player::Player;
use crate::printed::print_line;
use site_rules::{Site, read_site};
use std::alloc::AllocGlobal;
use std::io;
use std::marker::Brand;
use std::sync::ledger::{Blank, Ledger};
use step_words::Desk;
use sweep_compiler::AuditJob;

/// Plays the tests' tables of steps on the standard input, each on a new book of the central
/// system. Prints each line with its outcome.
fn main(rt: HostRuntime) -> io::Result<()> {
    let text = io::read_to_string(rt.alloc(), rt.reader())?;
    let mut job = None;
    for table in text.as_str().split("# ").skip(1) {
        job = play_table(&rt, table, job)?;
    }
    Ok(())
}

/// Plays a table of a test's steps after printing its title and site file. Returns the kept request
/// of an audit, for later tables.
fn play_table<R: Print + AllocGlobal>(
    rt: &R,
    table: &str,
    job: Option<AuditJob>,
) -> io::Result<Option<AuditJob>> {
    let (title, rest) = table.split_once('\n').unwrap_or((table, ""));
    let (site, lines) = rest.split_once('\n').unwrap_or((rest, ""));
    println!(rt; "# {title}\n{site}")?;
    let Ok(site) = read_site(rt.alloc(), site.as_bytes()) else {
        println!(rt; "no site")?;
        return Ok(job);
    };
    let table = Table { site, lines, job };
    play_at::<Brand, Brand, R>(rt, Blank::new(1), Blank::new(1), table)
}

/// The lines of a table with their site, and the kept request of an audit.
#[derive(Drop)]
struct Table<'a> {
    site: Site,
    lines: &'a str,
    job: Option<AuditJob>,
}

/// Plays a table of a test's steps on a new book, and prints each line with its outcome. Returns
/// the kept request of an audit.
fn play_at<C: Ledger, A: Ledger, R: Print + AllocGlobal>(
    rt: &R,
    changes: Blank,
    answers: Blank,
    table: Table<'_>,
) -> io::Result<Option<AuditJob>>
    requires changes { (changes.name ≡ C.name) × (changes.parts ≡ C.parts) × (changes.parts ≡ 1) }
    requires answers { (answers.name ≡ A.name) × (answers.parts ≡ A.parts) × (answers.parts ≡ 1) }
{
    let desk: Desk<C, A> = Desk::new(rt.alloc(), changes, answers, table.site)?;
    let mut player = Player {
        desk,
        job: table.job,
    };
    for line in table.lines.lines() {
        let said = player.said(line);
        print_line(rt, line, said, player.answered())?;
    }
    Ok(player.job)
}
