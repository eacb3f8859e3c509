//! The outcome of a line. Apart from steps, the lines are these:
//!
//! - `3893 times CP2 attach`: makes a step that many times, with the outcome of the last
//! - `CP1 job 1`: reads the request of the audit of call 1, with its seconds, and keeps it
//! - `CP1 judge 1 160`, `CP1 refuse 1`, `CP1 garble 1`: keeps the verdict on a reply to the kept
//!   request (`judging` of `step_words`)
//! - `- bring 2 1`: posts for request 1 the answer compiled for request 2
//! - `- version`, `- requests`, `- events`, `- changes`, `- answers`: the version of the book, and
//!   the numbers of kept requests, stored events, and counted changes and answers
//! - `CP1 link`: the link over which a call is to be sent; `CP1 starts`: the number of waiting starts
//! - `CP1 rows`: the number of profiles of a point; with the index of a profile, `CP1 transaction 0`,
//!   `CP1 moment 0` and `CP1 state 0`: its transaction, the moment of its install, in seconds after
//!   midnight, and its state at the point

use meaning::Composite;
use profile::Row;
use site_core::Machine;
use std::sync::ledger::Ledger;
use step_words::{Desk, Said, judging, step_of};
use sweep_compiler::AuditJob;
use test_books::{MIDNIGHT, Words};

const UNREAD: Said = ("unread words", None);

/// The book of a table with its session, and the request of the audit that was read last.
#[derive(Drop)]
pub(crate) struct Player<C: Ledger, A: Ledger> {
    pub(crate) desk: Desk<C, A>,
    pub(crate) job: Option<AuditJob>,
}

impl<C: Ledger, A: Ledger> Player<C, A> {
    /// Returns the composite schedule that the book answered last, to print its periods with a line
    /// of the tests' tables of steps.
    pub(crate) fn answered(&self) -> Option<&Composite> {
        match &self.desk.answered {
            Some(answer) => answer.answer().as_ref().ok(),
            None => None,
        }
    }

    /// Plays a line of the tests' tables of steps on the book. Returns its outcome, which is empty
    /// for an empty line.
    pub(crate) fn said(&mut self, line: &str) -> Said {
        let mut words = Words::of(line);
        let point = words.word();
        match words.word() {
            "" => ("", None),
            "times" => self.repeated(point, words.rest()),
            "job" => self.read_job(point, words),
            "judge" | "refuse" | "garble" => self.judged(line),
            "bring" => self.brought(words),
            name => match self.told(point, name, words) {
                Some(said) => said,
                None => self.made(line),
            },
        }
    }

    /// Makes the step of a line of the tests' tables on the book, and returns its outcome.
    fn made(&mut self, line: &str) -> Said {
        match step_of(self.desk.alloc, line) {
            Ok(step) => self.desk.said(step),
            Err(_) => UNREAD,
        }
    }

    /// Makes the step of a line of the tests' tables a number of times on the book, and returns the
    /// last outcome.
    fn repeated(&mut self, times: &str, line: &str) -> Said {
        let mut said = UNREAD;
        for _ in 0..times.parse::<u32>().unwrap_or(0) {
            said = self.made(line);
        }
        said
    }

    /// Posts for one request the answer compiled for another one, as a line `- bring 2 1` of the
    /// tests' tables says. Returns the outcome.
    fn brought(&mut self, mut words: Words<'_>) -> Said {
        let own = words.long().unwrap_or(0);
        self.desk.bring(own, words.long().unwrap_or(0))
    }

    /// Reads the request of a point's audit from the book, for a line `CP1 job 1` of the tests'
    /// tables. Keeps that request, and returns its seconds as the outcome.
    fn read_job(&mut self, point: &str, mut words: Words<'_>) -> Said {
        let call = words.long().unwrap_or(0);
        match self.desk.book.audit_job(point, call) {
            Ok(Some(job)) => {
                let seconds = u64::from(job.duration());
                self.job = Some(job);
                ("job", Some(seconds))
            }
            _ => ("none", None),
        }
    }

    /// Makes the verdict on a point's reply to the audit whose request is kept, for a line
    /// `CP1 judge 1 160` of the tests' tables.
    fn judged(&mut self, line: &str) -> Said {
        let Some(job) = &self.job else {
            return ("no job", None);
        };
        match judging(self.desk.alloc, job, line) {
            Ok(step) => self.desk.said(step),
            Err(_) => UNREAD,
        }
    }

    /// Returns the number that a line of the tests' tables asks for, such as `- version` or
    /// `CP1 rows`. Returns `None` for a step.
    fn told(&self, point: &str, name: &str, words: Words<'_>) -> Option<Said> {
        let book = &self.desk.book;
        match name {
            "version" => number(book.version()),
            "requests" => number(book.open_requests() as u64),
            "events" => number(book.stored() as u64),
            "changes" => number(book.totals().changes),
            "answers" => number(book.totals().answers),
            name => self.told_of_point(point, name, words),
        }
    }

    /// Returns the answer to a line of the tests' tables about a charge point, such as `CP1 link`,
    /// or `None` for any other line.
    fn told_of_point(&self, point: &str, name: &str, mut words: Words<'_>) -> Option<Said> {
        let machine = self.desk.book.present();
        match name {
            "link" => Some(link_said(machine.link_to_send(point))),
            "starts" => number(machine.waiting_of(point).len() as u64),
            "rows" => number(rows_of(machine, point).len() as u64),
            "state" => {
                let row = rows_of(machine, point).get(words.number()? as usize)?;
                Some((machine.profile_state_of(point, row).name(), None))
            }
            name => told_of_row(rows_of(machine, point).get(words.number()? as usize)?, name),
        }
    }
}

/// Returns a number as the outcome of a line of the tests' tables that asks for one, such as
/// `- version`.
fn number(number: u64) -> Option<Said> {
    Some(("", Some(number)))
}

/// Returns the outcome of a line `CP1 link` of the tests' tables: the link over which a call is to
/// be sent, or `no link`.
fn link_said(link: Option<u64>) -> Said {
    match link {
        Some(_) => ("", link),
        None => ("no link", None),
    }
}

/// Returns the charging profiles installed at a point, each with its connector, for lines of the
/// tests' tables that ask about them.
fn rows_of<'a>(machine: &'a Machine, point: &str) -> &'a [Row] {
    match machine.book_of(point) {
        Some(book) => book.view().rows,
        None => &[],
    }
}

/// Returns the moment of a charging profile's install, or its transaction, for a line of the tests'
/// tables such as `CP1 moment 0`.
fn told_of_row(row: &Row, name: &str) -> Option<Said> {
    match name {
        "moment" => number(row.moment.seconds().saturating_sub(MIDNIGHT)),
        "transaction" => number(u64::from(row.profile.transaction?.unsigned_abs())),
        _ => None,
    }
}
