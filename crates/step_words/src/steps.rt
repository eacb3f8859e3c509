//! Steps in words, a line each: the identity of a point (`-` if the step names none), the step, and
//! its words.
//!
//! `CP1 install id=1 kind=Relative` has the words of `row_of`, `CP1 clear id=1` those of
//! `criteria_of`. `CP1 start ann 1 10` is a start by an idTag at a connector, at a second after
//! midnight. `CP1 remote ann 1 id=5 purpose=TxProfile` requests one; without the last words it has
//! no profile. `CP1 take 1 0 60 5` is a request for a connector, from a second on for a number of
//! seconds, after version 5 if that was seen. The words of the others are numbers: `CP1 audit 1 60`
//! of a connector and seconds, `CP1 confirm 2 0` and `CP1 reject 2 0` of a link and a call,
//! `CP1 send 2`, `CP1 lost 2`, `CP1 stop 1`, `- compile 1`, `- answer 1`, `CP1 boot 5` of a second
//! after midnight. `CP1 attach`, `CP1 status` and `- finish` have none.

use meaning::{CompositePeriod, Said, SaidPeriods};
use profile::{Profile, Unit};
use site_core::{PointId, Step, Take};
use std::alloc::Global;
use sweep_compiler::{AuditJob, Judged};
use test_books::{UnreadWords, Words, begin_of, criteria_of, instant_at, row_of};

/// Parses the step of a line's words. A number that is missing or can't be read is 0.
pub fn step_of(alloc: Global, line: &str) -> Result<Step, UnreadWords> {
    let mut words = Words::of(line);
    let point = PointId::copied(alloc, words.word())?;
    match words.word() {
        "install" => install(alloc, point, words.rest()),
        "clear" => clear(point, words.rest()),
        "start" => start(alloc, point, words),
        "remote" => remote_start(alloc, point, words),
        "take" => take(point, words),
        name => numbered_step(point, name, words),
    }
}

/// Parses the step that installs a charging profile at a point, from a line of the tests' tables
/// such as `CP1 install id=1 kind=Relative`.
fn install(alloc: Global, point: PointId, words: &str) -> Result<Step, UnreadWords> {
    let row = row_of(alloc, words)?;
    Ok(Step::Install { point, row })
}

/// Parses the step that clears a point's charging profiles by criteria, from a line of the tests'
/// tables such as `CP1 clear id=1`.
fn clear(point: PointId, words: &str) -> Result<Step, UnreadWords> {
    let criteria = criteria_of(words)?;
    Ok(Step::Clear { point, criteria })
}

/// Parses the step that starts a transaction at a point, from a line of the tests' tables: an
/// idTag, a connector, and a second.
fn start(alloc: Global, point: PointId, mut words: Words<'_>) -> Result<Step, UnreadWords> {
    let tag = words.word();
    let connector = words.number().unwrap_or(0);
    let begin = begin_of(alloc, tag, 0, words.long().unwrap_or(0))?;
    Ok(Step::Start {
        point,
        connector,
        begin,
    })
}

/// Parses the step of a remote start at a point, from a line of the tests' tables. Its words are an
/// idTag, a connector, and those of a profile, if any.
fn remote_start(alloc: Global, point: PointId, mut words: Words<'_>) -> Result<Step, UnreadWords> {
    let tag = words.word();
    let connector = words.number().unwrap_or(0);
    let id_tag = begin_of(alloc, tag, 0, 0)?.id_tag;
    let profile = profile_of(alloc, words.rest())?;
    Ok(Step::RemoteStart {
        point,
        connector,
        id_tag,
        profile,
    })
}

/// Parses the charging profile of a remote start, in a line of the tests' tables, or returns `None`
/// if the line has none.
fn profile_of(alloc: Global, words: &str) -> Result<Option<Profile>, UnreadWords> {
    if words.is_empty() {
        return Ok(None);
    }
    Ok(Some(row_of(alloc, words)?.profile))
}

/// Parses the step that requests a composite schedule, from a line of the tests' tables: a
/// connector, a start, a duration, and the version seen.
fn take(point: PointId, mut words: Words<'_>) -> Result<Step, UnreadWords> {
    let connector = words.number().unwrap_or(0);
    let start = instant_at(words.long().unwrap_or(0))?;
    Ok(Step::Take(Take {
        point,
        connector,
        start,
        duration: words.number().unwrap_or(0),
        unit: None,
        seen: words.long().unwrap_or(0),
    }))
}

/// Makes a step from a line of the tests' tables whose words are numbers, such as `CP1 stop 1` or
/// `- compile 1`.
fn numbered_step(point: PointId, name: &str, mut words: Words<'_>) -> Result<Step, UnreadWords> {
    let first = words.long().unwrap_or(0);
    let second = words.long().unwrap_or(0);
    match name {
        "compile" => Ok(Step::Compile(first)),
        "answer" => Ok(Step::Answer(first)),
        "finish" => Ok(Step::Finish),
        "boot" => Ok(Step::Boot {
            point,
            moment: instant_at(first)?,
        }),
        "stop" => Ok(Step::Stop {
            point,
            transaction: i32::try_from(first).unwrap_or(0),
        }),
        "audit" => Ok(Step::Audit {
            point,
            connector: u32::try_from(first).unwrap_or(0),
            duration: u32::try_from(second).unwrap_or(0),
        }),
        name => link_step(point, name, first, second),
    }
}

/// Makes a step over a point's link from a line of the tests' tables, such as `CP1 send 2`. A line
/// such as `CP1 attach` names only a point.
fn link_step(point: PointId, name: &str, link: u64, call: u64) -> Result<Step, UnreadWords> {
    match name {
        "status" => Ok(Step::Status(point)),
        "attach" => Ok(Step::Attach(point)),
        "send" => Ok(Step::Send { point, link }),
        "lost" => Ok(Step::Lost { point, link }),
        "confirm" => Ok(confirm(point, link, call, true)),
        "reject" => Ok(confirm(point, link, call, false)),
        _ => Err(UnreadWords::Words),
    }
}

/// Makes the step by which a charge point accepts or rejects a call over a link. A line of the
/// tests' tables such as `CP1 confirm 2 0` says that.
fn confirm(point: PointId, link: u64, call: u64, accepted: bool) -> Step {
    Step::Confirm {
        point,
        link,
        call,
        accepted,
    }
}

/// Makes the step that keeps the verdict on a point's reply to an audit: `CP1 judge 1 160` for a
/// reply to call 1 with 16.0 A from midnight on, `CP1 refuse 1` for a rejection, and `CP1 garble 1`
/// for a reply that can't be read.
pub fn judging(alloc: Global, job: &AuditJob, line: &str) -> Result<Step, UnreadWords> {
    let mut words = Words::of(line);
    let point = PointId::copied(alloc, words.word())?;
    let name = words.word();
    let call = words.long().unwrap_or(0);
    let said = said_by_point(alloc, name, words)?;
    let judged = Judged::make(alloc, job.share()?, said);
    Ok(Step::Judge {
        point,
        call,
        judged,
    })
}

/// Parses a charge point's reply to an audit from the words of a line of the tests' tables,
/// `judge`, `refuse` or `garble`.
fn said_by_point(alloc: Global, name: &str, words: Words<'_>) -> Result<Said, UnreadWords> {
    match name {
        "judge" => schedule(alloc, words),
        "refuse" => Ok(Said::Refused),
        _ => Ok(Said::Unread),
    }
}

/// Makes the schedule with which a point replies to an audit, for a line `judge` of the tests'
/// tables. It has one limit from midnight on, in tenths of amperes.
fn schedule(alloc: Global, mut words: Words<'_>) -> Result<Said, UnreadWords> {
    let start = instant_at(0)?;
    let mut periods = Vec::new(alloc);
    periods.push(CompositePeriod {
        start: 0,
        limit: words.number().unwrap_or(0),
    })?;
    Ok(Said::Schedule {
        start,
        duration: None,
        unit: Unit::A,
        periods: SaidPeriods::new(periods),
    })
}
