//! A session beside the workers, which plays lines of commands with their expected results. Other
//! results are recorded, and the session goes on, so that its thread ends.

use crate::gates::HoldingGate;
use compile_pool::{Jobs, answer_unmade, wait_answer};
use ocpp_scalars::Refusal;
use site_core::PointId;
use std::alloc::Global;
use std::sync::Wait;
use std::sync::ledger::Ledger;
use test_books::{Words, instant_at, profile_of};
use version_store::{Job, Pass, Shared};

/// The context of sessions.
#[derive(Drop)]
pub(crate) struct Desk<'a, 'j, 'g, C: Ledger, A: Ledger> {
    pub(crate) alloc: Global,
    pub(crate) shared: &'a Shared<C, A>,
    pub(crate) jobs: Jobs<'j>,
    pub(crate) gate: &'g HoldingGate,
}

/// A session that has played its lines: its pass, and the lines with other results.
pub(crate) type Played<C, A> = (Pass<C, A>, String);

impl<C: Ledger, A: Ledger> Desk<'_, '_, '_, C, A> {
    /// Plays lines of a session in a test of the workers' pool, and appends those with unexpected
    /// results. `3* ask 0 1 60 = #` is played three times, numbered for `#`.
    pub(crate) fn play(&self, rt: &impl Wait, played: Played<C, A>, lines: &str) -> Played<C, A> {
        let (mut pass, mut wrong) = played;
        for line in lines.lines() {
            let (times, text) = line.split_once("* ").unwrap_or(("1", line));
            let Ok(times) = times.parse::<u32>() else {
                let _ = wrong.push_str(line);
                continue;
            };
            for time in 0..times {
                let found = self.play_once(rt, &mut pass, text, time.saturating_add(1));
                let _ = wrong.push_str(found.as_str());
            }
        }
        (pass, wrong)
    }

    /// Plays a line of a session once, in a test of the workers' pool. Returns the line with its
    /// result if that isn't the expected one.
    fn play_once(&self, rt: &impl Wait, pass: &mut Pass<C, A>, text: &str, time: u32) -> String {
        let text = numbered(self.alloc, text, time).unwrap_or(String::new(self.alloc));
        let (command, wanted) = text.as_str().split_once(" = ").unwrap_or(("", ""));
        let found = self.done(rt, pass, command);
        let mut wrong = String::new(self.alloc);
        if !is_wanted(found, wanted) {
            let _ = write!(&mut wrong, "{text}: {found:?}; ");
        }
        wrong
    }

    /// Makes a command of a session in a test of the workers' pool. Returns its result: a number,
    /// which is 0 if there is none, or a refusal.
    fn done(&self, rt: &impl Wait, pass: &mut Pass<C, A>, command: &str) -> Result<u64, Refusal> {
        let mut words = Words::of(command);
        match words.word() {
            "install" => self.install(rt, pass, words),
            "ask" => self.ask(rt, pass, words),
            "leave" => self.leave(rt, pass, words),
            "answer" => self.answer(rt, pass, words),
            "kept" => Ok(self.shared.lock(rt).open_requests() as u64),
            "finish" => self.finish(rt),
            word => self.gate.done(word),
        }
    }

    /// Stops the central system in a test of the workers' pool, and wakes all sessions that wait
    /// for an answer.
    fn finish(&self, rt: &impl Wait) -> Result<u64, Refusal> {
        self.shared.lock(rt).finish();
        self.shared.wake();
        Ok(0)
    }

    /// Installs the charging profile of a line's words at a point and a connector, in a test of the
    /// workers' pool. All sessions share the book.
    fn install(
        &self,
        rt: &impl Wait,
        pass: &mut Pass<C, A>,
        words: Words<'_>,
    ) -> Result<u64, Refusal> {
        let mut words = words;
        let point = PointId::copied(self.alloc, words.word())?;
        let connector = words.number().unwrap_or(u32::MAX);
        let (Ok(profile), Ok(moment)) = (profile_of(self.alloc, words.rest()), instant_at(0)) else {
            return Err(Refusal::OutOfMemory);
        };
        let mut book = self.shared.lock(rt);
        match book.install(pass, point, connector, profile, moment) {
            Ok(()) => Ok(0),
            Err((refusal, _)) => Err(refusal),
        }
    }

    /// Takes a session's request for a connector's composite schedule, from midnight on, in a test
    /// of the workers' pool. Returns the job for a worker.
    fn job(&self, rt: &impl Wait, pass: &mut Pass<C, A>, words: Words<'_>) -> Result<Job, Refusal> {
        let mut words = words;
        let point = PointId::copied(self.alloc, words.word())?;
        let connector = words.number().unwrap_or(u32::MAX);
        let seconds = words.number().unwrap_or(0);
        let Ok(start) = instant_at(0) else {
            return Err(Refusal::PastCalendar);
        };
        let mut book = self.shared.lock(rt);
        book.take(pass, point, connector, start, seconds, None)
    }

    /// Takes a session's request for a composite schedule in a test of the workers' pool. Sends its
    /// job to a worker, and returns the request's number.
    fn ask(&self, rt: &impl Wait, pass: &mut Pass<C, A>, words: Words<'_>) -> Result<u64, Refusal> {
        let job = self.job(rt, pass, words)?;
        let number = job.number();
        match self.jobs.send(rt, job) {
            Ok(()) => Ok(number),
            Err(_) => Err(Refusal::Stopped),
        }
    }

    /// Takes a request for a composite schedule in a test of the workers' pool, sends its job, and
    /// abandons the request at once.
    fn leave(
        &self,
        rt: &impl Wait,
        pass: &mut Pass<C, A>,
        words: Words<'_>,
    ) -> Result<u64, Refusal> {
        let job = self.job(rt, pass, words)?;
        let (number, book, ask) = (job.number(), job.share_book()?, *job.ask());
        let is_sent = self.jobs.send(rt, job).is_ok();
        answer_unmade(rt, self.shared, number, book, ask);
        if is_sent {
            Ok(number)
        } else {
            Err(Refusal::Stopped)
        }
    }

    /// Waits in a test of the workers' pool until a worker has answered a request. Returns the
    /// tenths of the schedule's first limit.
    fn answer(
        &self,
        rt: &impl Wait,
        pass: &mut Pass<C, A>,
        words: Words<'_>,
    ) -> Result<u64, Refusal> {
        let mut words = words;
        let answer = wait_answer(rt, self.shared, pass, words.long().unwrap_or(0))?;
        let schedule = answer.into_answer()?;
        match schedule.periods().first() {
            Some(first) => Ok(u64::from(first.limit)),
            None => Err(Refusal::ResultTooLong),
        }
    }
}

/// Returns a line of a session with a number for each `#`, in a test of the workers' pool, or
/// `None` without memory.
fn numbered(alloc: Global, text: &str, number: u32) -> Option<String> {
    let number = format!(in alloc; "{number}").ok()?;
    text.replace(alloc, "#", number.as_str()).ok()
}

/// Checks in a test of the workers' pool whether a command's result is the one that its line
/// expects, a number or the name of a refusal.
fn is_wanted(found: Result<u64, Refusal>, wanted: &str) -> bool {
    match found {
        Ok(number) => wanted.parse::<u64>().ok() == Some(number),
        Err(refusal) => refusal.name() == wanted,
    }
}
