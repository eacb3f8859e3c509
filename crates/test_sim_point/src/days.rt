//! Worked days of a simulated point, message by message. Below a point's steps and an empty line, a
//! day has lines `WHAT | WANTED`, where `-` means no answer:
//!
//! ```text
//! at SECONDS | -        the time is now this many seconds after midnight
//! call | TEXT           the next call
//! < TEXT | ANSWER       a message arrives, and is answered
//! ```
use crate::day_texts::{
    BEFORE_OTHER_STEPS, CALLS, EVERY_STEP, REJECTED_STARTS, REMOTE_START, TRANSACTIONS,
    UNNUMBERED_STARTS, WITHOUT_PROFILES,
};
use crate::same::same_text;
use ocpp_scalars::{IdTag, Instant};
use profile::Unit;
use sim_point_core::{SimPoint, SimStep};
use std::alloc::Global;
use std::process::Abort;

/// 2025-01-01T00:00:00Z.
const MIDNIGHT: u64 = 1_735_689_600;

const DAYS: [&str; 8] = [
    EVERY_STEP,
    TRANSACTIONS,
    CALLS,
    REMOTE_START,
    BEFORE_OTHER_STEPS,
    REJECTED_STARTS,
    UNNUMBERED_STARTS,
    WITHOUT_PROFILES,
];

/// Returns the instant a number of seconds after midnight, on the day of a test of the simulated
/// charge point.
pub(crate) fn instant_at(rt: &impl Abort, seconds: u64) -> Instant {
    let second = MIDNIGHT.saturating_add(seconds);
    Instant::try_new(second).expect(rt, "past the calendar")
}

/// Parses a number in a line of a test of the simulated charge point, such as a connector.
fn number(rt: &impl Abort, word: &str) -> u32 {
    word.parse::<u32>().expect(rt, word)
}

/// Splits the words of a line of a test of the simulated point into three, with a blank between
/// them. The second may be empty.
fn three<'a>(rt: &impl Abort, words: &'a str) -> (&'a str, &'a str, &'a str) {
    let (first, rest) = words.split_once(' ').expect(rt, words);
    let (second, third) = rest.split_once(' ').expect(rt, words);
    (first, second, third)
}

/// Parses a step of a test's simulated charge point: `start CONNECTOR TAG METER`, `stop CONNECTOR`
/// or `heartbeat`. The tag has no blank.
fn step_of(rt: &impl Abort, alloc: Global, line: &str) -> SimStep {
    let (step, words) = line.split_once(' ').unwrap_or((line, ""));
    match step {
        "start" => {
            let (connector, tag, meter) = three(rt, words);
            SimStep::Start {
                connector: number(rt, connector),
                tag: IdTag::try_copy(alloc, tag)
                    .expect(rt, "error")
                    .expect(rt, tag),
                meter: meter.parse::<i32>().expect(rt, meter),
            }
        }
        "stop" => SimStep::Stop {
            connector: number(rt, words),
        },
        _ => SimStep::Heartbeat,
    }
}

/// Makes a test's simulated charge point of 32.0 A with two connectors of 16.0 A, and its steps, a
/// line each.
pub(crate) fn point_with(rt: &impl Abort, alloc: Global, lines: &str) -> SimPoint {
    let mut steps = Vec::new(alloc);
    for line in lines.lines() {
        steps
            .push(step_of(rt, alloc, line))
            .ok()
            .expect(rt, "error");
    }
    let connectors = Vec::from_slice(alloc, &[160, 160]).expect(rt, "error");
    SimPoint::try_new(alloc, Unit::A, 320, connectors, steps).expect(rt, "error")
}

/// A point and the current moment.
#[derive(Drop)]
struct Day {
    point: SimPoint,
    now: Instant,
}

impl Day {
    /// Plays the first half of a line of a test of the simulated point, and returns the point's
    /// call or answer, if any.
    fn found(&mut self, rt: &impl Abort, what: &str) -> Option<String> {
        let (word, text) = what.split_once(' ').unwrap_or((what, ""));
        match word {
            "at" => {
                self.now = instant_at(rt, text.parse::<u64>().expect(rt, text));
                None
            }
            "call" => self.point.next_call(self.now).expect(rt, "error"),
            _ => self.point.on_text(self.now, text).expect(rt, "error"),
        }
    }

    /// Plays a line of a simulated point's day, and checks that the point's call or answer is the
    /// wanted one.
    fn line(&mut self, rt: &impl Abort, line: &str) {
        let (what, wanted) = line.split_once(" | ").expect(rt, line);
        let found = self.found(rt, what);
        let found = found.as_deref().unwrap_or("-");
        same_text(rt, found, wanted, line);
    }
}

/// Plays the written day of a simulated charge point, and checks each of its calls and answers.
fn plays(rt: &impl Abort, alloc: Global, day: &str) {
    let (steps, lines) = day.split_once("\n\n").expect(rt, day);
    let mut played = Day {
        point: point_with(rt, alloc, steps),
        now: instant_at(rt, 0),
    };
    for line in lines.lines() {
        played.line(rt, line);
    }
}

/// Checks the calls and the answers of a simulated charge point on each of the written days.
#[test]
fn days_are_as_written(rt: HostRuntime) {
    for day in DAYS {
        plays(&rt, rt.alloc(), day);
    }
}
