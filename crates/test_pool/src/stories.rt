//! Stories of sessions and workers. The commands of lines: `install`, `ask`, `leave` (to ask and
//! abandon), `answer` (its first limit in tenths), `finish`; the counts of kept requests and of
//! jobs that workers began; `open` the gate, `pause`. After each story all workers end, and no
//! request is kept.

use crate::threads::{Story, play};
use std::alloc::Global;
use std::marker::{Brand, Sync};
use std::process::Abort;
use std::sync::Wait;
use std::sync::ledger::Blank;
use std::thread::Threads;

/// Plays a story of sessions and workers in a test of the workers' pool. Its book's ledgers of
/// changes and answers are of this test alone.
fn played<R: Abort + Threads + Wait + Sync>(rt: &R, alloc: Global, story: &Story) {
    play::<Brand, Brand, R>(rt, alloc, Blank::new(3), Blank::new(3), story);
}

/// An install is made while a request is held up, and changes neither answer.
const OVERTAKEN: Story = Story {
    points: 8,
    workers: 2,
    held: "h",
    before: "",
    one: "",
    other: "",
    beside: "ask 0 1 60 = 1
ask 0 1 60 = 2
install 0 0 id=70 periods=0:70 = 0
answer 2 = 320
kept = 1
open = 0
answer 1 = 320",
    totals: (1, 2),
};

/// Checks that a worker answers a later request while another one is held up, and that an install
/// between them changes neither answer.
#[test]
fn a_later_request_overtakes_one_that_is_held_up(rt: HostRuntime) {
    played(&rt, rt.alloc(), &OVERTAKEN);
}

/// Each of 64 points has a limit of its own before its request, and another one after it. Meanwhile
/// two sessions change other points.
const MANY: Story = Story {
    points: 1_000,
    workers: 8,
    held: "",
    one: "100* install 901 0 periods=0:# = 0",
    other: "60* install 902 0 periods=0:# = 0",
    beside: "64* install # 0 periods=0:# = 0
64* ask # 1 60 = #
64* install # 0 periods=0:200 = 0
64* answer # = #",
    totals: (288, 64),
    ..OVERTAKEN
};

/// Checks that eight workers answer 64 requests, each with the limit that its point had when it was
/// requested, beside two sessions whose changes are counted.
#[test]
fn eight_workers_answer_64_requests(rt: HostRuntime) {
    played(&rt, rt.alloc(), &MANY);
}

/// Two sessions wait for requests that are held up.
const BOTH_WAIT: Story = Story {
    workers: 1,
    held: "hh",
    before: "ask 0 1 60 = 1\nask 1 1 60 = 2",
    one: "answer 1 = Stopped",
    other: "answer 2 = Stopped",
    beside: "pause = 0\nfinish = 0",
    totals: (0, 2),
    ..OVERTAKEN
};

/// Checks that stopping the central system wakes two sessions that wait for answers while a worker
/// is held up.
#[test]
fn stopping_wakes_all_who_wait(rt: HostRuntime) {
    played(&rt, rt.alloc(), &BOTH_WAIT);
}

/// With a daily profile of 200 periods of a second, a request of 31 days is long, and its answer
/// would be too. The first long one is held up, and the second given up. The last is behind the
/// second, so the worker has come to that when the last is answered.
const GIVEN_UP: Story = Story {
    workers: 1,
    before: "install 0 0 kind=Recurring recurrency=Daily start=0 turns=1 = 0
ask 0 1 2678400 = 1",
    beside: "ask 0 1 60 = 2
answer 2 = 60
leave 0 1 2678400 = 3
answer 3 = OutOfMemory
kept = 1
open = 0
ask 0 1 2678400 = 4
answer 4 = ResultTooLong
answer 1 = ResultTooLong
begun = 3",
    totals: (1, 4),
    ..OVERTAKEN
};

/// Checks that a short job is compiled and answered while a long one is held up, and that no worker
/// begins to compile a request that its session has abandoned.
#[test]
fn a_request_that_is_given_up_is_not_begun(rt: HostRuntime) {
    played(&rt, rt.alloc(), &GIVEN_UP);
}
