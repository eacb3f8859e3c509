//! The most work of a job.

ghost use Rattle.std.specs.Prelude.{◌≡◌, ◌≤◌, ◌<◌, ◌^◌, IfNone, IfSome, length};
ghost use Rattle.meaning.specs.Limits.{max_duration};
ghost use Rattle.meaning.specs.View.{point_state};
ghost use Rattle.point_book.specs.Book.{state_of};
ghost use Rattle.compile_pool.specs.Work.{IsShort, active_count, changes_of, looks_at, most_of_short, turns_within, work_of};

use meaning::{Ask, View};
use ocpp_scalars::Instant;
use point_book::PointBook;
use profile::{Kind, Row};
use version_store::Job;

/// The most changes of limits of a short job. They take some 3 milliseconds.
const MOST_OF_SHORT: u64 = 10_000;

/// Returns the work of a short job: how many changes of limits it takes at most, whatever its
/// profiles are. Returns `None` for a long job, or one that can't be examined.
pub fn short_work(job: &Job) -> Option<u64>
    ensures work { IfSome result (λ work. work ≡ work_of (state_of job.now.book) job.now.ask) }
    ensures short { IfSome result (λ work. IsShort job.now) }
{
    match job.share_book() {
        Ok(book) => short_work_of(&book, job.ask()),
        Err(_) => None,
    }
}

/// Returns the work of a job that a session gives the workers: to compile a request for a composite
/// schedule of a point's book. Returns `None` unless the job is short.
fn short_work_of(book: &PointBook, ask: &Ask) -> Option<u64>
    ensures work { IfSome result (λ work. work ≡ work_of (state_of book.now) ask.now) }
    ensures short { IfSome result (λ work. work_of (state_of book.now) ask.now ≤ most_of_short) }
    ensures long { IfNone result (most_of_short < work_of (state_of book.now) ask.now) }
{
    work_within(&book.view(), ask, MOST_OF_SHORT)
}

/// Returns the work of a job for the workers, a request for a composite schedule, if it is at most
/// `most`. The work for each installed profile is taken from what is left of `most`, so that no sum
/// grows large.
fn work_within(view: &View<'_>, ask: &Ask, most: u64) -> Option<u64>
    requires few { length view.now.starts.now < 2 ^ 32 }
    ensures work { IfSome result (λ work. work ≡ work_of (point_state view.now) ask.now) }
    ensures within { IfSome result (λ work. work_of (point_state view.now) ask.now ≤ most) }
    ensures more { IfNone result (most < work_of (point_state view.now) ask.now) }
{
    let active = active_count(view.starts);
    let mut left = most;
    for index in 0..view.rows.len() {
        let row = &view.rows[index];
        let work = looks_at(active, ask.connector, row.connector) * changes_of(row, ask.duration);
        if work > left {
            return None;
        }
        left -= work;
    }
    Some(most - left)
}

/// Counts a charge point's connectors with an active transaction. The pool estimates by it whether
/// a job is a short one for its workers.
fn active_count(starts: &[Option<Instant>]) -> u32
    requires few { length starts.now < 2 ^ 32 }
    ensures { result ≡ active_count starts.now }
{
    let mut count = 0u32;
    for index in 0..starts.len() {
        if starts[index].is_some() {
            count += 1;
        }
    }
    count
}

/// Returns how many limits of a composite schedule may read a profile installed at a connector, to
/// find the work of a worker's job. A transaction is active at `active` connectors.
fn looks_at(active: u32, asked: u32, connector: u32) -> u64
    ensures looks { result ≡ looks_at active asked connector }
    ensures few { result ≤ 4_294_967_296 }
{
    if connector == 0 {
        // A row at connector 0 bounds the whole point, and may be the default of each connector.
        if asked == 0 { u64::from(active) + 1 } else { 2 }
    } else if asked == 0 || asked == connector {
        1
    } else {
        0
    }
}

/// Returns how often the limit of an installed charging profile can change within `duration`
/// seconds, at most, to find the work of a worker's job.
fn changes_of(row: &Row, duration: u32) -> u64
    requires { duration ≤ max_duration }
    ensures changes { result ≡ changes_of row.now duration }
    ensures few { result ≤ 6_466 }
{
    let periods = row.profile.schedule.periods.as_slice().len() as u64;
    (periods + 2) * turns_within(row.profile.kind, duration) + 2
}

/// Returns how often a charging schedule of a kind can reach the same offset within `duration`
/// seconds, to find the work of a worker's job.
fn turns_within(kind: Kind, duration: u32) -> u64
    requires { duration ≤ max_duration }
    ensures turns { result ≡ turns_within kind duration }
    ensures few { result ≤ 32 }
{
    match kind {
        Kind::Absolute | Kind::Relative => 1,
        Kind::Recurring(recurrency) => u64::from(duration) / recurrency.length() + 1,
    }
}
