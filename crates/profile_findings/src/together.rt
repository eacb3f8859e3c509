//! Finds where the connectors' schedules together exceed the ChargePointMaxProfile of their point.

ghost use Rattle.std.specs.Prelude.{◌<◌, ◌≤◌, length};

use meaning::{Ask, View, why_not};
use ocpp_scalars::{Instant, LAST_SECOND};
use point_book::PointBook;
use profile::{Purpose, Row};
use recurrence::{next_change, rate_at, sooner};
use std::alloc::{AllocError, Global};
use sweep_compiler::{Interval, Turns, explain};

/// The length of the checked time, in seconds.
// The longest recurrence of OCPP 1.6, which has Daily and Weekly.
const WEEK: u32 = 604_800;

/// An instant at which the connectors may draw more together than their point.
#[derive(Clone, Copy)]
pub(crate) struct Excess<'a> {
    pub instant: Instant,
    /// The sum of the connectors' schedules, in tenths.
    pub together: u64,
    /// The ChargePointMaxProfile that prevails, and its limit in tenths.
    pub most: &'a Row,
    pub limit: u32,
    /// Whether a profile of a connector prevails then, and not only the ceilings of the site file.
    pub is_scheduled: bool,
}

/// A change at a second of the checked week.
#[derive(Clone, Copy)]
struct WeekTurn<'a> {
    /// Counted from the last install.
    second: u32,
    what: Turning<'a>,
}

/// The value that changes, with its new value.
#[derive(Clone, Copy)]
enum Turning<'a> {
    /// The sum of the limits of connectors that are alike, in tenths.
    Limit { was: u64, now: u64 },
    /// The ChargePointMaxProfile that prevails.
    Most(Option<Most<'a>>),
}

/// A ChargePointMaxProfile that prevails, with its limit in tenths.
#[derive(Clone, Copy)]
struct Most<'a> {
    row: &'a Row,
    limit: u32,
}

/// A second at which the connectors may draw more together than the point.
#[derive(Clone, Copy)]
struct Overrun<'a> {
    second: u32,
    together: u64,
    most: Most<'a>,
}

/// The checked week, from the last install of a point on.
#[derive(Clone, Copy)]
struct Week<'a> {
    book: &'a PointBook,
    asked: Instant,
    /// Seconds.
    duration: u32,
}

/// Finds, for `check` or `call`, the first worst instant of the week after a point's last install.
/// There the connectors' schedules together exceed the prevailing ChargePointMaxProfile most (OCPP
/// 1.6, chapter 3.13).
pub(crate) fn worst_excess(
    alloc: Global,
    book: &PointBook,
) -> Result<Option<Excess<'_>>, AllocError> {
    let Some(week) = week_of(book) else {
        return Ok(None);
    };
    let mut turns = Vec::new(alloc);
    push_turns(alloc, &mut turns, &week)?;
    let Some(overrun) = worst_of(turns.as_slice()) else {
        return Ok(None);
    };
    Ok(excess_of(&week, overrun))
}

/// Returns the week from a point's last install on, in which `check` or `call` compares its
/// connectors' limits with its ChargePointMaxProfile. None if it has no such profile.
fn week_of(book: &PointBook) -> Option<Week<'_>> {
    let mut last = None;
    let mut is_bounded = false;
    for row in book.view().rows {
        is_bounded = is_bounded || row.profile.purpose == Purpose::ChargePointMaxProfile;
        last = last.max(Some(row.moment));
    }
    if !is_bounded {
        return None;
    }
    let asked = last?;
    let left = (LAST_SECOND + 1).saturating_sub(asked.seconds());
    let duration = u32::try_from(left).unwrap_or(WEEK);
    Some(Week {
        book,
        asked,
        duration: duration.min(WEEK),
    })
}

/// Appends the changes in the week that `check` or `call` examines, sorted by second.
fn push_turns<'a>(
    alloc: Global,
    turns: &mut Vec<WeekTurn<'a>>,
    week: &Week<'a>,
) -> Result<(), AllocError> {
    push_most_turns(turns, week)?;
    push_limit_turns(alloc, turns, week)?;
    turns.sort_by_key(|turn| turn.second)
}

/// Appends the changes of a point's prevailing ChargePointMaxProfile in the week that `check` or
/// `call` examines.
fn push_most_turns<'a>(turns: &mut Vec<WeekTurn<'a>>, week: &Week<'a>) -> Result<(), AllocError> {
    let mut second = 0;
    // Each change is at least a second after the last, so this range ends the loop without a proof.
    for _ in 0..week.duration {
        let Some(instant) = later_by(week.asked, second) else {
            return Ok(());
        };
        let what = Turning::Most(most_at(week.book, week.asked, instant));
        turns.push(WeekTurn { second, what })?;
        match next_most_turn(week, instant) {
            Some(next) if next < week.duration => second = next,
            _ => return Ok(()),
        }
    }
    Ok(())
}

/// Returns the instant at this second of the week that `check` or `call` examines, which begins at
/// a point's last install.
fn later_by(asked: Instant, second: u32) -> Option<Instant> {
    Instant::try_new(asked.seconds().saturating_add(u64::from(second)))
}

/// Returns the ChargePointMaxProfile that prevails at an instant of the week that `check` or `call`
/// examines. Of those with a limit it is the one of the highest stack level.
fn most_at(book: &PointBook, asked: Instant, instant: Instant) -> Option<Most<'_>> {
    for row in book.candidates(Purpose::ChargePointMaxProfile, 0) {
        if let Some(limit) = rate_at(&row.profile, row.base(None, asked), instant) {
            return Some(Most { row, limit });
        }
    }
    None
}

/// Returns the next second of the week that `check` or `call` examines at which the limit of a
/// point's ChargePointMaxProfile may change.
fn next_most_turn(week: &Week<'_>, instant: Instant) -> Option<u32> {
    let mut next = None;
    for row in week.book.view().rows {
        if row.profile.purpose == Purpose::ChargePointMaxProfile {
            let base = row.base(None, week.asked);
            next = sooner(next, next_change(&row.profile, base, instant));
        }
    }
    let second = next?.seconds().saturating_sub(week.asked.seconds());
    u32::try_from(second).ok()
}

/// Appends the changes of the limits of all a point's connectors in the week that `check` or `call`
/// examines, to add them up.
// Connectors that are alike change together, so one schedule serves up to 64 of them.
fn push_limit_turns<'a>(
    alloc: Global,
    turns: &mut Vec<WeekTurn<'a>>,
    week: &Week<'a>,
) -> Result<(), AllocError> {
    let view = week.book.view();
    for before in 0..week.book.connectors() {
        let connector = before + 1;
        if is_first_alike(&view, connector) {
            let count = count_alike(&view, connector);
            push_turns_of(alloc, turns, week, connector, count)?;
        }
    }
    Ok(())
}

/// Returns whether no connector of the point before this one has the same limits, so that `check`
/// or `call` computes this one's schedule.
fn is_first_alike(view: &View<'_>, connector: u32) -> bool {
    for before in 1..connector {
        if are_alike(view, before, connector) {
            return false;
        }
    }
    true
}

/// Returns the number of a point's connectors with the same limits as this one, itself included,
/// for which `check` or `call` computes one schedule.
fn count_alike(view: &View<'_>, connector: u32) -> u64 {
    let mut count: u64 = 0;
    for before in 0..view.ceilings.len() {
        if let Ok(other) = u32::try_from(before + 1) {
            count = count.saturating_add(u64::from(are_alike(view, connector, other)));
        }
    }
    count
}

/// Returns whether two connectors have the same limits, so that `check` or `call` computes one
/// schedule for both. They are the same one, or have equal ceilings, no profiles of their own, and
/// transactions since the same moment or none.
fn are_alike(view: &View<'_>, one: u32, other: u32) -> bool {
    if one == other {
        return true;
    }
    let (first, second) = (one as usize, other as usize);
    view.ceilings.get(first.saturating_sub(1)) == view.ceilings.get(second.saturating_sub(1))
        && view.active_since(first) == view.active_since(second)
        && !view
            .rows
            .iter()
            .any(|row| row.connector == one || row.connector == other)
}

/// Appends the changes of a connector's limit in the week that `check` or `call` examines, times
/// the number of connectors like it.
fn push_turns_of<'a>(
    alloc: Global,
    turns: &mut Vec<WeekTurn<'a>>,
    week: &Week<'a>,
    connector: u32,
    count: u64,
) -> Result<(), AllocError>
    requires has_connector { connector ≤ length week.now.book.now.ceilings }
{
    let Ok(ask) = Ask::try_new(connector, week.asked, week.duration) else {
        return Ok(());
    };
    let explained = explain(alloc, week.book, &ask, &mut Turns::new())?;
    push_intervals(turns, explained.intervals(), count)
}

/// Appends the changes of a connector's limit in its intervals in the week that `check` or `call`
/// examines, times the number of connectors like it.
fn push_intervals(
    turns: &mut Vec<WeekTurn<'_>>,
    intervals: &[Interval],
    count: u64,
) -> Result<(), AllocError> {
    let mut was = 0;
    for interval in intervals {
        let now = u64::from(interval.reason.limit).saturating_mul(count);
        turns.push(WeekTurn {
            second: interval.start,
            what: Turning::Limit { was, now },
        })?;
        was = now;
    }
    Ok(())
}

/// Returns, for a finding of `check` or `call`, the second at which the connectors' limits together
/// exceed the prevailing ChargePointMaxProfile most. The changes are sorted by second.
fn worst_of<'a>(turns: &[WeekTurn<'a>]) -> Option<Overrun<'a>> {
    let mut worst: Option<Overrun<'a>> = None;
    let mut together: u64 = 0;
    let mut most: Option<Most<'a>> = None;
    for (place, turn) in turns.iter().enumerate() {
        match turn.what {
            Turning::Limit { was, now } => {
                together = together.saturating_add(now).saturating_sub(was);
            }
            Turning::Most(prevailing) => most = prevailing,
        }
        // Within a second one limit may have risen before another falls: only the last sum counts.
        let next = turns.get(place.saturating_add(1));
        if next.is_none_or(|next| next.second > turn.second) {
            worst = worse(worst, overrun_of(turn.second, together, most));
        }
    }
    worst
}

/// Returns the overrun at a second of the week that `check` or `call` examines, if the connectors'
/// limits together exceed the prevailing ChargePointMaxProfile.
fn overrun_of(second: u32, together: u64, most: Option<Most<'_>>) -> Option<Overrun<'_>> {
    let most = most?;
    if together <= u64::from(most.limit) {
        return None;
    }
    Some(Overrun {
        second,
        together,
        most,
    })
}

/// Returns the worse of an overrun of a point's ChargePointMaxProfile and a later one, for a
/// finding of `check` or `call`. If both are equal, returns the first.
fn worse<'a>(first: Option<Overrun<'a>>, later: Option<Overrun<'a>>) -> Option<Overrun<'a>> {
    let Some(candidate) = later else {
        return first;
    };
    match first {
        Some(worst) if candidate.beyond() <= worst.beyond() => first,
        _ => later,
    }
}

impl Overrun<'_> {
    /// Returns by how much the connectors' limits together exceed that of the
    /// ChargePointMaxProfile, in tenths, to find the worst overrun for `check` or `call`.
    fn beyond(&self) -> u64 {
        self.together.saturating_sub(u64::from(self.most.limit))
    }
}

/// Makes the `Excess` for a finding of `check` or `call` from an overrun of a point's
/// ChargePointMaxProfile, with its instant.
fn excess_of<'a>(week: &Week<'a>, overrun: Overrun<'a>) -> Option<Excess<'a>> {
    let instant = later_by(week.asked, overrun.second)?;
    Some(Excess {
        instant,
        together: overrun.together,
        most: overrun.most.row,
        limit: overrun.most.limit,
        is_scheduled: is_scheduled(&week.book.view(), week.asked, instant),
    })
}

/// Returns whether a profile other than a ChargePointMaxProfile prevails at a connector at an
/// instant of overrun. Then `check` or `call` warns; with the site file's ceilings alone it
/// remarks.
fn is_scheduled(view: &View<'_>, asked: Instant, instant: Instant) -> bool {
    for (place, row) in view.rows.iter().enumerate() {
        if row.profile.purpose != Purpose::ChargePointMaxProfile
            && prevails_somewhere(view, asked, instant, place)
        {
            return true;
        }
    }
    false
}

/// Returns whether the point's charging profile at this index prevails at a connector at an
/// instant. The severity of a finding of `check` or `call` depends on it.
fn prevails_somewhere(view: &View<'_>, asked: Instant, instant: Instant, place: usize) -> bool
    requires within { place < length view.now.rows.now }
{
    for before in 0..view.ceilings.len() {
        if let Ok(connector) = u32::try_from(before + 1) {
            if why_not(view, connector, asked, instant, place).is_none() {
                return true;
            }
        }
    }
    false
}
