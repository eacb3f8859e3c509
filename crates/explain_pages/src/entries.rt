//! The lines of a picture besides the limit: the profiles that have a limit in its time, and the
//! ceilings.

ghost use Rattle.std.specs.Prelude.{◌≡◌};
ghost use Rattle.meaning.specs.Cause.{profile_of};

use crate::explained_request::ExplainedRequest;
use crate::steps::{MAX_INTERVALS, Steps, first_limit, profile_steps};
use meaning::{Ask, Cause, PrevailingProfile, View, has_its_transaction};
use ocpp_scalars::Instant;
use profile::{Purpose, Row};
use std::alloc::{AllocError, Global};

/// A profile, a ceiling or the sum, with its own limit over the time of the request.
#[derive(Drop)]
pub(crate) struct LimitEntry {
    pub(crate) cause: Cause,
    pub(crate) line: LimitLine,
}

/// The line of an entry.
#[derive(Drop)]
pub(crate) enum LimitLine {
    /// A profile's limits.
    Steps(Steps),
    /// A ceiling, in tenths.
    Level(u32),
    /// No line of its own: the sum.
    Nothing,
}

/// Returns the entries of the legend in `explain`'s picture: the profiles that have a limit in the
/// time of the request, the ceilings, and the other causes of limits.
pub(crate) fn entries_of(
    alloc: Global,
    explained: &ExplainedRequest<'_>,
) -> Result<Vec<LimitEntry>, AllocError> {
    let mut entries = Vec::new(alloc);
    for row in explained.view.rows {
        if let Some(entry) = profile_entry(alloc, explained, row)? {
            entries.push(entry)?;
        }
    }
    push_ceilings(&mut entries, explained)?;
    push_other_causes(&mut entries, explained)?;
    Ok(entries)
}

/// Appends the causes of limits that have no line of their own to the legend's entries in
/// `explain`'s picture.
fn push_other_causes(
    entries: &mut Vec<LimitEntry>,
    explained: &ExplainedRequest<'_>,
) -> Result<(), AllocError> {
    // Later intervals aren't drawn, so their causes need no line in the legend.
    for interval in explained.first_intervals(MAX_INTERVALS) {
        let cause = interval.reason.cause;
        if place_of(entries.as_slice(), cause).is_none() {
            entries.push(LimitEntry {
                cause,
                line: LimitLine::Nothing,
            })?;
        }
    }
    Ok(())
}

/// Returns the place of a limit's cause among the legend's entries in `explain`'s picture.
pub(crate) fn place_of(entries: &[LimitEntry], cause: Cause) -> Option<usize> {
    entries.iter().position(|entry| entry.cause == cause)
}

/// Returns the legend's entry of a profile in `explain`'s picture. There is one if the profile may
/// set a limit, and has one in the time of the request.
fn profile_entry(
    alloc: Global,
    explained: &ExplainedRequest<'_>,
    row: &Row,
) -> Result<Option<LimitEntry>, AllocError> {
    if !may_count(explained, row) {
        return Ok(None);
    }
    let steps = steps_of(alloc, explained, row)?;
    Ok(stepped_entry(row, steps))
}

/// Returns whether an installed profile may set a limit of the explained request, so that `explain`
/// draws it: it applies to the connector, and has the transaction that it needs.
fn may_count(explained: &ExplainedRequest<'_>, row: &Row) -> bool {
    let started = started_for(&explained.view, &explained.ask, row);
    applies(explained, row) && has_its_transaction(row.profile.purpose, started)
}

/// Returns the limits of an installed profile in the time of the explained request, as the steps of
/// its line in `explain`'s picture.
fn steps_of(
    alloc: Global,
    explained: &ExplainedRequest<'_>,
    row: &Row,
) -> Result<Steps, AllocError> {
    let ask = &explained.ask;
    let base = row.base(started_for(&explained.view, ask, row), ask.start);
    profile_steps(alloc, &row.profile, base, ask)
}

/// Returns the legend's entry of an installed profile in `explain`'s picture, with the steps of its
/// line, if one of them has a limit.
fn stepped_entry(row: &Row, steps: Steps) -> Option<LimitEntry> {
    if steps.has_limit() {
        Some(LimitEntry {
            cause: Cause::Profile(profile_of(row)),
            line: LimitLine::Steps(steps),
        })
    } else {
        None
    }
}

/// Returns the values that identify the profile of a row.
pub fn profile_of(row: &Row) -> PrevailingProfile
    ensures { result ≡ profile_of row.now }
{
    PrevailingProfile {
        id: row.profile.id,
        purpose: row.profile.purpose,
        stack_level: row.profile.stack_level,
        connector: row.connector,
    }
}

/// Returns whether an installed profile applies to the connector of the explained request, so that
/// `explain` may draw it.
fn applies(explained: &ExplainedRequest<'_>, row: &Row) -> bool {
    let connector = explained.ask.connector;
    connector == 0 || row.connector == 0 || row.connector == connector
}

/// Returns, for `explain`, the start of the transaction from which an installed profile counts: the
/// one at the explained connector. For the whole point it is the one at the profile's connector, or
/// else the first one.
fn started_for(view: &View<'_>, ask: &Ask, row: &Row) -> Option<Instant> {
    if ask.connector > 0 {
        return view.active_since(ask.connector as usize);
    }
    if row.connector > 0 || row.profile.purpose == Purpose::ChargePointMaxProfile {
        return view.active_since(row.connector as usize);
    }
    view.starts.iter().find_map(|start| *start)
}

/// Returns the instant whose reason best explains why a profile never sets the limit. It is the
/// first one at which the profile's schedule has a limit, or the start of the request. Before that
/// instant the reason would only be that the profile hasn't begun.
pub fn reason_instant(view: &View<'_>, ask: &Ask, row: &Row) -> Instant {
    let base = row.base(started_for(view, ask, row), ask.start);
    first_limit(&row.profile, base, ask)
}

/// Appends the ceilings of the connector and of the point to the legend's entries in `explain`'s
/// picture.
fn push_ceilings(
    entries: &mut Vec<LimitEntry>,
    explained: &ExplainedRequest<'_>,
) -> Result<(), AllocError> {
    let connector = explained.ask.connector as usize;
    if connector > 0 {
        if let Some(ceiling) = explained.view.ceilings.get(connector - 1) {
            entries.push(LimitEntry {
                cause: Cause::ConnectorCeiling,
                line: LimitLine::Level(*ceiling),
            })?;
        }
    }
    entries.push(LimitEntry {
        cause: Cause::PointCeiling,
        line: LimitLine::Level(explained.view.ceiling),
    })?;
    Ok(())
}
