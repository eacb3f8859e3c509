//! The reasons why profiles have no part in an explained schedule.

ghost use Rattle.std.specs.Prelude.{◌≡◌, ◌<◌, length, IfOk};
ghost use Rattle.std.specs.List.{All};
ghost use Rattle.meaning.specs.View.{point_state};
ghost use Rattle.explain_pages.specs.NotCounted.{IsReason, HasReason};
ghost use Rattle.explain_pages.specs.ByCases.Throughout.{IsLookedAt};

use crate::entries::{profile_of, reason_instant};
use crate::explained_request::{NotCounted, NotCountedReason, is_named};
use crate::row_at_connector::RowInRequest;
use meaning::{Ask, View, WhyNot, why_not};
use std::alloc::{AllocError, Global};
use sweep_compiler::Interval;

/// Returns the profiles that never set the limit in the intervals of a request, each with the
/// reason. A profile that prevails at some second isn't the lowest limit there; otherwise the
/// reason holds at every second.
pub fn not_counted(
    alloc: Global,
    view: &View<'_>,
    ask: &Ask,
    intervals: &[Interval],
) -> Result<Vec<NotCounted>, AllocError>
    ensures { IfOk result (λ rest. All (HasReason (point_state view.now) ask.now) rest.items) }
{
    let mut rest = Vec::new(alloc);
    for place in 0..view.rows.len() {
        if !is_named(intervals, profile_of(&view.rows[place])) {
            rest.push(not_counted_at(view, ask, place))?;
        }
    }
    Ok(rest)
}

/// Returns the installed profile at this index as one that `explain`'s pages list, with the reason,
/// since it never sets the limit.
fn not_counted_at(view: &View<'_>, ask: &Ask, place: usize) -> NotCounted
    requires within { place < length view.now.rows.now }
    ensures { HasReason (point_state view.now) ask.now result }
{
    let row = &view.rows[place];
    let asked = RowInRequest {
        view: *view,
        ask: *ask,
        place,
        row,
    };
    NotCounted {
        profile: profile_of(row),
        reason: asked.reason(),
    }
}

impl RowInRequest<'_> {
    /// Returns the reason why an installed profile never sets the limit, for the list of such
    /// profiles on `explain`'s pages.
    fn reason(&self) -> NotCountedReason
        ensures { IsReason result (point_state self.now.view) self.now.ask self.now.row.now }
    {
        match self.first_connector() {
            Some(connector) => self.reason_at(connector),
            None => NotCountedReason::NoActiveConnector,
        }
    }

    /// Returns the reason why a profile, checked for a connector, never sets the limit, for
    /// `explain`'s pages. It is the most telling one there, if it holds throughout.
    fn reason_at(&self, connector: u32) -> NotCountedReason
        requires row_at_connector { IsLookedAt self.now connector }
        ensures { IsReason result (point_state self.now.view) self.now.ask self.now.row.now }
    {
        let instant = reason_instant(&self.view, &self.ask, self.row);
        match why_not(&self.view, connector, self.ask.start, instant, self.place) {
            Some(why) if self.is_throughout(NotCountedReason::NotPrevailing(why)) => {
                NotCountedReason::NotPrevailing(why)
            }
            _ => self.reason_of_many(connector),
        }
    }

    /// Returns the reason why a profile never sets the limit, for `explain`'s pages, if no single
    /// reason is the most telling one throughout.
    fn reason_of_many(&self, connector: u32) -> NotCountedReason
        requires row_at_connector { IsLookedAt self.now connector }
        ensures { IsReason result (point_state self.now.view) self.now.ask self.now.row.now }
    {
        let behind_tx = NotCountedReason::NotPrevailing(WhyNot::BehindTxProfile);
        // The row prevails at some second and sets no limit there, so another one is as low or
        // lower.
        if !self.is_throughout(NotCountedReason::BehindOthers) {
            NotCountedReason::NotLeast
        } else if self.is_throughout(behind_tx) {
            behind_tx
        } else if self.is_throughout(NotCountedReason::NoLimit) {
            NotCountedReason::NoLimit
        } else {
            NotCountedReason::BehindOthers
        }
    }
}
