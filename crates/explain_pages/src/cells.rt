//! The cells of a table of intervals.

use crate::clock::{ClockTime, needs_seconds, push_date, push_time};
use crate::explained_request::ExplainedRequest;
use crate::words::{push_length, push_limit, push_why};
use crate::zone_clock::ZoneClock;
use page_text::Page;
use std::alloc::{AllocError, Global};
use sweep_compiler::Interval;

/// The cells of an interval.
#[derive(Drop)]
pub(crate) struct Cells {
    /// Its start, with the date if the interval before it starts on another day.
    pub(crate) from: String,
    /// Its end, with the date if that isn't the day of its start.
    pub(crate) to: String,
    pub(crate) length: String,
    pub(crate) limit: String,
    /// The limit in tenths.
    pub(crate) tenths: u32,
    pub(crate) why: String,
}

/// A formatter of one interval after another.
#[derive(Drop)]
pub(crate) struct CellMaker<'a> {
    explained: &'a ExplainedRequest<'a>,
    /// The zone to which times are local; UTC without one.
    zone: Option<ZoneClock<'a>>,
    with_seconds: bool,
    /// The day on which the interval before starts.
    day: Option<u64>,
}

impl<'a> CellMaker<'a> {
    /// Returns a formatter of an explained schedule's intervals as cells of `explain`'s table and
    /// HTML page, and for its picture's description. Times are local to a zone or in UTC.
    pub(crate) fn new(
        explained: &'a ExplainedRequest<'a>,
        zone: Option<ZoneClock<'a>>,
    ) -> CellMaker<'a> {
        CellMaker {
            explained,
            zone,
            with_seconds: needs_seconds(explained, zone),
            day: None,
        }
    }

    /// Formats the next interval of an explained schedule for `explain`'s table, HTML page or
    /// picture: its times, its length, its limit and the cause.
    pub(crate) fn cells(
        &mut self,
        alloc: Global,
        interval: &Interval,
    ) -> Result<Cells, AllocError> {
        let from = ClockTime::shown(self.zone, self.explained.moment(interval.start));
        let to = ClockTime::shown(self.zone, self.explained.moment(interval.end));
        let dates = (self.day != Some(from.day), to.day != from.day);
        self.day = Some(from.day);
        Ok(Cells {
            from: self.time(alloc, from, dates.0)?,
            to: self.time(alloc, to, dates.1)?,
            length: length_text(alloc, interval)?,
            limit: limit_text(alloc, self.explained, interval)?,
            tenths: interval.reason.limit,
            why: why_text(alloc, self.explained, interval)?,
        })
    }

    /// Returns the start or the end of an explained schedule's interval as a time of day for
    /// `explain`'s pages, after its date if `dated`.
    fn time(&self, alloc: Global, time: ClockTime, dated: bool) -> Result<String, AllocError> {
        let mut out = Page::new(alloc);
        if dated {
            push_date(alloc, &mut out, time.day);
            out.push(' ');
        }
        push_time(&mut out, time.second, self.with_seconds);
        out.finish()
    }
}

/// Returns the length of an interval for `explain`'s table, HTML page or picture.
fn length_text(alloc: Global, interval: &Interval) -> Result<String, AllocError> {
    let mut length = Page::new(alloc);
    push_length(&mut length, interval.end.saturating_sub(interval.start));
    length.finish()
}

/// Returns the limit of an interval for `explain`'s table, HTML page or picture.
fn limit_text(
    alloc: Global,
    explained: &ExplainedRequest<'_>,
    interval: &Interval,
) -> Result<String, AllocError> {
    let mut limit = Page::new(alloc);
    push_limit(&mut limit, interval.reason.limit, explained.unit);
    limit.finish()
}

/// Returns the cause of an interval's limit for `explain`'s table, HTML page or picture.
fn why_text(
    alloc: Global,
    explained: &ExplainedRequest<'_>,
    interval: &Interval,
) -> Result<String, AllocError> {
    let mut why = Page::new(alloc);
    push_why(&mut why, &interval.reason, explained.unit, explained.known);
    why.finish()
}

/// Formats all intervals of an explained schedule as the cells of `explain`'s table.
pub(crate) fn all_cells(
    alloc: Global,
    explained: &ExplainedRequest<'_>,
    zone: Option<ZoneClock<'_>>,
) -> Result<Vec<Cells>, AllocError> {
    let mut maker = CellMaker::new(explained, zone);
    let mut all = Vec::new(alloc);
    for interval in explained.intervals {
        all.push(maker.cells(alloc, interval)?)?;
    }
    Ok(all)
}
