//! The lines of a picture, its axes and its grid.

use crate::clock::{DAY, push_date, push_time, weekday};
use crate::elements::{begin_text, push_level, push_upright};
use crate::entries::{LimitEntry, LimitLine};
use crate::explained_request::ExplainedRequest;
use crate::markup::push_number;
use crate::scale::{BOTTOM, LEFT, RIGHT, Scale, TOP};
use crate::steps::{LimitStep, Steps};
use crate::ticks::{MOST_DATES, MOST_LIMITS, MOST_TIMES, date_step, time_step};
use crate::words::push_limit;
use meaning::Cause;
use messages::unit_name;
use page_text::Page;
use profile::Unit;
use std::alloc::Global;

/// The input of a picture's drawing.
#[derive(Clone, Copy)]
pub(crate) struct PictureInput<'a> {
    pub(crate) explained: &'a ExplainedRequest<'a>,
    pub(crate) scale: Scale,
    pub(crate) entries: &'a [LimitEntry],
    /// The limits of the intervals.
    pub(crate) limit: &'a Steps,
}

/// Appends the SVG path data of a line along steps to `explain`'s picture.
pub(crate) fn push_path(out: &mut Page, scale: Scale, steps: &Steps) {
    let mut is_down = false;
    for step in &steps.items {
        push_step(out, scale, *step, is_down);
        is_down = step.limit.is_some();
    }
    if is_down {
        push_number(out, "H", scale.x(steps.end));
    }
}

/// Appends the SVG path data of a step to `explain`'s picture, after a step with a limit if
/// `is_down`.
fn push_step(out: &mut Page, scale: Scale, step: LimitStep, is_down: bool) {
    let x = scale.x(step.second);
    if is_down {
        push_number(out, "H", x);
    }
    if let Some(limit) = step.limit {
        if !is_down {
            push_number(out, "M", x);
        }
        push_number(out, if is_down { "V" } else { " " }, scale.y(limit));
    }
}

/// Appends the limit to `explain`'s picture as a thick line, with the area below it.
pub(crate) fn push_limit_line(out: &mut Page, scale: Scale, steps: &Steps) {
    out.push_str("<path class=\"area\" d=\"");
    push_path(out, scale, steps);
    push_number(out, "L", scale.x(steps.end));
    push_number(out, " ", BOTTOM);
    push_number(out, "L", LEFT);
    push_number(out, " ", BOTTOM);
    out.push_str("Z\"/>\n<path class=\"limit\" d=\"");
    push_path(out, scale, steps);
    out.push_str("\"/>\n");
}

/// Appends the line of a profile or a ceiling to `explain`'s picture, styled by its place among the
/// picture's lines.
pub(crate) fn push_entry_line(out: &mut Page, scale: Scale, place: usize, entry: &LimitEntry) {
    match &entry.line {
        LimitLine::Steps(steps) => {
            out.push_str("<path class=\"line ");
            push_style(out, place);
            out.push_str("\" d=\"");
            push_path(out, scale, steps);
            out.push_str("\"/>\n");
        }
        LimitLine::Level(_) if scale.is_passed_by(&entry.line) => {}
        LimitLine::Level(limit) => {
            push_level(out, ceiling_class(entry), LEFT, scale.y(*limit), RIGHT);
            out.push('\n');
        }
        LimitLine::Nothing => {}
    }
}

/// Returns the CSS class of a ceiling's line in `explain`'s picture.
pub(crate) fn ceiling_class(entry: &LimitEntry) -> &'static str {
    match entry.cause {
        Cause::PointCeiling => "ceiling whole",
        Cause::ConnectorCeiling | Cause::Profile(_) | Cause::Sum => "ceiling",
    }
}

/// Appends the CSS classes of a profile's colour and dash pattern in `explain`'s picture, by its
/// place among the picture's lines.
pub(crate) fn push_style(out: &mut Page, place: usize) {
    // Six colours and eight dashes give 24 different lines before one repeats.
    push_number(out, "c", (place % 6) as u64);
    push_number(out, " d", (place % 8) as u64);
}

/// Appends the letter of a profile's or a ceiling's line in `explain`'s picture, by its place among
/// the lines: A to Z, then A1, B1 and so on.
pub(crate) fn push_letter(out: &mut Page, place: usize) {
    out.push((b'A' + (place % 26) as u8) as char);
    if place >= 26 {
        push_number(out, "", (place / 26) as u64);
    }
}

/// Appends the ticks of the limit axis to `explain`'s picture, each with a grid line.
pub(crate) fn push_limit_axis(out: &mut Page, scale: Scale, unit: Unit) {
    for count in 0..=MOST_LIMITS {
        let limit = scale.step.saturating_mul(count);
        if u64::from(limit) <= scale.top {
            push_limit_tick(out, scale, limit, unit);
        }
    }
}

/// Appends a tick of the limit axis to `explain`'s picture: its grid line and its limit.
fn push_limit_tick(out: &mut Page, scale: Scale, limit: u32, unit: Unit) {
    let y = scale.y(limit);
    push_level(out, "grid", LEFT, y, RIGHT);
    begin_text(out, "end soft", LEFT - 10, y + 4);
    if scale.step % 10 == 0 {
        push_number(out, "", u64::from(limit / 10));
        out.push(' ');
        out.push_str(unit_name(unit));
    } else {
        push_limit(out, limit, unit);
    }
    out.push_str("</text>\n");
}

/// Appends the ticks of the time axis, and the dates, to `explain`'s picture.
pub(crate) fn push_time_axis(
    alloc: Global,
    out: &mut Page,
    explained: &ExplainedRequest<'_>,
    scale: Scale,
) {
    let step = u64::from(time_step(explained.ask.duration).max(1));
    let start = explained.moment(0);
    let first = start.div_ceil(step).saturating_mul(step);
    for count in 0..=u64::from(MOST_TIMES) {
        let moment = first.saturating_add(step.saturating_mul(count));
        if moment <= explained.end() {
            let x = scale.x(second_at(explained, moment));
            push_time_tick(out, x, moment, step);
        }
    }
    push_dates(alloc, out, explained, scale);
}

/// Returns the second of the explained request at which a moment is, at most the request's
/// duration, to place the moment in `explain`'s picture.
fn second_at(explained: &ExplainedRequest<'_>, moment: u64) -> u32 {
    let second = moment.saturating_sub(explained.moment(0));
    second.min(u64::from(explained.ask.duration)) as u32
}

/// Appends a tick of the time axis to `explain`'s picture: its grid line and its time of day.
fn push_time_tick(out: &mut Page, x: u64, moment: u64, step: u64) {
    let has_seconds = step % 60 != 0;
    // A label with seconds is wider, and would go past the right edge of the picture.
    let middle = if has_seconds { x.min(RIGHT - 8) } else { x };
    push_upright(out, "grid", x, TOP, BOTTOM + 5);
    begin_text(out, "middle soft", middle, BOTTOM + 20);
    push_time(out, moment % DAY, has_seconds);
    out.push_str("</text>\n");
}

/// Appends to the time axis of `explain`'s picture the dates at the request's start and at each
/// midnight in it, where there is room. In more than 8 days only each second or fourth midnight has
/// one.
fn push_dates(alloc: Global, out: &mut Page, explained: &ExplainedRequest<'_>, scale: Scale) {
    let (start, end) = (explained.moment(0), explained.end());
    let step = u64::from(date_step(explained.ask.duration).max(1));
    let first_midnight = (start / step).saturating_add(1).saturating_mul(step);
    let room = scale.x(second_at(explained, first_midnight)) - LEFT;
    // The first date is left out if the one of the next midnight would overlap it.
    if start % step == 0 || end <= first_midnight || room >= 100 {
        push_day(alloc, out, start / DAY, LEFT);
    }
    for count in 0..u64::from(MOST_DATES) {
        let midnight = first_midnight.saturating_add(step.saturating_mul(count));
        let x = scale.x(second_at(explained, midnight));
        if midnight < end && x + 90 <= RIGHT {
            push_day(alloc, out, midnight / DAY, x);
        }
    }
}

/// Appends the date of a day to the time axis of `explain`'s picture, with a mark and the day of
/// the week.
fn push_day(alloc: Global, out: &mut Page, day: u64, x: u64) {
    let lower = BOTTOM + 42;
    push_upright(out, "day", x, BOTTOM + 27, lower);
    begin_text(out, "soft", x.saturating_add(5), lower);
    out.push_str(weekday(day));
    out.push(' ');
    push_date(alloc, out, day);
    out.push_str("</text>\n");
}
