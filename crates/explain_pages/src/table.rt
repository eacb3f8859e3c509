//! The plain-text table of an explained schedule.

ghost use Rattle.std.specs.Prelude.{◌≤◌};

use crate::cells::{Cells, all_cells};
use crate::clock::{ClockTime, needs_seconds, push_date, push_time};
use crate::explained_request::{ExplainedRequest, NotCounted};
use crate::markup::push_number;
use crate::words::{not_counted_text, push_length};
use crate::wrapping::{Margins, push_left, push_lines, push_made_lines, push_right, push_times};
use crate::zone_clock::{ClockShift, ZoneClock, push_ahead};
use messages::unit_name;
use page_text::Page;
use std::alloc::{AllocError, Global};

/// The minimum and the maximum width of a bar, in columns.
const BAR: (usize, usize) = (8, 40);

/// Formats an explained schedule as a table. Each interval has a line with its start, end, length,
/// limit and cause. The profiles that never set the limit follow. Times are local to `zone`, whose
/// clock changes come first, or else in UTC. If `columns` is given, bars show the limits, and no
/// line is wider than that unless a word or an interval's numbers are. A cause says of a known
/// profile whether the point doesn't hold it, and since when, in UTC.
pub fn write_table(
    alloc: Global,
    explained: &ExplainedRequest<'_>,
    columns: Option<usize>,
    zone: Option<ZoneClock<'_>>,
) -> Result<String, AllocError> {
    let mut out = Page::new(alloc);
    push_heading(alloc, &mut out, explained, columns, zone);
    let all = all_cells(alloc, explained, zone)?;
    push_intervals(alloc, &mut out, explained, columns, all.as_slice());
    push_not_counted(alloc, &mut out, explained.not_counted, columns);
    out.finish()
}

/// Appends the head of `explain`'s table: a line with the point, the connector, the time and the
/// unit, and the clock changes of the zone.
fn push_heading(
    alloc: Global,
    out: &mut Page,
    explained: &ExplainedRequest<'_>,
    columns: Option<usize>,
    zone: Option<ZoneClock<'_>>,
) {
    let mut text = Page::new(alloc);
    text.push_made(heading(alloc, explained, zone));
    text.push_str(". The limit in ");
    text.push_str(unit_name(explained.unit));
    text.push_str(", times in ");
    match zone {
        Some(clock) => clock.push_name(&mut text),
        None => text.push_str("UTC"),
    }
    text.push('.');
    push_made_lines(out, text.finish(), Margins { indent: 0, columns });
    if let Some(clock) = zone {
        push_changes(alloc, out, clock, columns);
    }
    out.push('\n');
}

/// Appends to the head of `explain`'s table a line for each clock change of the time zone within
/// the explained time.
fn push_changes(alloc: Global, out: &mut Page, clock: ZoneClock<'_>, columns: Option<usize>) {
    let margins = Margins { indent: 0, columns };
    // The first shift is the offset at the start of the request, not a change of the clock.
    let mut before = None;
    for shift in clock.shifts {
        if let Some(before) = before {
            push_made_lines(out, change_text(alloc, before, *shift), margins);
        }
        before = Some(shift.ahead);
    }
}

/// Returns the line of `explain`'s table for a clock change, from the offset before it.
fn change_text(alloc: Global, before: i32, shift: ClockShift) -> Result<String, AllocError> {
    let mut line = Page::new(alloc);
    let time = ClockTime::of(shift.from);
    push_date(alloc, &mut line, time.day);
    line.push(' ');
    push_time(&mut line, time.second, time.second % 60 != 0);
    line.push_str(" UTC: the clocks go from ");
    push_ahead(&mut line, before);
    line.push_str(" to ");
    push_ahead(&mut line, shift.ahead);
    line.push('.');
    line.finish()
}

/// Returns the heading of `explain`'s table, HTML page or picture: the point, the connector, and
/// the start, end and length of the explained time.
pub(crate) fn heading(
    alloc: Global,
    explained: &ExplainedRequest<'_>,
    zone: Option<ZoneClock<'_>>,
) -> Result<String, AllocError> {
    let mut text = Page::new(alloc);
    text.push_made(place(alloc, explained));
    text.push_str(", from ");
    push_span(alloc, &mut text, explained, zone, " (");
    text.finish()
}

/// Appends the start, the end and the length of the explained time to `explain`'s table, HTML page
/// or picture, with `before` before the length.
pub(crate) fn push_span(
    alloc: Global,
    out: &mut Page,
    explained: &ExplainedRequest<'_>,
    zone: Option<ZoneClock<'_>>,
    before: &str,
) {
    push_moment(alloc, out, explained, zone, 0);
    out.push_str(" to ");
    push_moment(alloc, out, explained, zone, explained.ask.duration);
    out.push_str(before);
    push_length(out, explained.ask.duration);
    out.push(')');
}

/// Returns the charge point and the connector of an explained schedule in words, for `explain`'s
/// table, HTML page or picture.
pub(crate) fn place(alloc: Global, explained: &ExplainedRequest<'_>) -> Result<String, AllocError> {
    let mut text = Page::new(alloc);
    text.push_str(explained.point);
    if explained.ask.connector == 0 {
        text.push_str(", connector 0 (the whole point)");
    } else {
        let connector = u64::from(explained.ask.connector);
        push_number(&mut text, ", connector ", connector);
    }
    text.finish()
}

/// Appends the moment `second` seconds after the start of `explain`'s request to its table, HTML
/// page or picture. It has a date and a time, in a zone or in UTC.
pub(crate) fn push_moment(
    alloc: Global,
    out: &mut Page,
    explained: &ExplainedRequest<'_>,
    zone: Option<ZoneClock<'_>>,
    second: u32,
) {
    let time = ClockTime::shown(zone, explained.moment(second));
    push_date(alloc, out, time.day);
    out.push(' ');
    push_time(out, time.second, needs_seconds(explained, zone));
}

/// The widths of a table's columns.
#[derive(Clone, Copy)]
struct Widths {
    from: usize,
    to: usize,
    length: usize,
    limit: usize,
    why: usize,
}

impl Widths {
    /// Returns the width of the widest cell in each column of `explain`'s table.
    fn of(all: &[Cells]) -> Widths {
        let mut widths = Widths {
            from: 0,
            to: 0,
            length: 0,
            limit: 0,
            why: 0,
        };
        for cells in all {
            widths.from = widths.from.max(cells.from.len());
            widths.to = widths.to.max(cells.to.len());
            widths.length = widths.length.max(cells.length.len());
            widths.limit = widths.limit.max(cells.limit.len());
            widths.why = widths.why.max(cells.why.len());
        }
        widths
    }

    /// Returns the widths of the columns of `explain`'s table with a heading above each.
    fn with_names(self) -> Widths {
        Widths {
            from: self.from.max("from".len()),
            to: self.to.max("to".len()),
            length: self.length.max("length".len()),
            limit: self.limit.max("limit".len()),
            why: self.why.max("why".len()),
        }
    }

    /// Returns the width of a line of `explain`'s table up to the limit, with the blanks between
    /// the columns.
    fn numbers(self) -> usize {
        self.from
            .saturating_add(self.to)
            .saturating_add(self.length)
            .saturating_add(self.limit)
            .saturating_add(6)
    }

    /// Returns the width of a whole line of `explain`'s table, with two blanks before the cause.
    fn whole(self) -> usize {
        self.numbers().saturating_add(2).saturating_add(self.why)
    }
}

/// The layout of a table.
#[derive(Clone, Copy, PartialEq, Eq)]
enum Layout {
    /// A line for each interval, and no bar.
    Plain,
    /// A line for each interval, with a bar of at most this many columns.
    OneLine(usize),
    /// The cause has a line of its own; a bar of at most this many columns follows the limit.
    TwoLines(usize),
    /// A paragraph for each interval, with a bar of at most this many columns.
    Paragraphs(usize),
}

impl Layout {
    /// Returns the layout of `explain`'s table. It is plain if no width is given. Otherwise it is
    /// the first in which a bar has its minimum width, or else paragraphs.
    fn of(bare: Widths, columns: Option<usize>) -> Layout {
        let Some(columns) = columns else {
            return Layout::Plain;
        };
        let (least, most) = BAR;
        let widths = bare.with_names();
        let beside = columns.saturating_sub(widths.whole().saturating_add(2));
        let behind = columns.saturating_sub(widths.numbers().saturating_add(2));
        let below = columns.saturating_sub(
            bare.length.saturating_add(bare.limit).saturating_add(6),
        );
        if beside >= least {
            Layout::OneLine(beside.min(most))
        } else if behind >= least {
            Layout::TwoLines(behind.min(most))
        } else {
            Layout::Paragraphs(below.min(most))
        }
    }
}

/// The cells of a table, with their layout.
#[derive(Drop)]
struct Sheet<'a> {
    all: &'a [Cells],
    widths: Widths,
    layout: Layout,
    columns: Option<usize>,
    /// The largest limit, in tenths.
    largest: u32,
}

/// Appends the intervals of an explained schedule, with these cells, to `explain`'s table, in the
/// layout that fits into the columns.
fn push_intervals(
    alloc: Global,
    out: &mut Page,
    explained: &ExplainedRequest<'_>,
    columns: Option<usize>,
    all: &[Cells],
) {
    let bare = Widths::of(all);
    let layout = Layout::of(bare, columns);
    let sheet = Sheet {
        all,
        widths: match layout {
            // Paragraphs have no headings, which would only widen their columns.
            Layout::Paragraphs(_) => bare,
            Layout::Plain | Layout::OneLine(_) | Layout::TwoLines(_) => bare.with_names(),
        },
        layout,
        columns,
        largest: largest_limit(explained),
    };
    sheet.push_head(out);
    for cells in sheet.all {
        sheet.push(alloc, out, cells);
    }
}

/// Returns the largest limit of an explained schedule's intervals, in tenths, for the bars of
/// `explain`'s table and the scale of its picture.
pub(crate) fn largest_limit(explained: &ExplainedRequest<'_>) -> u32 {
    let mut largest = 0;
    for interval in explained.intervals {
        largest = interval.reason.limit.max(largest);
    }
    largest
}

impl Sheet<'_> {
    /// Appends the headings of the columns of `explain`'s table, unless its layout is paragraphs.
    fn push_head(&self, out: &mut Page) {
        if let Layout::Paragraphs(_) = self.layout {
            return;
        }
        push_left(out, "from", self.widths.from);
        out.push_str("  ");
        push_left(out, "to", self.widths.to);
        out.push_str("  ");
        push_left(out, "length", self.widths.length);
        out.push_str("  ");
        push_right(out, "limit", self.widths.limit);
        match self.layout {
            Layout::Plain => out.push_str("  why\n"),
            Layout::OneLine(bar) => {
                push_times(out, ' ', bar.saturating_add(2));
                out.push_str("  why\n");
            }
            Layout::TwoLines(_) | Layout::Paragraphs(_) => out.push('\n'),
        }
    }

    /// Appends an interval of an explained schedule to `explain`'s table, in the table's layout.
    fn push(&self, alloc: Global, out: &mut Page, cells: &Cells) {
        match self.layout {
            Layout::Plain => {
                self.push_numbers(out, cells);
                push_ended(out, "  ", cells.why.as_str());
            }
            Layout::OneLine(room) => {
                self.push_numbers(out, cells);
                let bar = self.push_bar(out, cells, room);
                push_times(out, ' ', room.saturating_sub(bar));
                push_ended(out, "  ", cells.why.as_str());
            }
            Layout::TwoLines(room) => {
                self.push_numbers(out, cells);
                self.push_bar(out, cells, room);
                out.push('\n');
                self.push_why(out, cells, 4);
            }
            Layout::Paragraphs(room) => self.push_paragraph(alloc, out, cells, room),
        }
    }

    /// Appends an interval to `explain`'s table as a paragraph: a line with its times, a line with
    /// its limit, length and bar, and its cause.
    fn push_paragraph(&self, alloc: Global, out: &mut Page, cells: &Cells, room: usize) {
        let mut line = Page::new(alloc);
        line.push_str(cells.from.as_str());
        line.push_str(" to ");
        line.push_str(cells.to.as_str());
        let margins = Margins {
            indent: 0,
            columns: self.columns,
        };
        push_made_lines(out, line.finish(), margins);
        out.push_str("  ");
        push_right(out, cells.limit.as_str(), self.widths.limit);
        out.push_str("  ");
        push_right(out, cells.length.as_str(), self.widths.length);
        self.push_bar(out, cells, room);
        out.push('\n');
        self.push_why(out, cells, 2);
    }

    /// Appends the times, the length and the limit of an interval to its line of `explain`'s table.
    fn push_numbers(&self, out: &mut Page, cells: &Cells) {
        push_right(out, cells.from.as_str(), self.widths.from);
        out.push_str("  ");
        push_right(out, cells.to.as_str(), self.widths.to);
        out.push_str("  ");
        push_left(out, cells.length.as_str(), self.widths.length);
        out.push_str("  ");
        push_right(out, cells.limit.as_str(), self.widths.limit);
    }

    /// Appends the cause of an interval's limit to `explain`'s table, as indented lines of its own.
    fn push_why(&self, out: &mut Page, cells: &Cells, indent: usize) {
        let margins = Margins {
            indent,
            columns: self.columns,
        };
        push_lines(out, cells.why.as_str(), margins);
    }

    /// Appends the bar of an interval's limit to `explain`'s table after two blanks, and returns
    /// its length.
    fn push_bar(&self, out: &mut Page, cells: &Cells, room: usize) -> usize {
        let bar = bar_of(cells.tenths, self.largest, room);
        if bar > 0 {
            out.push_str("  ");
            push_times(out, '#', bar);
        } else if let Layout::OneLine(_) = self.layout {
            out.push_str("  ");
        }
        bar
    }
}

/// Appends the end of a line of `explain`'s table: the blanks before the cause, the cause and a
/// line feed.
fn push_ended(out: &mut Page, before: &str, text: &str) {
    out.push_str(before);
    out.push_str(text);
    out.push('\n');
}

/// Returns the length of a limit's bar in `explain`'s table, in columns. It is the whole room for
/// the largest limit, and at least one column for any limit above 0, if there is room.
fn bar_of(limit: u32, largest: u32, room: usize) -> usize
    ensures fits { result ≤ room }
{
    if limit == 0 {
        return 0;
    }
    let most = room.min(BAR.1) as u64;
    let share = u64::from(limit).saturating_mul(most) / u64::from(largest.max(1));
    share.max(1).min(most) as usize
}

/// Appends the profiles that never set the limit, each with the reason, below `explain`'s table.
fn push_not_counted(alloc: Global, out: &mut Page, all: &[NotCounted], columns: Option<usize>) {
    if all.is_empty() {
        return;
    }
    out.push('\n');
    let margins = Margins { indent: 0, columns };
    push_lines(
        out,
        "Profiles that never set the limit in this time:",
        margins,
    );
    let margins = Margins { indent: 2, columns };
    for one in all {
        push_made_lines(out, not_counted_text(alloc, one), margins);
    }
}
