//! The limit of a connector over the next 24 hours as a strip: a small picture as wide as its
//! container, with its numbers in a list below.

use crate::site_report::SiteReport;
use explain_pages::{push_element, push_escaped, push_limit, push_made_escaped, push_why};
use ocpp_scalars::{Instant, LAST_SECOND, push_instant};
use page_text::Page;
use profile::Unit;
use sweep_compiler::{Explanation, Interval};

/// The columns of a picture, one for each minute of the day, and its rows.
const COLUMNS: u32 = 1_440;

const ROWS: u64 = 100;

/// Free rows above the highest limit.
const TOP: u64 = 6;

/// The seconds of a column.
const COLUMN: u32 = 60;

/// The maximum number of intervals in a list.
const MOST_LISTED: usize = 8;

/// The seconds between two times below the picture.
const LABEL_STEP: u64 = 21_600;

/// The connector whose limit is shown.
#[derive(Clone, Copy)]
pub(crate) struct Shown<'a> {
    pub(crate) point: &'a str,
    pub(crate) connector: u32,
    pub(crate) unit: Unit,
    pub(crate) from: Instant,
}

/// Appends a connector to the status page: the strip of its limit over the next 24 hours, with the
/// list of its intervals.
pub(crate) fn push_strip(page: &mut Page, shown: &Shown<'_>, explanation: &Explanation) {
    push_heading(page, shown, explanation);
    push_picture(page, explanation);
    push_labels(page, shown);
    page.push_str("</figure>\n");
    push_list(page, shown, explanation);
}

/// Appends the heading of a connector's strip to the status page, with its current limit.
fn push_heading(page: &mut Page, shown: &Shown<'_>, explanation: &Explanation) {
    let (point, connector) = (shown.point, shown.connector);
    write!(page, "<h3>Connector {connector}");
    if let Some(first) = explanation.intervals().first() {
        page.push_str(": ");
        push_limit(page, first.reason.limit, shown.unit);
        page.push_str(" now");
    }
    push_element(
        page,
        "</h3>\n<figure><svg role=\"img\" aria-label=\"The limit of ",
        point,
        "",
    );
    write!(
        page,
        ", connector {connector}, over 24 hours; the list below has its numbers\""
    );
    write!(
        page,
        // The strip is as wide as its container; the style sheet keeps the width of its lines.
        " viewBox=\"0 0 {COLUMNS} {ROWS}\" preserveAspectRatio=\"none\">"
    )
}

/// Appends to a connector's strip in the status page the line of the limit over its area, with a
/// rule every six hours.
fn push_picture(page: &mut Page, explanation: &Explanation) {
    let intervals = explanation.intervals();
    let most = highest(intervals);
    page.push_str("<path class=\"rule\" d=\"M360 0V100M720 0V100M1080 0V100M0 100H1440\"/>");
    page.push_str("<path class=\"area\" d=\"M0 100");
    push_steps(page, intervals, most, "L0 ");
    write!(page, "V{ROWS}Z\"/><path class=\"limit\" d=\"");
    push_steps(page, intervals, most, "M0 ");
    page.push_str("\"/></svg>\n");
}

/// Returns the highest limit of a connector's strip in the status page, or 1 if none is above 0.
fn highest(intervals: &[Interval]) -> u64 {
    let mut most = 1;
    for interval in intervals {
        most = most.max(u64::from(interval.reason.limit));
    }
    most
}

/// Appends the SVG path data along the limits of a connector's strip in the status page, which
/// starts with `beginning`.
fn push_steps(page: &mut Page, intervals: &[Interval], most: u64, beginning: &str) {
    let mut before = beginning;
    for interval in intervals {
        let row = row_of(interval.reason.limit, most);
        let end = interval.end / COLUMN;
        write!(page, "{before}{row}H{end}");
        before = "V";
    }
}

/// Returns the picture row of a limit in a connector's strip of the status page, counted from the
/// top.
fn row_of(limit: u32, most: u64) -> u64 {
    let height = u64::from(limit) * (ROWS - TOP) / most.max(1);
    ROWS.saturating_sub(height)
}

/// Appends the times below a connector's strip in the status page.
fn push_labels(page: &mut Page, shown: &Shown<'_>) {
    // The list has the times as text, so a screen reader skips these.
    page.push_str("<div class=\"times\" aria-hidden=\"true\">");
    for step in 0..5u64 {
        let moment = shown.from.seconds() + step * LABEL_STEP;
        page.push_str("<span>");
        push_clock(page, moment);
        page.push_str("</span>");
    }
    page.push_str("</div>");
}

/// Appends the time of day of a moment, as `hh:mm`, to a connector's strip or list in the status
/// page.
pub(crate) fn push_clock(page: &mut Page, moment: u64) {
    let Some(instant) = Instant::try_new(moment.min(LAST_SECOND)) else {
        return;
    };
    let mut text = String::new(page.allocator());
    if push_instant(&mut text, instant).is_err() {
        return page.fail();
    }
    match text.as_str().split_once('T') {
        Some((_, time)) => match time.rsplit_once(':') {
            Some((minute, _)) => page.push_str(minute),
            None => {}
        },
        None => {}
    }
}

/// Appends the list of a connector's intervals below its strip in the status page, up to a maximum.
fn push_list(page: &mut Page, shown: &Shown<'_>, explanation: &Explanation) {
    page.push_str("<ol>\n");
    for interval in explanation.intervals().iter().take(MOST_LISTED) {
        push_item(page, shown, interval);
    }
    page.push_str("</ol>\n");
    push_link(page, shown, explanation.intervals().len());
}

/// Appends an interval to a connector's list in the status page: its start, the limit, and the
/// cause.
fn push_item(page: &mut Page, shown: &Shown<'_>, interval: &Interval) {
    page.push_str("<li>from ");
    let moment = shown.from.seconds() + u64::from(interval.start);
    push_clock(page, moment);
    page.push_str(" <b>");
    push_limit(page, interval.reason.limit, shown.unit);
    page.push_str("</b> ");
    let mut why = Page::new(page.allocator());
    // The page has a line of its own for each profile that the point isn't known to have.
    push_why(&mut why, &interval.reason, shown.unit, &[]);
    push_made_escaped(page, why.finish());
    page.push_str("</li>\n");
}

/// Appends to a connector's list in the status page the link to the whole picture, and the number
/// of intervals that it leaves out.
fn push_link(page: &mut Page, shown: &Shown<'_>, count: usize) {
    let (point, connector) = (shown.point, shown.connector);
    page.push_str("<p>");
    if count > MOST_LISTED {
        let more = count - MOST_LISTED;
        write!(page, "and {more} more intervals: ");
    }
    push_element(page, "<a href=\"/points/", point, "/");
    write!(page, "{connector}.svg\">the picture of ");
    push_escaped(page, point);
    write!(page, ", connector {connector}</a></p>\n");
}
