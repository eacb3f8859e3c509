//! The HTML page: the picture with the table below it.

use crate::cells::{CellMaker, Cells};
use crate::clock::instant_text;
use crate::explained_request::{ExplainedRequest, NotCounted};
use crate::markup::{push_element, push_escaped, push_made_escaped};
use crate::picture::{push_more, push_picture};
use crate::steps::MAX_INTERVALS;
use crate::styles::PAGE;
use crate::table::{heading, place};
use crate::words::not_counted_text;
use ocpp_scalars::Instant;
use page_text::Page;
use std::alloc::{AllocError, Global};
use sweep_compiler::Interval;

/// Formats an explained schedule as a whole HTML file that loads nothing: the picture, the
/// intervals in a table, and the profiles that never set the limit. The table has the first
/// `MAX_INTERVALS`; a note counts the others.
pub fn write_page(alloc: Global, explained: &ExplainedRequest<'_>) -> Result<String, AllocError> {
    let mut out = Page::new(alloc);
    push_front(alloc, &mut out, explained);
    push_picture(alloc, &mut out, explained)?;
    out.push_str("</figure>\n");
    push_table(alloc, &mut out, explained)?;
    push_not_counted(alloc, &mut out, explained.not_counted);
    out.push_str("</main>\n</body>\n</html>\n");
    out.finish()
}

/// Appends what `explain`'s HTML page has before its picture: its head and its heading.
fn push_front(alloc: Global, out: &mut Page, explained: &ExplainedRequest<'_>) {
    out.push_str("<!DOCTYPE html>\n<html lang=\"en\">\n<head>\n<meta charset=\"utf-8\">\n");
    out.push_str("<meta name=\"viewport\" content=\"width=device-width, initial-scale=1\">\n");
    out.push_str("<title>The limit of ");
    push_made_escaped(out, heading(alloc, explained, None));
    out.push_str("</title>\n");
    out.push_str(PAGE);
    out.push_str("</head>\n<body>\n<main>\n<h1>");
    push_made_escaped(out, place(alloc, explained));
    out.push_str("</h1>\n<figure>\n");
}

// A table wider than the screen scrolls in this region, and a keyboard reaches it as a tab stop.
const HEAD: &str = r#"<h2 id="intervals">Each limit, and why</h2>
<div class="wide" role="region" aria-labelledby="intervals" tabindex="0">
<table>
<caption>Times in UTC</caption>
<thead><tr><th scope="col">From</th><th scope="col">To</th><th scope="col">Length</th><th scope="col" class="number">Limit</th><th scope="col">Why</th></tr></thead>
<tbody>
"#;

/// Appends the table of an explained schedule's intervals to `explain`'s HTML page, up to
/// `MAX_INTERVALS`.
fn push_table(
    alloc: Global,
    out: &mut Page,
    explained: &ExplainedRequest<'_>,
) -> Result<(), AllocError> {
    out.push_str(HEAD);
    let mut maker = CellMaker::new(explained, None);
    for interval in explained.first_intervals(MAX_INTERVALS) {
        push_row(out, explained, interval, &maker.cells(alloc, interval)?);
    }
    out.push_str("</tbody>\n</table>\n</div>\n");
    push_note(out, explained.intervals.len());
    Ok(())
}

/// Appends an interval with these cells to the table of `explain`'s HTML page, as a row.
fn push_row(out: &mut Page, explained: &ExplainedRequest<'_>, interval: &Interval, cells: &Cells) {
    out.push_str("<tr><th scope=\"row\">");
    push_clock(out, explained.moment(interval.start), cells.from.as_str());
    out.push_str("</th><td>");
    push_clock(out, explained.moment(interval.end), cells.to.as_str());
    push_cells(out, cells);
}

/// Appends to `explain`'s HTML page the number of intervals that its table leaves out, if there are
/// any.
fn push_note(out: &mut Page, count: usize) {
    if count <= MAX_INTERVALS {
        return;
    }
    out.push_str("<p>");
    push_more(out, count, MAX_INTERVALS);
    out.push_str("</p>\n");
}

/// Appends the length, the limit and the cause of an interval to the table of `explain`'s HTML
/// page, and ends the row.
fn push_cells(out: &mut Page, cells: &Cells) {
    push_element(out, "</td><td>", cells.length.as_str(), "</td>");
    push_element(out, "<td class=\"number\">", cells.limit.as_str(), "</td>");
    push_element(out, "<td>", cells.why.as_str(), "</td></tr>\n");
}

/// Appends a clock time to `explain`'s HTML page as an element `time`, with its instant for
/// programs.
fn push_clock(out: &mut Page, moment: u64, text: &str) {
    // The end of the calendar's last day has no `Instant`.
    let Some(instant) = Instant::try_new(moment) else {
        push_escaped(out, text);
        return;
    };
    let datetime = instant_text(out.allocator(), instant);
    out.push_str("<time datetime=\"");
    out.push_made(datetime);
    push_element(out, "\">", text, "</time>");
}

/// Appends to `explain`'s HTML page the list of the profiles that never set the limit, each with
/// the reason.
fn push_not_counted(alloc: Global, out: &mut Page, all: &[NotCounted]) {
    if all.is_empty() {
        return;
    }
    out.push_str("<h2>Profiles that never set the limit in this time</h2>\n<ul>\n");
    for one in all {
        out.push_str("<li>");
        push_made_escaped(out, not_counted_text(alloc, one));
        out.push_str("</li>\n");
    }
    out.push_str("</ul>\n");
}
