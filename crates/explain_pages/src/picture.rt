//! The picture of an explained schedule, as SVG.

use crate::causes::push_causes;
use crate::cells::{CellMaker, Cells};
use crate::drawing::{
    PictureInput, push_entry_line, push_limit_axis, push_limit_line, push_time_axis,
};
use crate::elements::{push_left_text, push_size};
use crate::entries::entries_of;
use crate::explained_request::ExplainedRequest;
use crate::legend::{lower_edge, push_legend};
use crate::letters::push_letters;
use crate::markup::{push_element, push_made_escaped, push_number};
use crate::scale::{BREADTH, Scale};
use crate::steps::interval_steps;
use crate::styles::PICTURE;
use crate::table::{heading, place, push_span};
use messages::unit_name;
use page_text::Page;
use std::alloc::{AllocError, Global};

/// The maximum number of intervals in a picture's description.
const DESCRIBED: usize = 12;

/// Draws an explained schedule as a whole SVG file. The limit is a thick line. The profiles and the
/// ceilings are drawn beneath it, each with its own dashes and a letter. A strip below the times
/// names the cause of each limit. A profile's line has at most `MAX_STEPS` steps, and the limit's
/// at most `MAX_INTERVALS`; the legend says where a line is cut.
pub fn write_picture(
    alloc: Global,
    explained: &ExplainedRequest<'_>,
) -> Result<String, AllocError> {
    let mut out = Page::new(alloc);
    out.push_str("<?xml version=\"1.0\" encoding=\"UTF-8\"?>\n");
    push_picture(alloc, &mut out, explained)?;
    out.finish()
}

/// Appends the element `svg` with `explain`'s picture of a schedule, for its SVG file (also the
/// status port's) and for its HTML page.
pub(crate) fn push_picture(
    alloc: Global,
    out: &mut Page,
    explained: &ExplainedRequest<'_>,
) -> Result<(), AllocError> {
    let entries = entries_of(alloc, explained)?;
    let limit = interval_steps(alloc, explained)?;
    push_front(alloc, out, explained, lower_edge(entries.len()))?;
    let sketch = PictureInput {
        explained,
        scale: Scale::of(explained, entries.as_slice()),
        entries: entries.as_slice(),
        limit: &limit,
    };
    push_drawing(alloc, out, sketch)?;
    out.push_str("</svg>\n");
    Ok(())
}

/// Appends what `explain`'s picture has before its drawing: its start tag, its description, its
/// styles, its paper and its heading.
fn push_front(
    alloc: Global,
    out: &mut Page,
    explained: &ExplainedRequest<'_>,
    height: u64,
) -> Result<(), AllocError> {
    push_opening(out, height);
    push_description(alloc, out, explained)?;
    out.push_str(PICTURE);
    out.push_str("<rect class=\"paper\"");
    push_size(out, BREADTH, height);
    out.push_str("/>\n");
    push_head(alloc, out, explained);
    Ok(())
}

/// Appends the start tag of the element `svg` of `explain`'s picture, with its size.
fn push_opening(out: &mut Page, height: u64) {
    out.push_str("<svg xmlns=\"http://www.w3.org/2000/svg\" class=\"hilfrogwy\" role=\"img\"");
    // A screen reader takes the picture as one image, and reads out these two elements for it.
    out.push_str(" aria-labelledby=\"picture-title picture-description\"");
    push_number(out, " viewBox=\"0 0 ", BREADTH);
    push_number(out, " ", height);
    out.push('"');
    push_size(out, BREADTH, height);
    out.push_str(">\n");
}

/// Appends the title and the description of `explain`'s picture, which a screen reader reads out.
fn push_description(
    alloc: Global,
    out: &mut Page,
    explained: &ExplainedRequest<'_>,
) -> Result<(), AllocError> {
    out.push_str("<title id=\"picture-title\">The limit of ");
    push_made_escaped(out, heading(alloc, explained, None));
    out.push_str("</title>\n");
    out.push_str("<desc id=\"picture-description\">Times in UTC.");
    let mut maker = CellMaker::new(explained, None);
    for interval in explained.first_intervals(DESCRIBED) {
        push_described(out, &maker.cells(alloc, interval)?);
    }
    push_more(out, explained.intervals.len(), DESCRIBED);
    out.push_str("</desc>\n");
    Ok(())
}

/// Appends an interval with these cells to the description of `explain`'s picture.
fn push_described(out: &mut Page, cells: &Cells) {
    push_element(out, " ", cells.from.as_str(), " to ");
    push_element(out, "", cells.to.as_str(), ": ");
    push_element(out, "", cells.limit.as_str(), ", ");
    push_element(out, "", cells.why.as_str(), ".");
}

/// Appends the number of intervals that the description of `explain`'s picture or the table of its
/// HTML page leaves out, if there are any.
pub(crate) fn push_more(out: &mut Page, count: usize, shown: usize) {
    if count > shown {
        push_number(out, " Further intervals: ", (count - shown) as u64);
        out.push('.');
    }
}

/// Appends the heading above the plot of `explain`'s picture: the point, the connector, the unit
/// and the time.
fn push_head(alloc: Global, out: &mut Page, explained: &ExplainedRequest<'_>) {
    push_left_text(out, "head", 30, place(alloc, explained));
    push_left_text(out, "soft", 52, head_text(alloc, explained));
}

/// Returns the unit and the time of the explained schedule, for the heading of `explain`'s picture.
fn head_text(alloc: Global, explained: &ExplainedRequest<'_>) -> Result<String, AllocError> {
    let mut text = Page::new(alloc);
    text.push_str("limit in ");
    text.push_str(unit_name(explained.unit));
    text.push_str(", ");
    push_span(alloc, &mut text, explained, None, " UTC (");
    text.finish()
}

/// Appends the drawing of `explain`'s picture: the axes, the lines, the letters, the causes and the
/// legend.
fn push_drawing(alloc: Global, out: &mut Page, sketch: PictureInput<'_>) -> Result<(), AllocError> {
    let scale = sketch.scale;
    push_limit_axis(out, scale, sketch.explained.unit);
    push_time_axis(alloc, out, sketch.explained, scale);
    for (place, entry) in sketch.entries.iter().enumerate() {
        push_entry_line(out, scale, place, entry);
    }
    // Drawn after the other lines, so that none of them covers it.
    push_limit_line(out, scale, sketch.limit);
    push_letters(alloc, out, scale, sketch.entries)?;
    push_causes(alloc, out, sketch)?;
    push_legend(alloc, out, sketch);
    Ok(())
}
