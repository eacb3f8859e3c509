//! The elements that a picture has many of: texts and straight lines.

use crate::markup::{push_made_escaped, push_number};
use crate::scale::LEFT;
use page_text::Page;
use std::alloc::AllocError;

/// Appends the start tag of a text with CSS classes to `explain`'s picture, at a point on the
/// text's base line.
pub(crate) fn begin_text(out: &mut Page, classes: &str, x: u64, base: u64) {
    out.push_str("<text class=\"");
    out.push_str(classes);
    push_number(out, "\" x=\"", x);
    push_number(out, "\" y=\"", base);
    out.push_str("\">");
}

/// Appends a text that was made elsewhere to `explain`'s picture, with a CSS class, at the left
/// edge of the plot.
pub(crate) fn push_left_text(
    out: &mut Page,
    class: &str,
    base: u64,
    made: Result<String, AllocError>,
) {
    begin_text(out, class, LEFT, base);
    push_made_escaped(out, made);
    out.push_str("</text>\n");
}

/// Appends a line from left to right to `explain`'s picture, with a CSS class.
pub(crate) fn push_level(out: &mut Page, class: &str, from: u64, y: u64, to: u64) {
    begin_line(out, class, from, y);
    push_number(out, "H", to);
    out.push_str("\"/>");
}

/// Appends a line from top to bottom to `explain`'s picture, with a CSS class.
pub(crate) fn push_upright(out: &mut Page, class: &str, x: u64, upper: u64, lower: u64) {
    begin_line(out, class, x, upper);
    push_number(out, "V", lower);
    out.push_str("\"/>");
}

/// Appends the beginning of a line to `explain`'s picture, with a CSS class, up to its first point.
fn begin_line(out: &mut Page, class: &str, x: u64, y: u64) {
    out.push_str("<path class=\"");
    out.push_str(class);
    push_number(out, "\" d=\"M", x);
    push_number(out, " ", y);
}

/// Appends the attributes of an element's size to `explain`'s picture.
pub(crate) fn push_size(out: &mut Page, width: u64, height: u64) {
    push_number(out, " width=\"", width);
    push_number(out, "\" height=\"", height);
    out.push('"');
}
