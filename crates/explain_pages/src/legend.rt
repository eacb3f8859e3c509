//! The legend of a picture.

use crate::causes::LOWER;
use crate::drawing::{PictureInput, ceiling_class, push_letter, push_style};
use crate::elements::{begin_text, push_level};
use crate::entries::{LimitEntry, LimitLine};
use crate::explained_request::ExplainedRequest;
use crate::markup::{push_made_escaped, push_number};
use crate::scale::{LEFT, Scale};
use crate::steps::Steps;
use crate::table::push_moment;
use crate::words::{push_cause, push_limit};
use page_text::Page;
use std::alloc::{AllocError, Global};

/// The middle of the legend's first line, and the distance between its lines.
const FIRST: u64 = LOWER + 30;

const LINE: u64 = 22;

/// Returns the lower edge of the legend in `explain`'s picture for a number of entries, with some
/// room below it.
pub(crate) fn lower_edge(entries: usize) -> u64 {
    (entries as u64)
        .saturating_mul(LINE)
        .saturating_add(FIRST + 24)
}

/// Appends the legend of `explain`'s picture: the limit, and each profile and ceiling with its
/// letter, a piece of its line and its name.
pub(crate) fn push_legend(alloc: Global, out: &mut Page, sketch: PictureInput<'_>) {
    push_sample(out, "limit", FIRST);
    push_text(out, limit_text(alloc, sketch), FIRST);
    for (place, entry) in sketch.entries.iter().enumerate() {
        let middle = middle_of(place);
        push_entry(out, place, entry, middle);
        let text = entry_text(alloc, sketch.explained, sketch.scale, entry);
        push_text(out, text, middle);
    }
}

/// Returns the middle of a line in the legend of `explain`'s picture, by the place of its entry, a
/// profile or a ceiling.
fn middle_of(place: usize) -> u64 {
    (place as u64)
        .saturating_mul(LINE)
        .saturating_add(FIRST + LINE)
}

/// Appends the letter of a profile or a ceiling and a piece of its line to the legend of
/// `explain`'s picture.
fn push_entry(out: &mut Page, place: usize, entry: &LimitEntry, middle: u64) {
    begin_text(out, "letter", LEFT, middle.saturating_add(4));
    push_letter(out, place);
    out.push_str("</text>");
    match entry.line {
        LimitLine::Steps(_) => {
            out.push_str("<path class=\"line ");
            push_style(out, place);
            push_number(out, "\" d=\"M", LEFT + 28);
            push_number(out, " ", middle);
            push_number(out, "H", LEFT + 88);
            out.push_str("\"/>");
        }
        LimitLine::Level(_) => push_sample(out, ceiling_class(entry), middle),
        LimitLine::Nothing => {}
    }
}

/// Appends a piece of a line with a CSS class to the legend of `explain`'s picture.
fn push_sample(out: &mut Page, class: &str, middle: u64) {
    push_level(out, class, LEFT + 28, middle, LEFT + 88);
}

/// Appends the name of the limit, of a profile or of a ceiling to its line in the legend of
/// `explain`'s picture.
fn push_text(out: &mut Page, made: Result<String, AllocError>, middle: u64) {
    push_number(out, "<text x=\"", LEFT + 100);
    push_number(out, "\" y=\"", middle.saturating_add(4));
    out.push_str("\">");
    push_made_escaped(out, made);
    out.push_str("</text>\n");
}

/// Returns the name of the limit in the legend of `explain`'s picture, with a note if the picture
/// cuts its line.
fn limit_text(alloc: Global, sketch: PictureInput<'_>) -> Result<String, AllocError> {
    let mut text = Page::new(alloc);
    text.push_str("the limit");
    push_cut(alloc, &mut text, sketch.explained, sketch.limit);
    text.finish()
}

/// Returns the name of a profile or a ceiling in the legend of `explain`'s picture. Adds a note if
/// the picture cuts its line or leaves it out.
fn entry_text(
    alloc: Global,
    explained: &ExplainedRequest<'_>,
    scale: Scale,
    entry: &LimitEntry,
) -> Result<String, AllocError> {
    let mut text = Page::new(alloc);
    push_cause(&mut text, entry.cause);
    if let LimitLine::Level(limit) = entry.line {
        text.push_str(", ");
        push_limit(&mut text, limit, explained.unit);
    }
    if scale.is_passed_by(&entry.line) {
        text.push_str(", above the picture");
    }
    if let LimitLine::Steps(steps) = &entry.line {
        if scale.is_passed_by(&entry.line) {
            text.push_str(" where it is at its upper edge");
        }
        push_cut(alloc, &mut text, explained, steps);
    }
    text.finish()
}

/// Appends to the legend of `explain`'s picture until when a line is drawn, if it is cut.
pub(crate) fn push_cut(
    alloc: Global,
    out: &mut Page,
    explained: &ExplainedRequest<'_>,
    steps: &Steps,
) {
    if steps.end >= explained.ask.duration {
        return;
    }
    out.push_str(", drawn up to ");
    push_moment(alloc, out, explained, None, steps.end);
    out.push_str(" alone: it has too many steps");
}
