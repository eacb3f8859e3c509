//! The strip below a picture's plot that names the cause of each interval's limit.

use crate::drawing::{PictureInput, push_letter};
use crate::elements::{begin_text, push_size};
use crate::entries::{LimitEntry, place_of};
use crate::explained_request::ExplainedRequest;
use crate::markup::{push_escaped, push_made_escaped, push_number};
use crate::scale::{BOTTOM, LEFT, Scale};
use crate::steps::MAX_INTERVALS;
use crate::words::{push_length, push_limit, push_short_cause, push_why};
use page_text::Page;
use std::alloc::{AllocError, Global};
use sweep_compiler::Interval;

/// The upper and the lower edge of the strip.
const UPPER: u64 = BOTTOM + 54;

pub(crate) const LOWER: u64 = UPPER + 26;

/// Appends to `explain`'s picture the strip that names the cause of each interval's limit, or only
/// its letter if the name doesn't fit. Each interval's field has a title that a pointing device
/// shows.
pub(crate) fn push_causes(
    alloc: Global,
    out: &mut Page,
    sketch: PictureInput<'_>,
) -> Result<(), AllocError> {
    begin_text(out, "end soft", LEFT - 10, UPPER + 17);
    out.push_str("set by</text>\n");
    let mut is_odd = false;
    for interval in sketch.explained.first_intervals(MAX_INTERVALS) {
        let field = IntervalBand::of(sketch.scale, interval, is_odd);
        // A field without width can't be seen.
        if field.breadth > 0 {
            push_field(alloc, out, sketch.explained, field);
            push_name(alloc, out, field, sketch.entries)?;
        }
        is_odd = !is_odd;
    }
    Ok(())
}

/// The field of an interval.
#[derive(Clone, Copy)]
struct IntervalBand<'a> {
    interval: &'a Interval,
    left: u64,
    breadth: u64,
    is_odd: bool,
}

impl<'a> IntervalBand<'a> {
    /// Returns the field of an interval in the strip of `explain`'s picture that names the causes
    /// of limits.
    fn of(scale: Scale, interval: &'a Interval, is_odd: bool) -> IntervalBand<'a> {
        let left = scale.x(interval.start);
        IntervalBand {
            interval,
            left,
            breadth: scale.x(interval.end).saturating_sub(left),
            is_odd,
        }
    }
}

/// Appends the field of an interval to the strip of causes in `explain`'s picture, with its limit,
/// length and cause as the title.
fn push_field(
    alloc: Global,
    out: &mut Page,
    explained: &ExplainedRequest<'_>,
    field: IntervalBand<'_>,
) {
    out.push_str("<rect class=\"");
    out.push_str(if field.is_odd { "cause odd" } else { "cause" });
    push_number(out, "\" x=\"", field.left);
    push_number(out, "\" y=\"", UPPER);
    out.push('"');
    push_size(out, field.breadth, LOWER - UPPER);
    out.push_str("><title>");
    push_made_escaped(out, title_of(alloc, explained, field.interval));
    out.push_str("</title></rect>\n");
}

/// Returns the limit, the length and the cause of an interval, as the title of its field in
/// `explain`'s picture.
fn title_of(
    alloc: Global,
    explained: &ExplainedRequest<'_>,
    interval: &Interval,
) -> Result<String, AllocError> {
    let mut title = Page::new(alloc);
    push_limit(&mut title, interval.reason.limit, explained.unit);
    title.push_str(" for ");
    push_length(&mut title, interval.end.saturating_sub(interval.start));
    title.push_str(": ");
    push_why(
        &mut title,
        &interval.reason,
        explained.unit,
        explained.known,
    );
    title.finish()
}

/// Appends the name of a cause to its field in `explain`'s picture if there is room for it, or else
/// the letter if that fits.
fn push_name(
    alloc: Global,
    out: &mut Page,
    field: IntervalBand<'_>,
    entries: &[LimitEntry],
) -> Result<(), AllocError> {
    let Some(place) = place_of(entries, field.interval.reason.cause) else {
        return Ok(());
    };
    let mut name = Page::new(alloc);
    push_letter(&mut name, place);
    name.push(' ');
    push_short_cause(&mut name, field.interval.reason.cause);
    let name = name.finish()?;
    let mut letter = Page::new(alloc);
    push_letter(&mut letter, place);
    let letter = letter.finish()?;
    if has_room(field, name.as_str()) {
        push_middle(out, field, name.as_str());
    } else if has_room(field, letter.as_str()) {
        push_middle(out, field, letter.as_str());
    }
    Ok(())
}

/// Returns whether an ASCII text fits into an interval's field in `explain`'s picture, at 7 units a
/// character and a margin of 4.
fn has_room(field: IntervalBand<'_>, text: &str) -> bool {
    (text.len() as u64).saturating_mul(7).saturating_add(4) <= field.breadth
}

/// Appends the name or the letter of a cause in the middle of its interval's field in `explain`'s
/// picture.
fn push_middle(out: &mut Page, field: IntervalBand<'_>, text: &str) {
    let x = field.left.saturating_add(field.breadth / 2);
    begin_text(out, "name", x, UPPER + 17);
    push_escaped(out, text);
    out.push_str("</text>\n");
}
