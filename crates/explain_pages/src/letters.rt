//! The letters at the lines of a picture, which don't overlap.

use crate::drawing::push_letter;
use crate::elements::begin_text;
use crate::entries::{LimitEntry, LimitLine};
use crate::scale::{LEFT, RIGHT, Scale};
use page_text::Page;
use std::alloc::{AllocError, Global};

/// The minimum distance between letters, horizontally and vertically.
const APART: (u64, u64) = (20, 13);

/// The number of positions tried before a letter is left out.
const TRIES: usize = 12;

/// Appends to `explain`'s picture the letter of each profile and ceiling above the beginning of its
/// line.
pub(crate) fn push_letters(
    alloc: Global,
    out: &mut Page,
    scale: Scale,
    entries: &[LimitEntry],
) -> Result<(), AllocError> {
    let mut spots = Vec::new(alloc);
    for (place, entry) in entries.iter().enumerate() {
        if let Some(spot) = beginning(scale, &entry.line) {
            if let Some(spot) = free_spot(spots.as_slice(), spot) {
                spots.push(spot)?;
                begin_text(out, "letter", spot.0, spot.1);
                push_letter(out, place);
                out.push_str("</text>\n");
            }
        }
    }
    Ok(())
}

/// Returns the spot of a line's letter in `explain`'s picture: above the start of a profile's line,
/// or at the right edge for a ceiling.
fn beginning(scale: Scale, line: &LimitLine) -> Option<(u64, u64)> {
    match line {
        LimitLine::Level(_) if scale.is_passed_by(line) => None,
        LimitLine::Level(limit) => Some((RIGHT - 22, above(scale, *limit))),
        LimitLine::Nothing => None,
        LimitLine::Steps(steps) => {
            for step in &steps.items {
                if let Some(limit) = step.limit {
                    return Some((scale.x(step.second) + 6, above(scale, limit)));
                }
            }
            None
        }
    }
}

/// Returns the height of a line's letter in `explain`'s picture, just above a limit's line.
fn above(scale: Scale, limit: u32) -> u64 {
    scale.y(limit).saturating_sub(6)
}

/// Returns the first free spot for a letter of `explain`'s picture, from a spot on to the right, or
/// to the left in the right half.
fn free_spot(spots: &[(u64, u64)], spot: (u64, u64)) -> Option<(u64, u64)> {
    // Two lines may begin at one point. A letter that finds no free spot is only in the legend.
    let (mut x, y) = spot;
    let goes_left = x > (LEFT + RIGHT) / 2;
    for _ in 0..TRIES {
        if !spots.iter().any(|other| is_near(*other, (x, y))) {
            return Some((x, y));
        }
        x = if goes_left {
            x.saturating_sub(APART.0)
        } else {
            x.saturating_add(APART.0)
        };
    }
    None
}

/// Returns whether letters at two spots of `explain`'s picture would overlap.
fn is_near(one: (u64, u64), other: (u64, u64)) -> bool {
    one.0.abs_diff(other.0) < APART.0 && one.1.abs_diff(other.1) < APART.1
}
