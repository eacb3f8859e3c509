//! Finds the name that was probably meant by a misspelled one.

use std::alloc::{AllocError, Global};
use strsim::osa_distance;

/// The maximum length of a name to compare, in bytes.
// A comparison takes time by the product of both lengths, and the checked text chooses one of them.
const MAX_COMPARED: usize = 64;

/// Returns the name that differs least from `found`, if one is similar. Similar names differ only
/// in case, or in at most two letters (three in names of 12 bytes or more). These are at most a
/// quarter of the shorter name plus one.
pub fn similar_name<'a>(
    alloc: Global,
    found: &str,
    names: &[&'a str],
) -> Result<Option<&'a str>, AllocError> {
    let mut nearest: Option<(usize, &'a str)> = None;
    for name in names {
        if let Some(distance) = distance_to(alloc, found, name)? {
            if nearest.is_none_or(|(least, _)| distance < least) {
                nearest = Some((distance, *name));
            }
        }
    }
    Ok(nearest.map(|(_, name)| name))
}

/// Returns whether two different names are similar.
pub fn is_similar(alloc: Global, found: &str, name: &str) -> Result<bool, AllocError> {
    Ok(distance_to(alloc, found, name)?.is_some())
}

/// Returns by how many letters a name in a site file or a message differs from one that a finding
/// suggests, 0 if only in case. `None` if they are equal or aren't similar.
fn distance_to(alloc: Global, found: &str, name: &str) -> Result<Option<usize>, AllocError> {
    if found == name || found.len() > MAX_COMPARED || name.len() > MAX_COMPARED {
        return Ok(None);
    }
    if found.eq_ignore_ascii_case(name) {
        return Ok(Some(0));
    }
    let shorter = found.len().min(name.len());
    let longer = found.len().max(name.len());
    // An edit changes the length by at most four bytes, and at most three edits are similar.
    if longer - shorter > 12 {
        return Ok(None);
    }
    let distance = osa_distance(alloc, found, name)?;
    let most = if shorter >= 12 { 3 } else { 2 };
    let is_near = distance <= most
        && distance <= shorter / 4 + usize::from(shorter >= 3)
        && distance < shorter;
    Ok(is_near.then_some(distance))
}
