//! Reads the field `points`: each entry completely before the next, and no more entries than a site
//! may have.

ghost use Rattle.std.specs.Prelude.{◌≡◌, ◌<◌, ◌≤◌, ◌++◌, [], ◌∷◌, List, Some, IfOk, OnOk, length};
ghost use Rattle.ocppj_frame.specs.Tree.{Tree, Trees, entries};
ghost use Rattle.site_rules.specs.ByCases.Parts.{AreFound, HasFew, few_points, points_in, tree_at, trees_at, with_entry};

use super::MAX_POINTS;
use super::entry::{PointFields, point_of_fields, read_entry};
use super::glance::{Glance, glance_from, read_glance};
use super::part_fault::PartFault;
use crate::fault::SiteFault;
use crate::site::Site;
use json::{Reader, Token};
use profile::Unit;
use std::alloc::Global;

/// The points found in the entries so far.
#[derive(Drop)]
pub(crate) struct FoundPoints {
    /// The number of entries, up to one more than a site may have.
    pub count: usize,
    /// Their points, or the first fault. Unused if there are too many entries.
    pub points: Result<Site, SiteFault>,
}

/// Reads the value of `points` in a site file: a site with these points, whose unit isn't set yet,
/// or their first fault.
pub(crate) fn read_points(
    alloc: Global,
    reader: &mut Reader<'_>,
    depth: usize,
) -> Result<Result<Site, SiteFault>, PartFault>
    ensures points { IfOk result (λ found. (tree : Tree)
        × (tree_at depth reader.old ≡ Some (tree, reader.new)) × (found ≡ points_in tree)) }
    ensures shorter { OnOk result (length reader.new < length reader.old) }
{
    let token = reader.next().ok_or(PartFault::Unsure)?;
    match token {
        Token::BeginArray => {
            if depth == 0 {
                return Err(PartFault::Unsure);
            }
            let points = read_entries(alloc, reader, depth - 1)?;
            Ok(points)
        }
        _ => match glance_from(token, reader, depth)? {
            Glance::List => Err(PartFault::Unsure),
            _ => Ok(Err(SiteFault::BadPoints)),
        },
    }
}

/// Reads the entries of `points` in a site file: a site with their points, or their first fault.
fn read_entries(
    alloc: Global,
    reader: &mut Reader<'_>,
    depth: usize,
) -> Result<Result<Site, SiteFault>, PartFault>
    ensures points { IfOk result (λ found. (list : Trees)
        × (trees_at depth (length reader.old) reader.old ≡ Some (list, reader.new))
        × (found ≡ few_points (entries list))) }
    ensures shorter { OnOk result (length reader.new < length reader.old) }
{
    // A placeholder for the unit: the field `unit` may come after `points`.
    let mut found = FoundPoints {
        count: 0,
        points: Ok(Site::new(alloc, Unit::A)),
    };
    'entries: while !reader.take_end_array() {
        found = with_next(alloc, found, reader, depth)?;
    }
    Ok(unless_many(found))
}

/// Reads the next entry of `points` in a site file. Skips it if there are too many entries.
fn with_next(
    alloc: Global,
    found: FoundPoints,
    reader: &mut Reader<'_>,
    depth: usize,
) -> Result<FoundPoints, PartFault>
    ensures found { IfOk result (λ more. (tree : Tree)
        × (tree_at depth reader.old ≡ Some (tree, reader.new))
        × ((before : List Tree) → AreFound found before → AreFound more (before ++ tree ∷ []))) }
    ensures shorter { OnOk result (length reader.new < length reader.old) }
{
    let FoundPoints { count, points } = found;
    if count >= MAX_POINTS {
        // The file has BadPoints. Keeping the rest, maybe millions of entries, would only take
        // memory.
        read_glance(reader, depth)?;
        return Ok(FoundPoints {
            count: MAX_POINTS + 1,
            points,
        });
    }
    let entry = read_entry(alloc, reader, depth)?;
    Ok(FoundPoints {
        count: count + 1,
        points: with_entry(alloc, points, entry)?,
    })
}

/// Adds the charge point of the next entry of `points` in a site file, unless the points have a
/// fault.
fn with_entry(
    alloc: Global,
    points: Result<Site, SiteFault>,
    entry: Option<PointFields<'_>>,
) -> Result<Result<Site, SiteFault>, PartFault>
    requires { HasFew entry }
    ensures { IfOk result (λ more. more ≡ with_entry points entry.entry) }
{
    let mut site = match points {
        Ok(site) => site,
        Err(fault) => return Ok(Err(fault)),
    };
    let Some(point) = entry else {
        return Ok(Err(SiteFault::BadPoints));
    };
    match point_of_fields(alloc, &site, point) {
        Ok((id, limits)) => {
            site.add(id, limits)?;
            Ok(Ok(site))
        }
        Err(SiteFault::OutOfMemory) => Err(PartFault::OutOfMemory),
        Err(fault) => Ok(Err(fault)),
    }
}

/// Returns the charge points that the reading of a site file found, or `BadPoints` if there are
/// none or too many.
fn unless_many(found: FoundPoints) -> Result<Site, SiteFault>
    ensures { (all : List Tree) → AreFound found all → result ≡ few_points all }
{
    if found.count >= 1 && found.count <= MAX_POINTS {
        found.points
    } else {
        Err(SiteFault::BadPoints)
    }
}
