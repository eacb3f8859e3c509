//! Reading a site file.

ghost use Rattle.std.specs.Prelude.{◌≡◌, [], Ok};
ghost use Rattle.ocppj_frame.specs.Read.{tree_of_text};
ghost use Rattle.ocppj_frame.specs.Payload.{entries_in, tree_at};
ghost use Rattle.ocpp_scalars.specs.Reading.{ReadsUnless};
ghost use Rattle.site_rules.specs.ByCases.SiteReading.{with_points, site_of_tree, site_by, site_of, is_memory};

mod connectors;
mod entries;
mod entry;
mod glance;
mod part_fault;
mod point;
mod steps;
mod trees;
mod whole;

use crate::fault::SiteFault;
use crate::site::Site;
use ocppj_frame::{Entries, FrameFault, Node, ReadingMemory, list_field, read_tree, text_field};
use part_fault::PartFault;
use point::read_point;
use profile::{Named, Unit};
use std::alloc::Global;
use steps::{few_or, object_or, or_fault, some_or};
use whole::read_parts;

/// The maximum size of a site file, in bytes.
pub const MAX_SITE_BYTES: usize = 16_777_216;

/// The maximum number of charge points of a site.
pub(crate) const MAX_POINTS: usize = 1_000;

/// Reads a site file, or returns its first fault, in the order of `SiteFault`. A fault of a point
/// is found before those of the points after it.
#[tactic(auto, unfolding(crate::specs::ByCases::SiteReading::site_of))]
pub fn read_site(alloc: Global, bytes: &[u8]) -> Result<Site, SiteFault>
    ensures { ReadsUnless is_memory (λ site. site) result (site_of bytes.now) }
{
    if bytes.len() > MAX_SITE_BYTES {
        return Err(SiteFault::TooLarge);
    }
    match std::str::from_utf8(bytes) {
        Ok(text) => read_site_text(alloc, text),
        Err(_) => Err(SiteFault::NotUtf8),
    }
}

/// Reads the text of a site file, or returns its first fault.
fn read_site_text(alloc: Global, text: &str) -> Result<Site, SiteFault>
    ensures { ReadsUnless is_memory (λ site. site) result (site_by (tree_of_text text.now)) }
{
    // A tree would take up to 120 times the size of its text.
    match read_parts(alloc, text) {
        Ok(site) => site,
        Err(PartFault::OutOfMemory) => Err(SiteFault::OutOfMemory),
        Err(PartFault::Unsure) => read_text_whole(alloc, text),
    }
}

/// Reads the text of a site file as a tree, which takes many times its size. This is never reached,
/// since a text that isn't JSON is refused earlier. But that isn't proved.
fn read_text_whole(alloc: Global, text: &str) -> Result<Site, SiteFault>
    ensures { ReadsUnless is_memory (λ site. site) result (site_by (tree_of_text text.now)) }
{
    let mut memory = ReadingMemory::new(alloc);
    match read_tree(&mut memory, text) {
        Ok(tree) => read_site_tree(alloc, tree.root()),
        Err(FrameFault::OutOfMemory) => Err(SiteFault::OutOfMemory),
        Err(_) => Err(SiteFault::NotJson),
    }
}

/// Reads a site from the tree of a site file: its unit, and its charge points.
#[tactic(auto, unfolding(crate::specs::ByCases::SiteReading::site_of_tree))]
fn read_site_tree(alloc: Global, tree: Node<'_, '_>) -> Result<Site, SiteFault>
    ensures { ReadsUnless is_memory (λ site. site) result (site_of_tree (tree_at tree.entry)) }
{
    let fields = object_or(SiteFault::NotAnObject, tree)?;
    let unit = or_fault(SiteFault::BadUnit, text_field(fields, "unit"))?;
    let unit = some_or(SiteFault::BadUnit, Unit::named(unit))?;
    let entries = or_fault(SiteFault::BadPoints, list_field(fields, "points"))?;
    let entries = few_or(SiteFault::BadPoints, MAX_POINTS, entries)?;
    read_points(alloc, unit, entries)
}

/// Reads the charge points of a site from the tree of its file, each completely before the next.
fn read_points(alloc: Global, unit: Unit, entries: Entries<'_, '_>) -> Result<Site, SiteFault>
    ensures { ReadsUnless is_memory (λ site. site) result
        (with_points (record { unit = unit; points = [] }) (entries_in entries.entry)) }
{
    let mut site = Site::new(alloc, unit);
    for entry in entries.iter() {
        let (id, limits) = read_point(alloc, &site, entry)?;
        site.add(id, limits)?;
    }
    Ok(site)
}
