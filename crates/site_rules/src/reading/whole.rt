//! Reads a site file from its first byte to its last, value by value.

ghost use Rattle.std.specs.Prelude.{◌≡◌, ◌<◌, [], Some, IfOk, OnOk, length};
ghost use Rattle.json.specs.Lex.{tokens};
ghost use Rattle.serde_json.specs.Data.{no_members};
ghost use Rattle.serde_json.specs.Read.{max_depth};
ghost use Rattle.ocppj_frame.specs.Read.{tree_of_text};
ghost use Rattle.ocppj_frame.specs.Tree.{Tree, Fields};
ghost use Rattle.site_rules.specs.ByCases.SiteReading.{site_by, site_of_tree};
ghost use Rattle.site_rules.specs.ByCases.Parts.{AreSiteFields, IsSiteFieldMore, IsSiteMemberMore, fields_at, glance_tree, site_by_fields, tree_at};

use super::entries::read_points;
use super::glance::{Glance, glance_from, read_glance, text_in};
use super::part_fault::PartFault;
use super::steps::{or_fault, some_or};
use super::trees::has_tree;
use crate::fault::SiteFault;
use crate::site::Site;
use json::{Reader, Scratch, Token};
use ocppj_frame::{after_mark, mark_text};
use profile::{Named, Unit};
use std::alloc::Global;

/// The maximum depth of nested lists and objects: that of `serde_json`.
pub(crate) const MAX_DEPTH: usize = 127;

/// The fields read from the file's object: the last value of each one that counts.
#[derive(Drop)]
pub(crate) struct SiteFields<'a> {
    /// Null if it is absent.
    pub unit: Glance<'a>,
    pub points: Result<Site, SiteFault>,
}

/// Reads a site file part by part: its site, or its first fault.
pub(crate) fn read_parts(alloc: Global, text: &str) -> Result<Result<Site, SiteFault>, PartFault>
    ensures { IfOk result (λ site. site ≡ site_by (tree_of_text text.now)) }
{
    let mut room = Vec::new(alloc);
    let mut scratch = Scratch::new(alloc);
    let marked = mark_text(text, &mut room)?;
    // From here on malformed numbers and keys don't matter: a later value replaces each of them.
    if !has_tree(alloc, marked, &mut scratch)? {
        return Ok(Err(SiteFault::NotJson));
    }
    read_marked(alloc, marked, &mut scratch)
}

/// Reads the marked text of a site file, whose value has a tree: its site, or its first fault.
fn read_marked(
    alloc: Global,
    marked: &str,
    scratch: &mut Scratch,
) -> Result<Result<Site, SiteFault>, PartFault>
    ensures { IfOk result (λ site. (tree : Tree)
        × (tree_at max_depth (tokens marked.now) ≡ Some (tree, [])) × (site ≡ site_of_tree tree)) }
{
    let mut reader = Reader::new(marked, scratch)?;
    let site = read_whole(alloc, &mut reader, MAX_DEPTH)?;
    if reader.next().is_some() {
        return Err(PartFault::Unsure);
    }
    Ok(site)
}

/// Reads the value of a whole site file, which is to be an object: its site, or its first fault.
fn read_whole(
    alloc: Global,
    reader: &mut Reader<'_>,
    depth: usize,
) -> Result<Result<Site, SiteFault>, PartFault>
    ensures { IfOk result (λ site. (tree : Tree)
        × (tree_at depth reader.old ≡ Some (tree, reader.new)) × (site ≡ site_of_tree tree)) }
{
    let token = reader.next().ok_or(PartFault::Unsure)?;
    match token {
        Token::BeginObject => {
            if depth == 0 {
                return Err(PartFault::Unsure);
            }
            Ok(site_of_fields(read_fields(alloc, reader, depth - 1)?))
        }
        _ => match glance_from(token, reader, depth)? {
            Glance::Object => Err(PartFault::Unsure),
            _ => Ok(Err(SiteFault::NotAnObject)),
        },
    }
}

/// Reads the fields of a site file's object: the last value of each one that counts.
fn read_fields<'a>(
    alloc: Global,
    reader: &mut Reader<'a>,
    depth: usize,
) -> Result<SiteFields<'a>, PartFault>
    ensures { IfOk result (λ site. (fields : Fields)
        × (fields_at depth (length reader.old) no_members reader.old ≡ Some (fields, reader.new))
        × AreSiteFields site fields) }
{
    let mut site = SiteFields {
        unit: Glance::Null,
        points: Err(SiteFault::BadPoints),
    };
    'members: while let Some(key) = reader.next_key()? {
        site = with_member(alloc, site, reader, key, depth)?;
    }
    Ok(site)
}

/// Reads the value of the next member of a site file's object, which counts if its key is a text.
fn with_member<'a>(
    alloc: Global,
    site: SiteFields<'a>,
    reader: &mut Reader<'a>,
    key: &str,
    depth: usize,
) -> Result<SiteFields<'a>, PartFault>
    ensures member { IfOk result
        (λ more. IsSiteMemberMore depth reader.old reader.new key.now site.entry more) }
    ensures shorter { OnOk result (length reader.new < length reader.old) }
{
    match after_mark(key, b's') {
        Some(name) => Ok(with_field(alloc, site, reader, name, depth)?),
        None => {
            read_glance(reader, depth)?;
            Ok(site)
        }
    }
}

/// Reads the value of the next field of a site file: `unit`, `points`, or another, which is
/// skipped.
fn with_field<'a>(
    alloc: Global,
    site: SiteFields<'a>,
    reader: &mut Reader<'a>,
    name: &str,
    depth: usize,
) -> Result<SiteFields<'a>, PartFault>
    ensures field { IfOk result
        (λ more. IsSiteFieldMore depth reader.old reader.new name.now site.entry more) }
    ensures shorter { OnOk result (length reader.new < length reader.old) }
{
    let SiteFields { unit, points } = site;
    if name == "unit" {
        let unit = read_glance(reader, depth)?;
        return Ok(SiteFields { unit, points });
    }
    if name == "points" {
        // The last of several counts, so the memory of the earlier ones is freed for it.
        drop(points);
        let points = read_points(alloc, reader, depth)?;
        return Ok(SiteFields { unit, points });
    }
    read_glance(reader, depth)?;
    Ok(SiteFields { unit, points })
}

/// Makes the site from the fields of its file, or returns the first fault: that of the unit, or
/// else of the points.
#[tactic(auto, unfolding(crate::specs::ByCases::Parts::site_by_fields))]
fn site_of_fields(site: SiteFields<'_>) -> Result<Site, SiteFault>
    ensures { result ≡ site_by_fields (glance_tree site.entry.unit) site.entry.points }
{
    // The points come last: whatever the order of the fields, `BadUnit` is reported first.
    let unit = or_fault(SiteFault::BadUnit, text_in(site.unit))?;
    let unit = some_or(SiteFault::BadUnit, Unit::named(unit))?;
    let points = site.points?;
    Ok(points.with_unit(unit))
}
