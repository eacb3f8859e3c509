//! Reads an entry of `points`, and the point that it describes.

ghost use Rattle.std.specs.Prelude.{◌≡◌, ◌<◌, ◌≤◌, None, Some, IfOk, OnOk, length, option_map, string_bytes};
ghost use Rattle.ocpp_scalars.specs.Reading.{ReadsUnless};
ghost use Rattle.serde_json.specs.Data.{no_members};
ghost use Rattle.ocppj_frame.specs.Tree.{Tree, Fields};
ghost use Rattle.site_rules.specs.Site.{kept_entry, place_of};
ghost use Rattle.site_rules.specs.ByCases.SiteReading.{is_memory};
ghost use Rattle.site_rules.specs.ByCases.Parts.{HasFewCeilings, HasFew, IsEntry, ArePointFields, IsPointFieldMore, IsPointMemberMore, fields_at, glance_tree, point_by, tree_at};

use super::connectors::read_connectors;
use super::glance::{Glance, glance_from, read_glance, tenths_in, text_in};
use super::part_fault::PartFault;
use super::point::{id_or_wrong, unused_id};
use super::steps::{or_fault, some_or};
use crate::fault::SiteFault;
use crate::point::PointLimits;
use crate::site::Site;
use json::{Reader, Token};
use ocppj_frame::after_mark;
use std::alloc::Global;

/// The fields read from a point: the last value of each one that counts, null if it is absent.
#[derive(Drop)]
pub(crate) struct PointFields<'a> {
    pub id: Glance<'a>,
    pub ceiling: Glance<'a>,
    /// The ceilings of the connectors, if they are valid.
    pub connectors: Option<Vec<u32>>,
}

/// Reads an entry of `points` in a site file: the fields of a charge point, or `None` if it isn't
/// an object.
pub(crate) fn read_entry<'a>(
    alloc: Global,
    reader: &mut Reader<'a>,
    depth: usize,
) -> Result<Option<PointFields<'a>>, PartFault>
    ensures entry { IfOk result (λ found. (tree : Tree)
        × (tree_at depth reader.old ≡ Some (tree, reader.new)) × IsEntry found tree) }
    ensures few { IfOk result HasFew }
    ensures shorter { OnOk result (length reader.new < length reader.old) }
{
    let token = reader.next().ok_or(PartFault::Unsure)?;
    match token {
        Token::BeginObject => {
            if depth == 0 {
                return Err(PartFault::Unsure);
            }
            Ok(Some(read_fields(alloc, reader, depth - 1)?))
        }
        _ => match glance_from(token, reader, depth)? {
            Glance::Object => Err(PartFault::Unsure),
            _ => Ok(None),
        },
    }
}

/// Reads the fields of a charge point in a site file: the last value of each one that counts.
fn read_fields<'a>(
    alloc: Global,
    reader: &mut Reader<'a>,
    depth: usize,
) -> Result<PointFields<'a>, PartFault>
    ensures fields { IfOk result (λ point. (fields : Fields)
        × (fields_at depth (length reader.old) no_members reader.old ≡ Some (fields, reader.new))
        × ArePointFields point fields) }
    ensures few { IfOk result (λ point. HasFewCeilings point.connectors) }
    ensures shorter { OnOk result (length reader.new < length reader.old) }
{
    let mut point = PointFields {
        id: Glance::Null,
        ceiling: Glance::Null,
        connectors: None,
    };
    'members: while let Some(key) = reader.next_key()? {
        point = with_member(alloc, point, reader, key, depth)?;
    }
    Ok(point)
}

/// Reads the value of the next member of a charge point in a site file, which counts if its key is
/// a text.
fn with_member<'a>(
    alloc: Global,
    point: PointFields<'a>,
    reader: &mut Reader<'a>,
    key: &str,
    depth: usize,
) -> Result<PointFields<'a>, PartFault>
    requires { HasFewCeilings point.connectors }
    ensures member { IfOk result
        (λ more. IsPointMemberMore depth reader.old reader.new key.now point.entry more) }
    ensures few { IfOk result (λ more. HasFewCeilings more.connectors) }
    ensures shorter { OnOk result (length reader.new < length reader.old) }
{
    match after_mark(key, b's') {
        Some(name) => Ok(with_field(alloc, point, reader, name, depth)?),
        None => {
            read_glance(reader, depth)?;
            Ok(point)
        }
    }
}

/// Reads the value of the next field of a charge point in a site file: `id`, `ceiling`,
/// `connectors`, or another, which is skipped.
fn with_field<'a>(
    alloc: Global,
    point: PointFields<'a>,
    reader: &mut Reader<'a>,
    name: &str,
    depth: usize,
) -> Result<PointFields<'a>, PartFault>
    requires { HasFewCeilings point.connectors }
    ensures field { IfOk result
        (λ more. IsPointFieldMore depth reader.old reader.new name.now point.entry more) }
    ensures few { IfOk result (λ more. HasFewCeilings more.connectors) }
    ensures shorter { OnOk result (length reader.new < length reader.old) }
{
    let PointFields {
        id,
        ceiling,
        connectors,
    } = point;
    if name == "id" {
        let id = read_glance(reader, depth)?;
        return Ok(PointFields {
            id,
            ceiling,
            connectors,
        });
    }
    if name == "ceiling" {
        let ceiling = read_glance(reader, depth)?;
        return Ok(PointFields {
            id,
            ceiling,
            connectors,
        });
    }
    if name == "connectors" {
        let connectors = read_connectors(alloc, reader, depth)?;
        return Ok(PointFields {
            id,
            ceiling,
            connectors,
        });
    }
    read_glance(reader, depth)?;
    Ok(PointFields {
        id,
        ceiling,
        connectors,
    })
}

/// Makes the next charge point of a site from the fields in its file: its identity, which no
/// earlier point has, and its limits.
#[tactic(auto, unfolding(crate::specs::ByCases::Parts::point_by))]
pub(crate) fn point_of_fields(
    alloc: Global,
    site: &Site,
    point: PointFields<'_>,
) -> Result<(String, PointLimits), SiteFault>
    requires { HasFewCeilings point.connectors }
    ensures point { ReadsUnless is_memory kept_entry result (point_by site.now
        (glance_tree point.entry.id) (glance_tree point.entry.ceiling)
        (option_map (λ ceilings. ceilings.items) point.entry.connectors)) }
    ensures new { IfOk result (λ kept. place_of site.now (string_bytes kept.0) ≡ None) }
{
    let id = or_fault(SiteFault::BadId, id_or_wrong(text_in(point.id)))?;
    let id = unused_id(site, id)?;
    let ceiling = or_fault(SiteFault::BadCeiling, tenths_in(point.ceiling))?;
    let ceilings = some_or(SiteFault::BadConnectors, point.connectors)?;
    let id = String::from_str(alloc, id)?;
    Ok((id, PointLimits { ceiling, ceilings }))
}
