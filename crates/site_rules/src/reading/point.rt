//! Reading a charge point of a site file.

ghost use Rattle.std.specs.Prelude.{◌≡◌, ◌≤◌, None, Ok, Err, length, string_bytes, IfOk, MatchResult};
ghost use Rattle.std.specs.List.{list_all};
ghost use Rattle.ocpp_scalars.specs.Reading.{ReadsUnless};
ghost use Rattle.ocppj_frame.specs.Field.{field_map};
ghost use Rattle.ocppj_frame.specs.Payload.{entries_in, tree_at};
ghost use Rattle.site_rules.specs.Limits.{max_connectors};
ghost use Rattle.site_rules.specs.Site.{kept_entry, place_of};
ghost use Rattle.site_rules.specs.SiteFile.{is_id_byte};
ghost use Rattle.site_rules.specs.ByCases.SiteReading.{is_point_id, id_or_wrong, unused_id, ceiling_of, ceilings_of, connectors_of, point_of, is_memory};

use super::steps::{few_or, object_or, or_fault};
use crate::fault::SiteFault;
use crate::point::PointLimits;
use crate::site::Site;
use ocpp_scalars::read_tenths;
use ocppj_frame::{Entries, Field, Node, list_field, tenths_field, text_field};
use std::alloc::Global;

/// The maximum number of connectors of a point.
pub(crate) const MAX_CONNECTORS: usize = 64;

/// The maximum length of a point's identity, in characters.
const MAX_ID_CHARACTERS: usize = 48;

/// Reads the next charge point of a site from the tree of its file: its identity, which no earlier
/// point has, and its limits.
#[tactic(auto, unfolding(crate::specs::ByCases::SiteReading::point_of))]
pub(crate) fn read_point(
    alloc: Global,
    site: &Site,
    point: Node<'_, '_>,
) -> Result<(String, PointLimits), SiteFault>
    ensures point { ReadsUnless is_memory kept_entry result
        (point_of site.now (tree_at point.entry)) }
    ensures new { IfOk result (λ point. place_of site.now (string_bytes point.0) ≡ None) }
{
    let fields = object_or(SiteFault::BadPoints, point)?;
    let id = or_fault(SiteFault::BadId, id_or_wrong(text_field(fields, "id")))?;
    let id = unused_id(site, id)?;
    let ceiling = or_fault(SiteFault::BadCeiling, tenths_field(fields, "ceiling"))?;
    let ceilings = read_connectors(alloc, fields)?;
    let id = String::from_str(alloc, id)?;
    Ok((id, PointLimits { ceiling, ceilings }))
}

/// Returns the field `id` of a charge point in a site file, as `WrongValue` if it isn't a valid
/// identity.
pub(crate) fn id_or_wrong(field: Field<&str>) -> Field<&str>
    ensures { field_map (λ id. id.now) result ≡ id_or_wrong (field_map (λ id. id.now) field.entry) }
{
    match field {
        Field::Value(id) if !is_point_id(id) => Field::WrongValue,
        other => other,
    }
}

/// Whether a text in a site file can be the identity of a charge point.
fn is_point_id(id: &str) -> bool
    ensures { result ≡ is_point_id id.now }
{
    let bytes = id.as_bytes();
    !bytes.is_empty() && bytes.len() <= MAX_ID_CHARACTERS && are_id_bytes(bytes)
}

/// Whether the identity of a charge point in a site file may consist of these bytes.
fn are_id_bytes(bytes: &[u8]) -> bool
    ensures { result ≡ list_all is_id_byte bytes.now }
{
    bytes.iter().all(|b| is_id_byte(*b))
}

/// Whether the identity of a charge point in a site file may contain this byte.
fn is_id_byte(b: u8) -> bool
    ensures { result ≡ is_id_byte b }
{
    // A point's identity is a segment of its URL (OCPP-J 1.6, 3.1.1). These are the characters that
    // need no escape there (RFC 3986, 2.3), and escapes aren't decoded.
    matches!(b, b'A'..=b'Z' | b'a'..=b'z' | b'0'..=b'9' | b'.' | b'_' | b'-' | b'~')
}

/// Returns the identity of a charge point in a site file if no earlier point has it, or else
/// `SameId`.
pub(crate) fn unused_id<'a>(site: &Site, id: &'a str) -> Result<&'a str, SiteFault>
    ensures id { MatchResult result
        (λ unused. unused_id site.now id.now ≡ Ok unused.now)
        (λ fault. unused_id site.now id.now ≡ Err fault) }
    ensures new { IfOk result (λ unused. place_of site.now unused.now ≡ None) }
{
    match site.place_of(id) {
        Some(_) => Err(SiteFault::SameId),
        None => Ok(id),
    }
}

/// Reads the ceilings of a charge point's connectors from the tree of a site file, or returns the
/// fault `BadConnectors`.
#[tactic(auto, unfolding(crate::specs::ByCases::SiteReading::connectors_of))]
fn read_connectors(alloc: Global, fields: Node<'_, '_>) -> Result<Vec<u32>, SiteFault>
    ensures ceilings { ReadsUnless is_memory (λ ceilings. ceilings.items) result
        (connectors_of (tree_at fields.entry)) }
    ensures few { IfOk result (λ ceilings. length ceilings.items ≤ max_connectors) }
{
    let entries = or_fault(SiteFault::BadConnectors, list_field(fields, "connectors"))?;
    let entries = few_or(SiteFault::BadConnectors, MAX_CONNECTORS, entries)?;
    read_ceilings(alloc, entries)
}

/// Reads the ceiling of each connector of a charge point from the tree of a site file.
fn read_ceilings(alloc: Global, entries: Entries<'_, '_>) -> Result<Vec<u32>, SiteFault>
    ensures ceilings { ReadsUnless is_memory (λ ceilings. ceilings.items) result
        (ceilings_of (entries_in entries.entry)) }
    ensures count { IfOk result
        (λ ceilings. length ceilings.items ≡ length (entries_in entries.entry)) }
{
    let mut ceilings = Vec::with_capacity(alloc, entries.len())?;
    for entry in entries.iter() {
        let ceiling = read_ceiling(entry)?;
        ceilings.push(ceiling)?;
    }
    Ok(ceilings)
}

/// Reads the ceiling of a connector from the tree of a site file, in tenths, or returns the fault
/// `BadConnectors`.
fn read_ceiling(entry: Node<'_, '_>) -> Result<u32, SiteFault>
    ensures { result ≡ ceiling_of (tree_at entry.entry) }
{
    match entry.number() {
        None => Err(SiteFault::BadConnectors),
        Some(text) => match read_tenths(text) {
            Ok(ceiling) => Ok(ceiling),
            Err(_) => Err(SiteFault::BadConnectors),
        },
    }
}
