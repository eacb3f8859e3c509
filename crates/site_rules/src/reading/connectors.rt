//! Reads the field `connectors` of a point. Keeps no more ceilings than a point may have.

ghost use Rattle.std.specs.Prelude.{◌≡◌, ◌<◌, ◌≤◌, Some, IfOk, IfSome, OnOk, length, option_map};
ghost use Rattle.std.specs.Result.{result_ok};
ghost use Rattle.ocppj_frame.specs.Tree.{Tree, Trees, entries};
ghost use Rattle.site_rules.specs.Limits.{max_connectors};
ghost use Rattle.site_rules.specs.ByCases.SiteReading.{ceiling_of};
ghost use Rattle.site_rules.specs.ByCases.Parts.{glance_tree, trees_at, tree_at, with_ceiling, unless_empty, ceilings_in, connectors_in, HasFewCeilings};

use super::glance::{Glance, glance_from, read_glance};
use super::part_fault::PartFault;
use super::point::MAX_CONNECTORS;
use json::{Reader, Token};
use ocpp_scalars::read_tenths;
use std::alloc::{AllocFailed, Global};

/// Reads the ceilings of a charge point's connectors in a site file. Returns `None` if the value
/// isn't a list of 1 to 64 ceilings.
pub(crate) fn read_connectors(
    alloc: Global,
    reader: &mut Reader<'_>,
    depth: usize,
) -> Result<Option<Vec<u32>>, PartFault>
    ensures connectors { IfOk result (λ found. (tree : Tree)
        × (tree_at depth reader.old ≡ Some (tree, reader.new))
        × (option_map (λ ceilings. ceilings.items) found ≡ connectors_in tree)) }
    ensures few { IfOk result HasFewCeilings }
    ensures shorter { OnOk result (length reader.new < length reader.old) }
{
    let token = reader.next().ok_or(PartFault::Unsure)?;
    match token {
        Token::BeginArray => {
            if depth == 0 {
                return Err(PartFault::Unsure);
            }
            let ceilings = read_ceilings(alloc, reader, depth - 1)?;
            Ok(ceilings)
        }
        _ => match glance_from(token, reader, depth)? {
            Glance::List => Err(PartFault::Unsure),
            _ => Ok(None),
        },
    }
}

/// Reads the entries of a charge point's `connectors` in a site file. Returns `None` if they aren't
/// 1 to 64 ceilings.
fn read_ceilings(
    alloc: Global,
    reader: &mut Reader<'_>,
    depth: usize,
) -> Result<Option<Vec<u32>>, PartFault>
    ensures ceilings { IfOk result (λ found. (list : Trees)
        × (trees_at depth (length reader.old) reader.old ≡ Some (list, reader.new))
        × (option_map (λ ceilings. ceilings.items) found ≡ ceilings_in (entries list))) }
    ensures few { IfOk result HasFewCeilings }
    ensures shorter { OnOk result (length reader.new < length reader.old) }
{
    let mut kept = Some(Vec::new(alloc));
    'entries: while !reader.take_end_array() {
        let entry = read_glance(reader, depth)?;
        kept = with_ceiling(kept, entry)?;
    }
    Ok(unless_empty(kept))
}

/// Adds the ceiling of a charge point's next connector in a site file. `None` if that isn't a
/// ceiling, or if there are too many.
fn with_ceiling(
    kept: Option<Vec<u32>>,
    entry: Glance<'_>,
) -> Result<Option<Vec<u32>>, AllocFailed<u32>>
    requires { HasFewCeilings kept }
    ensures ceilings { IfOk result (λ more. option_map (λ ceilings. ceilings.items) more
        ≡ with_ceiling (option_map (λ ceilings. ceilings.items) kept) (glance_tree entry.entry)) }
    ensures few { IfOk result HasFewCeilings }
{
    let Some(mut ceilings) = kept else {
        return Ok(None);
    };
    // A file may list millions of numbers. Without this bound they would all be in memory.
    if ceilings.len() == MAX_CONNECTORS {
        return Ok(None);
    }
    let Some(ceiling) = ceiling_in(entry) else {
        return Ok(None);
    };
    ceilings.push(ceiling)?;
    Ok(Some(ceilings))
}

/// Returns the ceiling in an entry of `connectors` in a site file, in tenths, or `None` if it isn't
/// one.
fn ceiling_in(entry: Glance<'_>) -> Option<u32>
    ensures { result ≡ result_ok (ceiling_of (glance_tree entry.entry)) }
{
    match entry {
        Glance::Number(text) => read_tenths(text).ok(),
        _ => None,
    }
}

/// Returns the ceilings of a charge point's connectors in a site file, or `None` if it lists none.
fn unless_empty(kept: Option<Vec<u32>>) -> Option<Vec<u32>>
    requires { HasFewCeilings kept }
    ensures ceilings { option_map (λ ceilings. ceilings.items) result
        ≡ unless_empty (option_map (λ ceilings. ceilings.items) kept) }
    ensures few { HasFewCeilings result }
{
    match kept {
        Some(ceilings) if !ceilings.is_empty() => Some(ceilings),
        _ => None,
    }
}
