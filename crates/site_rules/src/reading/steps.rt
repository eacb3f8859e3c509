//! Steps of a reading: each returns the value that is expected, or else the given fault.

ghost use Rattle.std.specs.Prelude.{◌≡◌, ◌≤◌, Ok, Err, length, IfOk, MatchResult};
ghost use Rattle.ocppj_frame.specs.Payload.{entries_in, tree_at};
ghost use Rattle.site_rules.specs.ByCases.SiteReading.{or_fault, some_or, object_or, few_or};

use crate::fault::SiteFault;
use ocppj_frame::{Entries, Field, Node};

/// Returns the value of a field of a site file, or the fault if it has none.
pub(crate) fn or_fault<T: Drop>(fault: SiteFault, field: Field<T>) -> Result<T, SiteFault>
    ensures { result ≡ or_fault fault field }
{
    match field {
        Field::Absent | Field::WrongKind | Field::WrongValue => Err(fault),
        Field::Value(value) => Ok(value),
    }
}

/// Returns a value that was read from a site file, or the fault if there is none.
pub(crate) fn some_or<T: Drop>(fault: SiteFault, value: Option<T>) -> Result<T, SiteFault>
    ensures { result ≡ some_or fault value }
{
    match value {
        None => Err(fault),
        Some(value) => Ok(value),
    }
}

/// Returns a part of a site file's JSON tree if it is an object, or else the fault.
pub(crate) fn object_or<'tree, 'memory>(
    fault: SiteFault,
    part: Node<'tree, 'memory>,
) -> Result<Node<'tree, 'memory>, SiteFault>
    ensures { MatchResult result
        (λ object. object_or fault (tree_at part.entry) ≡ Ok (tree_at object))
        (λ found. object_or fault (tree_at part.entry) ≡ Err found) }
{
    if part.is_object() {
        Ok(part)
    } else {
        Err(fault)
    }
}

/// Returns a list in a site file if it has at least one entry and at most `most`, or else the
/// fault.
pub(crate) fn few_or<'tree, 'memory>(
    fault: SiteFault,
    most: usize,
    entries: Entries<'tree, 'memory>,
) -> Result<Entries<'tree, 'memory>, SiteFault>
    ensures entries { MatchResult result
        (λ few. few_or fault most (entries_in entries.entry) ≡ Ok (entries_in few))
        (λ found. few_or fault most (entries_in entries.entry) ≡ Err found) }
    ensures few { IfOk result (λ few. length (entries_in few) ≤ most) }
{
    let count = entries.len();
    if count >= 1 && count <= most {
        Ok(entries)
    } else {
        Err(fault)
    }
}
