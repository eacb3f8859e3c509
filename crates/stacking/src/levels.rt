//! For each stack level, the row that applies to a connector.

ghost use Rattle.std.specs.Prelude.{◌≡◌, ◌≢◌, ◌<◌, ◌≤◌, ℕ, length, slice_get, slice_index};
ghost use Rattle.std.specs.List.{All};
ghost use Rattle.std.specs.Option.{option_copied};
ghost use Rattle.stacking.specs.ByCases.Candidates.{AreCandidatePlaces, AreFirstAdded, AreFirstPlaces, IsPlaceAdded, own_connector, shared_connector, is_row_at};

use crate::changes::is_purpose;
use profile::{MAX_STACK_LEVEL, Purpose, Row};

/// The number of stack levels.
const LEVELS: usize = MAX_STACK_LEVEL as usize + 1;

/// For each stack level, an index among rows, of which there are fewer than 256. `NO_ROW` is the
/// index of no row.
// A table that one pass over the rows fills: searching all rows for each level took about half of a
// short request's sweep.
pub(crate) type RowIndexes = [u8; LEVELS];

/// An index past the last row.
const NO_ROW: u8 = u8::MAX;

/// Returns, for each stack level, the index of the row (installed profile) of a purpose that
/// applies to a connector (chapter 3.13). A row at the connector itself takes precedence over one
/// that applies to all.
pub(crate) fn candidate_row_indexes(rows: &[Row], purpose: Purpose, connector: u32) -> RowIndexes
    requires few { length rows.now ≤ 255 }
    ensures { AreCandidatePlaces purpose rows.now connector result }
{
    let own = own_connector(purpose, connector);
    let shared = shared_connector(purpose, connector);
    let mut places = first_row_indexes(rows, purpose, own);
    if shared != own {
        add_first_places(&mut places, rows, purpose, shared);
    }
    places
}

/// Returns, for each stack level, the index of the first row (installed profile) of a purpose at a
/// connector of a charge point.
fn first_row_indexes(rows: &[Row], purpose: Purpose, connector: u32) -> RowIndexes
    requires few { length rows.now ≤ 255 }
    ensures { AreFirstPlaces purpose rows.now connector result }
{
    let mut places = no_places();
    add_first_places(&mut places, rows, purpose, connector);
    places
}

/// Stores, for each stack level without an index, that of the first row (installed profile) of a
/// purpose at a connector of a charge point.
fn add_first_places(places: &mut RowIndexes, rows: &[Row], purpose: Purpose, connector: u32)
    requires few { length rows.now ≤ 255 }
    ensures { AreFirstAdded purpose rows.now connector rows.now places.old places.new }
{
    for place in 0..rows.len() {
        if is_row_at(purpose, connector, &rows[place]) {
            add_place(places, rows, place);
        }
    }
}

/// Stores the index of a charge point's row (installed profile) in the table of stack levels,
/// unless its level has one. The table leads from a level to the row that applies there.
fn add_place(places: &mut RowIndexes, rows: &[Row], place: usize)
    requires few { length rows.now ≤ 255 }
    requires inside { place < length rows.now }
    ensures { IsPlaceAdded rows.now place places.old places.new }
{
    let level = rows[place].profile.stack_level as usize;
    if rows.get(places[level] as usize).is_none() {
        set_place(places, level, place as u8);
    }
}

/// Returns the table that has, for each stack level, the index of an installed profile of a charge
/// point, with no profile at any level.
fn no_places() -> RowIndexes
    ensures { (level : ℕ) → level < 100 → slice_index result level ≡ 255 }
{
    [NO_ROW; LEVELS]
}

/// Stores the index of a charge point's row (installed profile) in the table that maps each stack
/// level to its row. The profiles in force are found in it.
fn set_place(places: &mut RowIndexes, level: usize, place: u8)
    requires level { level < 100 }
    ensures here { slice_index places.new level ≡ place }
    ensures others { (other : ℕ) → other ≢ level
        → slice_index places.new other ≡ slice_index places.old other }
{
    places[level] = place;
}

/// Whether a charge point's row (an installed charging profile) is of a purpose and at a connector,
/// to be found by its stack level.
fn is_row_at(purpose: Purpose, connector: u32, row: &Row) -> bool
    ensures { result ≡ is_row_at purpose connector row.now }
{
    is_purpose(purpose, row.profile.purpose) && row.connector == connector
}

/// Returns the row (installed profile) that applies to a connector at a stack level, from the table
/// that has its index for each level.
pub(crate) fn row_at<'a>(rows: &'a [Row], places: &RowIndexes, level: u32) -> Option<&'a Row>
    requires { level < 100 }
    ensures { option_copied result ≡ slice_get rows.now (slice_index places.now level) }
{
    rows.get(places[level as usize] as usize)
}

/// Returns the connector at which those charging profiles of a purpose are installed that apply to
/// this connector only. For the look-up by stack level.
fn own_connector(purpose: Purpose, connector: u32) -> u32
    ensures { result ≡ own_connector purpose connector }
{
    match purpose {
        Purpose::ChargePointMaxProfile => 0,
        Purpose::TxDefaultProfile | Purpose::TxProfile => connector,
    }
}

/// Returns the connector at which those charging profiles of a purpose are installed that apply to
/// this connector and to others. For the look-up by stack level.
fn shared_connector(purpose: Purpose, connector: u32) -> u32
    ensures { result ≡ shared_connector purpose connector }
{
    match purpose {
        Purpose::ChargePointMaxProfile | Purpose::TxDefaultProfile => 0,
        Purpose::TxProfile => connector,
    }
}

/// Returns the lowest stack level above those of all rows (installed profiles) of a charge point,
/// from which a look-up goes down: 0 if there are no rows.
pub(crate) fn level_above(rows: &[Row]) -> u32
    ensures above { All (λ row. row.profile.stack_level < result) rows.now }
    ensures level { result ≤ 100 }
{
    let mut above = 0;
    for row in rows {
        if row.profile.stack_level >= above {
            above = row.profile.stack_level + 1;
        }
    }
    above
}
