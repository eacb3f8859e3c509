//! The rows that apply to a connector, the highest stack level first.

ghost use Rattle.std.specs.Prelude.{nat_le, IsTrue};
ghost use Rattle.std.specs.Iterator.{YieldsFirstRef, item_count};

use crate::levels::{RowIndexes, row_at};
use profile::Row;

/// An iterator over the rows of a purpose that apply to a connector (chapter 3.13), by strictly
/// falling stack level, each once.
#[derive(Drop)]
pub struct Candidates<'a> {
    pub(crate) rows: &'a [Row],
    /// For each stack level, the index of the row that applies to the connector.
    pub(crate) places: RowIndexes,
    /// The rows of this stack level and above have been yielded.
    pub(crate) below: u32,
    pub(crate) ghost inside: { IsTrue (nat_le below 100) },
}

impl<'a> Iterator for Candidates<'a> {
    ghost use Rattle.stacking.specs.ByCases.Candidates.{candidates_left};

    type Item = &'a Row;

    ghost next_gives = { YieldsFirstRef candidates_left };

    ghost remaining = { item_count candidates_left };

    #[tactic(auto, using(crate::proofs::PlaceLemmas::below_next, crate::proofs::PlaceLemmas::below_none))]
    fn next(&mut self) -> Option<&'a Row> {
        while self.below > 0 {
            self.below -= 1;
            let found = row_at(self.rows, &self.places, self.below);
            if found.is_some() {
                return found;
            }
        }
        None
    }
}
