//! The entries of a list.
ghost use Rattle.std.specs.Prelude.{◌≡◌, ◌==◌, length, option_map, slice_get};
ghost use Rattle.std.specs.Iterator.{YieldsFirstBy, item_count};
ghost use Rattle.ocppj_frame.specs.Payload.{entries_in, entries_left, tree_at};

use super::{Entries, Node};

impl<'tree, 'memory> Entries<'tree, 'memory> {
    /// Returns the number of entries.
    pub fn len(self) -> usize
        ensures { result ≡ length (entries_in self.entry) }
    {
        self.values.len()
    }

    /// Returns whether there are no entries.
    pub fn is_empty(self) -> bool
        ensures { result ≡ (length (entries_in self.entry) == 0) }
    {
        self.values.is_empty()
    }

    /// Returns the entry at this index, from 0.
    #[tactic(auto, using(crate::proofs::TreeParts::entry_is_tree, crate::proofs::TreeParts::entry_tree, crate::proofs::TreeParts::entry_past))]
    pub fn get(self, index: usize) -> Option<Node<'tree, 'memory>>
        ensures { option_map tree_at result ≡ slice_get (entries_in self.entry) index }
    {
        let values = self.values;
        if index < values.len() {
            let value = &values[index];
            Some(Node { value })
        } else {
            None
        }
    }

    /// Returns an iterator over the entries, in order.
    pub fn iter(self) -> EntriesIter<'tree, 'memory>
        ensures { entries_left result ≡ entries_in self.entry }
    {
        EntriesIter { left: self }
    }
}

/// The remaining entries of a list, in order.
#[derive(Drop)]
pub struct EntriesIter<'tree, 'memory> {
    left: Entries<'tree, 'memory>,
}

impl<'tree, 'memory> Iterator for EntriesIter<'tree, 'memory> {
    type Item = Node<'tree, 'memory>;

    ghost next_gives = { YieldsFirstBy tree_at entries_left };

    ghost remaining = { item_count entries_left };

    fn next(&mut self) -> Option<Node<'tree, 'memory>> {
        let Some((value, others)) = self.left.values.split_first() else {
            return None;
        };
        self.left = Entries { values: others };
        Some(Node { value })
    }
}
