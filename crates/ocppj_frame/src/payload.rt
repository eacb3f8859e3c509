//! A JSON tree and its nodes.
ghost use Rattle.std.specs.Prelude.{◌≡◌, is_some, true};
ghost use Rattle.ocppj_frame.specs.Read.{tree_of, trees_of};
ghost use Rattle.ocppj_frame.specs.View.{items_view, view};

mod elements;
mod list;
mod read;
mod readers;

use crate::marked_value::MarkedValue;
pub(crate) use elements::Elements;
pub use list::EntriesIter;
pub use read::read_tree;

/// A JSON tree (RFC 8259) whose numbers keep their text, in the memory that it was read into.
#[derive(Drop)]
pub struct Payload<'memory> {
    value: MarkedValue<'memory>,
    ghost marked: { is_some (tree_of (view value)) ≡ true },
}

/// A node of a tree, with everything below it. It borrows the tree. Its texts live as long as the
/// memory that they were read into (`'memory`).
#[derive(Clone, Copy)]
pub struct Node<'tree, 'memory> {
    value: &'tree MarkedValue<'memory>,
    ghost marked: { is_some (tree_of (view value.now)) ≡ true },
}

/// The entries of a list in a tree, borrowed.
#[derive(Clone, Copy)]
pub struct Entries<'tree, 'memory> {
    values: &'tree [MarkedValue<'memory>],
    ghost marked: { is_some (trees_of (items_view values.now)) ≡ true },
}
