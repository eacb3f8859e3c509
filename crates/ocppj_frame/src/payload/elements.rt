//! The elements of a list, moved out of it when a frame is read. Their texts stay borrowed.
ghost use Rattle.std.specs.Prelude.{◌≡◌, is_some, true};
ghost use Rattle.std.specs.Vec.Iter.{into_iter_items};
ghost use Rattle.ocppj_frame.specs.Read.{trees_of};
ghost use Rattle.ocppj_frame.specs.View.{items_view};

use super::Payload;
use crate::marked_value::MarkedValue;
use bumpalo::Bump;
use std::collections::BTreeMap;
use std::vec::IntoIter;

/// The remaining elements of a list, in order.
#[derive(Drop)]
pub(crate) struct Elements<'memory> {
    /// The arena of the list.
    arena: &'memory Bump,
    values: IntoIter<MarkedValue<'memory>, &'memory Bump>,
    ghost marked: { is_some (trees_of (items_view (into_iter_items values))) ≡ true },
}

impl<'memory> Elements<'memory> {
    ghost use Rattle.std.specs.Prelude.{◌≡◌, drop, option_and_then, option_map, slice_get};
    ghost use Rattle.ocppj_frame.specs.Payload.{elements_left, tree_in};
    ghost use Rattle.ocppj_frame.specs.Tree.{as_number, as_text};

    /// Returns the arena of the list that an OCPP-J frame is, in which an empty payload can be
    /// made.
    pub(crate) fn arena(&self) -> &'memory Bump {
        self.arena
    }

    /// Returns the next element of the list that an OCPP-J frame is, if there is one, and moves
    /// past it.
    pub(crate) fn next(&mut self) -> Option<Payload<'memory>>
        ensures element { option_map tree_in result ≡ slice_get (elements_left self.old) 0 }
        ensures left { elements_left self.new ≡ drop 1 (elements_left self.old) }
    {
        match self.values.next() {
            Some(value) => Some(Payload { value }),
            None => None,
        }
    }

    /// Returns the text in the next element of an OCPP-J message's list, if that is a text, and
    /// moves past the element.
    pub(crate) fn next_text(&mut self) -> Option<&'memory str>
        ensures text { option_map (λ t. t.now) result
            ≡ option_and_then as_text (slice_get (elements_left self.old) 0) }
        ensures left { elements_left self.new ≡ drop 1 (elements_left self.old) }
    {
        match self.next() {
            Some(element) => element.root().text(),
            None => None,
        }
    }

    /// Returns the number's text in the next element of an OCPP-J message's list, if that is a
    /// number, and moves past the element.
    pub(crate) fn next_number(&mut self) -> Option<&'memory str>
        ensures digits { option_map (λ ds. ds.now) result
            ≡ option_and_then as_number (slice_get (elements_left self.old) 0) }
        ensures left { elements_left self.new ≡ drop 1 (elements_left self.old) }
    {
        match self.next() {
            Some(element) => element.root().number(),
            None => None,
        }
    }
}

impl<'memory> Payload<'memory> {
    ghost use Rattle.std.specs.Prelude.{◌≡◌, option_map};
    ghost use Rattle.ocppj_frame.specs.Payload.{elements_left, tree_in};
    ghost use Rattle.ocppj_frame.specs.Tree.{as_list, no_fields, object};

    /// Returns the object without fields, the payload of an OCPP-J frame that has none. Allocates
    /// nothing.
    pub(crate) fn empty(arena: &'memory Bump) -> Payload<'memory>
        ensures { tree_in result ≡ object no_fields }
    {
        Payload {
            value: MarkedValue::Object(BTreeMap::new(arena)),
        }
    }

    /// Returns the elements of an OCPP-J frame, if its JSON tree is a list.
    pub(crate) fn into_elements(self) -> Option<Elements<'memory>>
        ensures { option_map elements_left result ≡ as_list (tree_in self.entry) }
    {
        let Payload { value } = self;
        match value {
            MarkedValue::Array(values) => Some(Elements {
                arena: *values.allocator(),
                values: values.into_iter(),
            }),
            _ => None,
        }
    }
}
