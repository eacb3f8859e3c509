//! Readers of a node: its kind and its contents.
ghost use Rattle.std.specs.Prelude.{◌≡◌, option_map};
ghost use Rattle.ocppj_frame.specs.ByCases.Member.{is_key_of, member_named};
ghost use Rattle.ocppj_frame.specs.Payload.{entries_in, tree_at, tree_in};
ghost use Rattle.ocppj_frame.specs.Tree.{as_list, as_number, as_text, field_of, is_null, is_object};
ghost use Rattle.ocppj_frame.specs.View.{members_view, view};

use super::{Entries, Node, Payload};
use crate::mark::after_mark;
use crate::marked_value::MarkedValue;
use bumpalo::Bump;
use std::collections::BTreeMap;

impl<'memory> Payload<'memory> {
    /// Borrows the whole tree.
    pub fn root(&self) -> Node<'_, 'memory>
        ensures { tree_at result ≡ tree_in self.now }
    {
        Node { value: &self.value }
    }
}

impl<'tree, 'memory> Node<'tree, 'memory> {
    /// Returns whether the node is an object.
    pub fn is_object(self) -> bool
        ensures { result ≡ is_object (tree_at self.entry) }
    {
        matches!(self.value, MarkedValue::Object(_))
    }

    /// Returns whether the node is null.
    pub fn is_null(self) -> bool
        ensures { result ≡ is_null (tree_at self.entry) }
    {
        matches!(self.value, MarkedValue::Null)
    }

    /// Returns the text if the node is one.
    pub fn text(self) -> Option<&'memory str>
        ensures { option_map (λ t. t.now) result ≡ as_text (tree_at self.entry) }
    {
        if let MarkedValue::String(marked) = self.value {
            after_mark(marked, b's')
        } else {
            None
        }
    }

    /// Returns the number's text if the node is a number.
    pub fn number(self) -> Option<&'memory str>
        ensures { option_map (λ t. t.now) result ≡ as_number (tree_at self.entry) }
    {
        if let MarkedValue::String(marked) = self.value {
            after_mark(marked, b'n')
        } else {
            None
        }
    }

    /// Returns the entries if the node is a list.
    #[tactic(auto, using(crate::proofs::TreeParts::value_list))]
    pub fn list(self) -> Option<Entries<'tree, 'memory>>
        ensures { option_map entries_in result ≡ as_list (tree_at self.entry) }
    {
        if let MarkedValue::Array(values) = self.value {
            Some(Entries {
                values: values.as_slice(),
            })
        } else {
            None
        }
    }

    /// Returns the field of this name if the node is an object that has it.
    pub fn field(self, name: &str) -> Option<Node<'tree, 'memory>>
        ensures { option_map tree_at result ≡ field_of name.now (tree_at self.entry) }
    {
        let MarkedValue::Object(members) = self.value else {
            return None;
        };
        match find_member(members, name) {
            Some(value) => Some(Node { value }),
            None => None,
        }
    }
}

/// Returns the value of the field of this name in a JSON object that was read with marks, such as
/// the payload of an OCPP-J frame.
fn find_member<'tree, 'memory>(
    members: &'tree BTreeMap<&'memory str, MarkedValue<'memory>, &'memory Bump>,
    name: &str,
) -> Option<&'tree MarkedValue<'memory>>
    ensures { option_map (λ v. view v.now) result
        ≡ member_named name.now (members_view members.now.entries) }
{
    // The keys are marked and the name isn't: a look-up in the map would need to allocate a marked
    // name. Few fields are read of an object, and an object of OCPP has few members.
    for (key, value) in members {
        if is_key_of(name, key) {
            return Some(value);
        }
    }
    None
}

/// Returns whether this key with its mark, in a JSON object such as the payload of an OCPP-J frame,
/// is the name of a field.
fn is_key_of(name: &str, key: &str) -> bool
    ensures { result ≡ is_key_of name.now key.now }
{
    match after_mark(key, b's') {
        Some(other) => other == name,
        None => false,
    }
}
