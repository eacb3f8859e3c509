//! Checks that a value read from a marked text is a tree.
ghost use Rattle.std.specs.Prelude.{◌≡◌, is_some};
ghost use Rattle.ocppj_frame.specs.Read.{fields_of, name_of_key, tree_of, tree_of_string, trees_of};
ghost use Rattle.ocppj_frame.specs.View.{items_view, members_view, view};

use crate::mark::after_mark;
use crate::marked_value::MarkedValue;
use bumpalo::Bump;
use ocpp_scalars::is_number_text;
use std::collections::BTreeMap;

/// Returns whether each string and key in a marked JSON text, such as an OCPP-J frame, has its
/// mark, and each number RFC 8259's grammar.
#[cycle(tree)]
pub(crate) fn is_tree(value: &MarkedValue<'_>) -> bool
    ensures { result ≡ is_some (tree_of (view value.now)) }
{
    match value {
        MarkedValue::Null | MarkedValue::False | MarkedValue::True => true,
        MarkedValue::String(text) => is_marked(text),
        MarkedValue::Array(values) => are_trees(values),
        MarkedValue::Object(members) => are_fields(members),
    }
}

/// Returns whether each item of an array in a marked JSON text, such as an OCPP-J frame, has its
/// marks and well-formed numbers.
#[cycle(tree)]
fn are_trees(values: &[MarkedValue<'_>]) -> bool
    ensures { result ≡ is_some (trees_of (items_view values.now)) }
{
    for item in values {
        if !is_tree(item) {
            return false;
        }
    }
    true
}

/// Returns whether each member of an object in a marked JSON text, such as an OCPP-J frame, has its
/// marks and well-formed numbers.
#[cycle(tree)]
fn are_fields(members: &BTreeMap<&str, MarkedValue<'_>, &Bump>) -> bool
    ensures { result ≡ is_some (fields_of (members_view members.now.entries)) }
{
    for (key, value) in members {
        if !is_key(key) || !is_tree(value) {
            return false;
        }
    }
    true
}

/// Returns whether a string of a marked JSON text, such as an OCPP-J frame, has the mark of a text,
/// or that of a well-formed number.
fn is_marked(text: &str) -> bool
    ensures { result ≡ is_some (tree_of_string text.now) }
{
    match after_mark(text, b's') {
        Some(_) => true,
        None => match after_mark(text, b'n') {
            Some(number) => is_number_text(number),
            None => false,
        },
    }
}

/// Returns whether a key of an object in a marked JSON text, such as an OCPP-J frame, has the mark
/// of a text.
fn is_key(key: &str) -> bool
    ensures { result ≡ is_some (name_of_key key.now) }
{
    after_mark(key, b's').is_some()
}
