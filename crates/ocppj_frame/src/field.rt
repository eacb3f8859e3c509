//! The fields of an object, each read as one kind of value.
ghost use Rattle.std.specs.Prelude.{◌≡◌, option_map, Result};
ghost use Rattle.ocppj_frame.specs.Field.{field_map, instant_field_of, list_field_of, object_field_of, present_field, tenths_field_of, text_field_of, value_or_fault, whole_field_of};
ghost use Rattle.ocppj_frame.specs.Payload.{entries_in, tree_at};

use crate::payload::{Entries, Node};
use ocpp_scalars::{Instant, read_instant, read_tenths, read_whole};

/// The value of an object's field, or the reason why there is none.
#[derive(Clone, Copy, PartialEq, Eq)]
pub enum Field<T> {
    /// The field is missing or null, or the node isn't an object.
    Absent,
    /// The field is a JSON value of another kind than the one to be read.
    WrongKind,
    /// The field has the right kind, but isn't a value in the accepted range or form.
    WrongValue,
    /// The field's value.
    Value(T),
}

/// Reads a field as a text. Never returns `WrongValue`.
pub fn text_field<'memory>(node: Node<'_, 'memory>, name: &str) -> Field<&'memory str>
    ensures { field_map (λ t. t.now) result ≡ text_field_of name.now (tree_at node.entry) }
{
    let Some(field) = present_field(node, name) else {
        return Field::Absent;
    };
    match field.text() {
        Some(text) => Field::Value(text),
        None => Field::WrongKind,
    }
}

/// Reads a field as a whole number from -2,147,483,648 to 2,147,483,647.
pub fn whole_field(node: Node<'_, '_>, name: &str) -> Field<i32>
    ensures { result ≡ whole_field_of name.now (tree_at node.entry) }
{
    let Some(field) = present_field(node, name) else {
        return Field::Absent;
    };
    match field.number() {
        Some(digits) => value_or_fault(read_whole(digits)),
        None => Field::WrongKind,
    }
}

/// Reads a field as a number of tenths from 0 to 1,000,000,000.
pub fn tenths_field(node: Node<'_, '_>, name: &str) -> Field<u32>
    ensures { result ≡ tenths_field_of name.now (tree_at node.entry) }
{
    let Some(field) = present_field(node, name) else {
        return Field::Absent;
    };
    match field.number() {
        Some(digits) => value_or_fault(read_tenths(digits)),
        None => Field::WrongKind,
    }
}

/// Reads a field as an instant, which is written as a text.
pub fn instant_field(node: Node<'_, '_>, name: &str) -> Field<Instant>
    ensures { result ≡ instant_field_of name.now (tree_at node.entry) }
{
    let Some(field) = present_field(node, name) else {
        return Field::Absent;
    };
    match field.text() {
        Some(text) => value_or_fault(read_instant(text)),
        None => Field::WrongKind,
    }
}

/// Reads a field as a list of entries. Never returns `WrongValue`.
pub fn list_field<'tree, 'memory>(
    node: Node<'tree, 'memory>,
    name: &str,
) -> Field<Entries<'tree, 'memory>>
    ensures { field_map entries_in result ≡ list_field_of name.now (tree_at node.entry) }
{
    let Some(field) = present_field(node, name) else {
        return Field::Absent;
    };
    match field.list() {
        Some(entries) => Field::Value(entries),
        None => Field::WrongKind,
    }
}

/// Reads a field as an object. Never returns `WrongValue`.
pub fn object_field<'tree, 'memory>(
    node: Node<'tree, 'memory>,
    name: &str,
) -> Field<Node<'tree, 'memory>>
    ensures { field_map tree_at result ≡ object_field_of name.now (tree_at node.entry) }
{
    let Some(field) = present_field(node, name) else {
        return Field::Absent;
    };
    if field.is_object() {
        Field::Value(field)
    } else {
        Field::WrongKind
    }
}

/// Returns the field of this name in a JSON object, such as the payload of an OCPP-J message, if it
/// is present and not null.
fn present_field<'tree, 'memory>(
    node: Node<'tree, 'memory>,
    name: &str,
) -> Option<Node<'tree, 'memory>>
    ensures { option_map tree_at result ≡ present_field name.now (tree_at node.entry) }
{
    match node.field(name) {
        Some(field) if !field.is_null() => Some(field),
        _ => None,
    }
}

/// Returns the field of a JSON object, such as an OCPP-J payload, with the number or instant that
/// was read. If reading failed, it is a wrong value.
fn value_or_fault<T, E: Drop>(read: Result<T, E>) -> Field<T>
    ensures { result ≡ value_or_fault read }
{
    match read {
        Ok(value) => Field::Value(value),
        Err(_) => Field::WrongValue,
    }
}
