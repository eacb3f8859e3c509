//! The fields of an object. Each is read under its name, and then as required or optional, so that
//! the code that reads an action has the form of its table of fields.
ghost use Rattle.std.specs.Prelude.{◌≡◌, Ok, Err, MatchResult, option_map};
ghost use Rattle.ocppj_frame.specs.Field.{field_map};
ghost use Rattle.ocppj_frame.specs.Payload.{entries_in, tree_at};
ghost use Rattle.messages.specs.Fields.{required, optional, from_zero, one_of, value_or_wrong, whole, whole_from_zero, tenths, instant, one_name_of, text, list, object};

use crate::call_fault::CallFault;
use crate::field_name::FieldName;
use ocpp_scalars::Instant;
use ocppj_frame::{
    Entries, Field, Node, instant_field, list_field, object_field, tenths_field, text_field,
    whole_field,
};
use profile::Named;

/// The field of an object with this name.
#[derive(Drop)]
pub struct NamedField<T> {
    pub name: FieldName,
    pub field: Field<T>,
}

impl<T: Drop> NamedField<T> {
    /// Returns the value of a required field, or its fault.
    #[tactic(auto, unfolding(crate::specs::Fields::required))]
    pub fn required(self) -> Result<T, CallFault>
        ensures { result ≡ required self }
    {
        match self.field {
            Field::Absent => Err(CallFault::OccurenceConstraintViolation(self.name)),
            Field::WrongKind => Err(CallFault::TypeConstraintViolation(self.name)),
            Field::WrongValue => Err(CallFault::PropertyConstraintViolation(self.name)),
            Field::Value(value) => Ok(value),
        }
    }

    /// Returns the value of an optional field, or its fault.
    #[tactic(auto, unfolding(crate::specs::Fields::optional))]
    pub fn optional(self) -> Result<Option<T>, CallFault>
        ensures { result ≡ optional self }
    {
        match self.field {
            Field::Absent => Ok(None),
            Field::WrongKind => Err(CallFault::TypeConstraintViolation(self.name)),
            Field::WrongValue => Err(CallFault::PropertyConstraintViolation(self.name)),
            Field::Value(value) => Ok(Some(value)),
        }
    }
}

/// Reads a field as a whole number.
#[tactic(auto, unfolding(crate::specs::Fields::whole))]
pub fn whole(fields: Node<'_, '_>, name: FieldName) -> NamedField<i32>
    ensures { result ≡ whole (tree_at fields.entry) name }
{
    NamedField {
        name,
        field: whole_field(fields, name.text()),
    }
}

/// Reads a field as a whole number from 0.
#[tactic(auto, unfolding(crate::specs::Fields::whole_from_zero))]
pub fn whole_from_zero(fields: Node<'_, '_>, name: FieldName) -> NamedField<u32>
    ensures { result ≡ whole_from_zero (tree_at fields.entry) name }
{
    NamedField {
        name,
        field: from_zero(whole_field(fields, name.text())),
    }
}

/// Returns the field of a CALL's or a reply's payload, read as a whole number, as a number from 0;
/// a negative number is a wrong value.
fn from_zero(field: Field<i32>) -> Field<u32>
    ensures { result ≡ from_zero field }
{
    match field {
        Field::Absent => Field::Absent,
        Field::WrongKind => Field::WrongKind,
        Field::Value(value) if value >= 0 => Field::Value(value as u32),
        Field::WrongValue | Field::Value(_) => Field::WrongValue,
    }
}

/// Reads a field as tenths of A or W.
#[tactic(auto, unfolding(crate::specs::Fields::tenths))]
pub fn tenths(fields: Node<'_, '_>, name: FieldName) -> NamedField<u32>
    ensures { result ≡ tenths (tree_at fields.entry) name }
{
    NamedField {
        name,
        field: tenths_field(fields, name.text()),
    }
}

/// Reads a field as an instant.
#[tactic(auto, unfolding(crate::specs::Fields::instant))]
pub fn instant(fields: Node<'_, '_>, name: FieldName) -> NamedField<Instant>
    ensures { result ≡ instant (tree_at fields.entry) name }
{
    NamedField {
        name,
        field: instant_field(fields, name.text()),
    }
}

/// Reads a field as one of the named values of `T`.
#[tactic(auto, unfolding(crate::specs::Fields::one_name_of))]
pub fn one_name_of<T: Named + Drop>(fields: Node<'_, '_>, name: FieldName) -> NamedField<T>
    ensures { result ≡ one_name_of T.named (tree_at fields.entry) name }
{
    NamedField {
        name,
        field: one_of(text_field(fields, name.text())),
    }
}

/// Returns the field of a CALL's or a reply's payload as one of the named values of `T`, such as a
/// purpose; another text is a wrong value.
fn one_of<T: Named + Drop>(field: Field<&str>) -> Field<T>
    ensures { result ≡ one_of T.named (field_map (λ text. text.now) field.entry) }
{
    match field {
        Field::Absent => Field::Absent,
        Field::WrongKind => Field::WrongKind,
        Field::WrongValue => Field::WrongValue,
        Field::Value(text) => value_or_wrong(T::named(text)),
    }
}

/// Returns the field of a CALL's or a reply's payload with this named value, or as a wrong value if
/// the field's text names none.
fn value_or_wrong<T: Drop>(value: Option<T>) -> Field<T>
    ensures { result ≡ value_or_wrong value }
{
    match value {
        None => Field::WrongValue,
        Some(value) => Field::Value(value),
    }
}

/// Reads a required field as an object.
#[tactic(auto, unfolding(crate::specs::Fields::required, crate::specs::Fields::object))]
pub fn required_object<'tree, 'memory>(
    fields: Node<'tree, 'memory>,
    name: FieldName,
) -> Result<Node<'tree, 'memory>, CallFault>
    ensures { MatchResult result
        (λ node. required (object (tree_at fields.entry) name) ≡ Ok (tree_at node))
        (λ fault. required (object (tree_at fields.entry) name) ≡ Err fault) }
{
    NamedField {
        name,
        field: object_field(fields, name.text()),
    }
    .required()
}

/// Reads an optional field as an object.
#[tactic(auto, unfolding(crate::specs::Fields::optional, crate::specs::Fields::object))]
pub fn optional_object<'tree, 'memory>(
    fields: Node<'tree, 'memory>,
    name: FieldName,
) -> Result<Option<Node<'tree, 'memory>>, CallFault>
    ensures { MatchResult result
        (λ node. optional (object (tree_at fields.entry) name) ≡ Ok (option_map tree_at node))
        (λ fault. optional (object (tree_at fields.entry) name) ≡ Err fault) }
{
    NamedField {
        name,
        field: object_field(fields, name.text()),
    }
    .optional()
}

/// Reads a required field as a text.
#[tactic(auto, unfolding(crate::specs::Fields::required, crate::specs::Fields::text))]
pub fn required_text<'memory>(
    fields: Node<'_, 'memory>,
    name: FieldName,
) -> Result<&'memory str, CallFault>
    ensures { MatchResult result
        (λ found. required (text (tree_at fields.entry) name) ≡ Ok found.now)
        (λ fault. required (text (tree_at fields.entry) name) ≡ Err fault) }
{
    NamedField {
        name,
        field: text_field(fields, name.text()),
    }
    .required()
}

/// Reads a required field as a list of entries.
#[tactic(auto, unfolding(crate::specs::Fields::required, crate::specs::Fields::list))]
pub fn required_list<'tree, 'memory>(
    fields: Node<'tree, 'memory>,
    name: FieldName,
) -> Result<Entries<'tree, 'memory>, CallFault>
    ensures { MatchResult result
        (λ items. required (list (tree_at fields.entry) name) ≡ Ok (entries_in items))
        (λ fault. required (list (tree_at fields.entry) name) ≡ Err fault) }
{
    NamedField {
        name,
        field: list_field(fields, name.text()),
    }
    .required()
}
