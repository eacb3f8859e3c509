//! Describes the field at fault of a CALL: its path, the value found there and the value wanted.

use crate::payload_objects::{MAX_DEPTH, PayloadList, PayloadObject, row_named};
use findings::{KnownField, LIMIT, glance_at};
use messages::{ActionKind, CallFault, FieldKind, FieldName, FieldRow, fields_of};
use ocppj_frame::{Field, Node, tenths_field, whole_field};
use std::alloc::{AllocError, Global};

/// An object of a payload, and the path to it.
#[derive(Drop)]
struct ObjectPlace<'node, 'memory> {
    path: String,
    object: PayloadObject<'node, 'memory>,
}

/// Describes, for a fault of `check` in a script or of `call`, the CALLERROR that a CALL gets. Adds
/// the field, the value found there and the value wanted.
pub(crate) fn field_fault_message(
    alloc: Global,
    payload: Node<'_, '_>,
    kind: ActionKind,
    fault: CallFault,
) -> Result<String, AllocError> {
    let code = fault.code();
    let Some(field) = field_of(fault) else {
        return String::from_str(alloc, code);
    };
    let name = field.text();
    let payload = PayloadObject {
        fields: fields_of(kind),
        node: payload,
    };
    let ObjectPlace { path, object } = place_of_field(alloc, payload, name)?;
    let Some(row) = row_named(object.fields, name) else {
        return format!(in alloc; "{code}: {name}");
    };
    let wanted = wanted_of(row);
    let value = object.node.field(name).map(glance_at);
    let hint = None;
    let field = KnownField {
        name,
        wanted,
        value,
        hint,
    };
    format!(in alloc; "{code}: {path}{field}")
}

/// Returns the field of the payload that the fault of a CALL names, if any, for `check` of a script
/// or `call`.
fn field_of(fault: CallFault) -> Option<FieldName> {
    match fault {
        CallFault::OccurenceConstraintViolation(field)
        | CallFault::TypeConstraintViolation(field)
        | CallFault::PropertyConstraintViolation(field) => Some(field),
        CallFault::FormationViolation | CallFault::NotImplemented | CallFault::Refused(_) => None,
    }
}

/// Finds, for `check` of a script or `call`, the outermost object of a CALL's payload whose table
/// has a field of this name. Returns the path to it too. If an object on the path is absent,
/// returns the last one that is present.
// A fault names its field without a path, so the payload is searched for it.
fn place_of_field<'node, 'memory>(
    alloc: Global,
    payload: PayloadObject<'node, 'memory>,
    name: &str,
) -> Result<ObjectPlace<'node, 'memory>, AllocError> {
    let mut place = ObjectPlace {
        path: String::new(alloc),
        object: payload,
    };
    for _ in 0..MAX_DEPTH {
        if row_named(place.object.fields, name).is_some() {
            break;
        }
        if let Some((field, object)) = place.object.inner() {
            let field = field.text();
            write!(place.path, "{field}.")?;
            place.object = object;
        } else if let Some((list, index, object)) = first_bad(place.object, name) {
            let field = list.name.text();
            write!(place.path, "{field}[{index}].")?;
            place.object = object;
        } else {
            break;
        }
    }
    Ok(place)
}

/// Finds, for `check` of a script or `call`, the first object with this field at fault in a list of
/// a CALL's payload. Returns the list, the index and the object.
fn first_bad<'node, 'memory>(
    object: PayloadObject<'node, 'memory>,
    name: &str,
) -> Option<
    (
        PayloadList<'node, 'memory>,
        usize,
        PayloadObject<'node, 'memory>,
    ),
> {
    let list = object.list()?;
    let row = row_named(list.fields, name)?;
    let mut index: usize = 0;
    for entry in list.entries.iter() {
        if !is_right(entry, row) {
            let object = PayloadObject {
                fields: list.fields,
                node: entry,
            };
            return Some((list, index, object));
        }
        index = index.saturating_add(1);
    }
    None
}

/// Returns, for `check` of a script or `call`, whether a field of an object in a list of a CALL's
/// payload is valid. The objects of lists have only whole numbers and limits.
fn is_right(object: Node<'_, '_>, row: FieldRow) -> bool {
    let name = row.name().text();
    match row.kind() {
        FieldKind::WholeFromZero => match whole_field(object, name) {
            Field::Value(number) => number >= 0,
            Field::Absent => may_be_absent(row),
            Field::WrongKind | Field::WrongValue => false,
        },
        FieldKind::Tenths => match tenths_field(object, name) {
            Field::Value(_) => true,
            Field::Absent => may_be_absent(row),
            Field::WrongKind | Field::WrongValue => false,
        },
        _ => true,
    }
}

/// Returns whether a field of a CALL's payload is optional, so that its absence is no fault for
/// `check` of a script or `call`.
fn may_be_absent(row: FieldRow) -> bool {
    matches!(row, FieldRow::Optional(_, _))
}

/// Describes, for `check` of a script or `call`, the value wanted at a field of a CALL, by its name
/// or its kind.
fn wanted_of(row: FieldRow) -> &'static str {
    match row.name() {
        FieldName::StackLevel => "a whole number from 0 to 99",
        FieldName::Duration | FieldName::StartPeriod => "a whole number of seconds from 0 on",
        _ => wanted_of_kind(row.kind()),
    }
}

/// Describes, for a fault of `check` in a script or of `call`, the value wanted at a field of this
/// kind in a CALL's payload.
fn wanted_of_kind(kind: FieldKind) -> &'static str {
    match kind {
        FieldKind::Whole => "a whole number from -2147483648 to 2147483647",
        FieldKind::WholeFromZero => "a whole number from 0 on",
        FieldKind::Tenths => LIMIT,
        FieldKind::Time => "an instant such as \"2025-01-31T18:00:00Z\"",
        FieldKind::IdToken => "a string of at most 20 characters",
        FieldKind::PurposeName => {
            "\"ChargePointMaxProfile\", \"TxDefaultProfile\" or \"TxProfile\""
        }
        FieldKind::KindName => "\"Absolute\", \"Recurring\" or \"Relative\"",
        FieldKind::RecurrencyName => "\"Daily\" or \"Weekly\"",
        FieldKind::UnitName => "\"A\" or \"W\"",
        FieldKind::Object(_) => "an object",
        FieldKind::Objects(_) => "a list of 1 to 200 objects",
    }
}
