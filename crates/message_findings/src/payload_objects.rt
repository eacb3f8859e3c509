//! The objects of a payload, each with the table of its fields.

use messages::{FieldKind, FieldName, FieldRow, fields_in};
use ocppj_frame::{Entries, Field, Node, list_field, object_field};
use std::alloc::{AllocError, Global};

/// The maximum nesting depth of objects in a payload: a profile, its schedule and a period.
pub(crate) const MAX_DEPTH: usize = 3;

/// A payload, or an object in it.
#[derive(Clone, Copy)]
pub(crate) struct PayloadObject<'node, 'memory> {
    /// Its known fields.
    pub fields: &'static [FieldRow],
    pub node: Node<'node, 'memory>,
}

/// A list of objects in a payload.
#[derive(Clone, Copy)]
pub(crate) struct PayloadList<'node, 'memory> {
    /// The field that holds it.
    pub name: FieldName,
    /// The known fields of each of its objects.
    pub fields: &'static [FieldRow],
    pub entries: Entries<'node, 'memory>,
}

impl<'node, 'memory> PayloadObject<'node, 'memory> {
    /// Returns, for `check` of a script or `call`, the object in this object of a CALL's payload,
    /// such as a profile's schedule. Also returns its field. No object has two such fields.
    pub(crate) fn inner(self) -> Option<(FieldName, PayloadObject<'node, 'memory>)> {
        for row in self.fields {
            if let FieldKind::Object(kind) = row.kind() {
                if let Field::Value(node) = object_field(self.node, row.name().text()) {
                    let fields = fields_in(kind);
                    return Some((row.name(), PayloadObject { fields, node }));
                }
            }
        }
        None
    }

    /// Returns, for `check` of a script or `call`, the list of objects in this object of a CALL's
    /// payload, such as a schedule's periods. No object has two such fields.
    pub(crate) fn list(self) -> Option<PayloadList<'node, 'memory>> {
        for row in self.fields {
            if let FieldKind::Objects(kind) = row.kind() {
                if let Field::Value(entries) = list_field(self.node, row.name().text()) {
                    return Some(PayloadList {
                        name: row.name(),
                        fields: fields_in(kind),
                        entries,
                    });
                }
            }
        }
        None
    }
}

/// Looks up a field by its name in the table of an object of a CALL's payload, for `check` of a
/// script or `call`.
pub(crate) fn row_named(fields: &[FieldRow], name: &str) -> Option<FieldRow> {
    for row in fields {
        if row.name().text() == name {
            return Some(*row);
        }
    }
    None
}

/// Returns the names in a table of the fields of a CALL's payload, in their order. `check` of a
/// script or `call` compares a misspelled name with them.
pub(crate) fn names_of(
    alloc: Global,
    fields: &[FieldRow],
) -> Result<Vec<&'static str>, AllocError> {
    let mut names = Vec::with_capacity(alloc, fields.len())?;
    for row in fields {
        names.push(row.name().text())?;
    }
    Ok(names)
}
