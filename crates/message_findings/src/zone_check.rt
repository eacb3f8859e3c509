//! Finds instants without a zone in an operator's payload, which count as UTC.

use crate::payload_objects::{MAX_DEPTH, PayloadObject};
use crate::report::Report;
use messages::{ActionKind, FieldKind, FieldRow, Side, fields_of};
use ocppj_frame::{Field, Node, text_field};

/// Adds, for `check` of a script or `call`, a remark on each instant without a zone in an
/// operator's payload, which counts as UTC. A point's payload has no remarks.
// A local time that counts as UTC shifts a schedule by hours. RFC 3339 requires an offset.
pub(crate) fn remark_unzoned(report: &mut Report, kind: ActionKind, payload: Node<'_, '_>) {
    if !kind.side().is_same(Side::Operator) {
        return;
    }
    let mut object = PayloadObject {
        fields: fields_of(kind),
        node: payload,
    };
    for _ in 0..=MAX_DEPTH {
        remark_fields(report, object);
        match object.inner() {
            Some((_, inner)) => object = inner,
            None => break,
        }
    }
}

/// Adds, for `check` of a script or `call`, a remark on each instant without a zone in one object
/// of an operator's payload.
fn remark_fields(report: &mut Report, object: PayloadObject<'_, '_>) {
    for row in object.fields {
        if row.kind() == FieldKind::Time {
            remark_field(report, object, *row);
        }
    }
}

/// Adds, for `check` of a script or `call`, a remark if the instant in this field of an operator's
/// payload has no zone. It then counts as UTC.
fn remark_field(report: &mut Report, object: PayloadObject<'_, '_>, row: FieldRow) {
    let name = row.name().text();
    match text_field(object.node, name) {
        Field::Value(text) if !has_zone(text) => {
            report.remark(format!(in report.alloc; "{name} has no zone and counts as UTC"));
        }
        _ => {}
    }
}

/// Returns, for `check` of a script or `call`, whether an instant in an operator's payload has `Z`
/// or an offset after its `T`. Without a `T`, returns true.
// A date has hyphens too, so only the part after the `T` is searched.
fn has_zone(text: &str) -> bool {
    match text.split_once(['T', 't']) {
        Some((_, time)) => time.contains(['Z', 'z', '+', '-']),
        None => true,
    }
}
