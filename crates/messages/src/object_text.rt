//! The texts of JSON objects, with the fields that are present.
ghost use Rattle.std.specs.Prelude.{map, option_map, string_bytes};
ghost use Rattle.std.specs.List.{filter_map};
ghost use Rattle.ocpp_scalars.specs.Appending.{Appends};
ghost use Rattle.messages.specs.ObjectText.{field_text, fields_text, object_text, present};
ghost use Rattle.messages.specs.ByCases.FieldValue.{value_text};
ghost use Rattle.messages.specs.ByCases.ObjectText.{later_fields_text, rest_text};

use crate::field_value::{FieldValue, push_string, push_value};
use std::alloc::AllocError;

/// Appends a JSON object to the text of a call to a charge point, with the fields that are present,
/// in this order.
#[tactic(auto, unfolding(crate::specs::ObjectText::object_text))]
pub(crate) fn push_object(
    out: &mut String,
    fields: &[(&str, Option<FieldValue>)],
) -> Result<(), AllocError>
    ensures { Appends result (string_bytes out.old) (string_bytes out.new)
        (object_text (map (λ row. (row.0.now, option_map value_text row.1)) fields.now)) }
{
    out.push_str("{")?;
    push_fields(out, fields)?;
    out.push_str("}")?;
    Ok(())
}

/// Appends the fields of a JSON object that are present to the text of a call to a charge point, in
/// this order, with commas between them.
#[tactic(auto, unfolding(crate::specs::ObjectText::fields_text))]
pub(crate) fn push_fields(
    out: &mut String,
    fields: &[(&str, Option<FieldValue>)],
) -> Result<(), AllocError>
    ensures { Appends result (string_bytes out.old) (string_bytes out.new)
        (fields_text (map (λ row. (row.0.now, option_map value_text row.1)) fields.now)) }
{
    push_rest(out, false, fields)
}

/// Appends further fields of a JSON object to the text of a call to a charge point: those that are
/// present, in this order, each after a comma.
#[tactic(auto, unfolding(crate::specs::ByCases::ObjectText::later_fields_text))]
pub(crate) fn push_later_fields(
    out: &mut String,
    fields: &[(&str, Option<FieldValue>)],
) -> Result<(), AllocError>
    ensures { Appends result (string_bytes out.old) (string_bytes out.new)
        (later_fields_text (map (λ row. (row.0.now, option_map value_text row.1)) fields.now)) }
{
    push_rest(out, true, fields)
}

/// Appends the fields of a JSON object that are present to the text of a call to a charge point,
/// with commas between them. Begins with a comma if earlier fields are written.
fn push_rest(
    out: &mut String,
    some_written: bool,
    fields: &[(&str, Option<FieldValue>)],
) -> Result<(), AllocError>
    ensures { Appends result (string_bytes out.old) (string_bytes out.new)
        (rest_text some_written
        (filter_map present (map (λ row. (row.0.now, option_map value_text row.1)) fields.now))) }
{
    let mut some_written = some_written;
    for (key, value) in fields {
        if let Some(value) = value {
            if some_written {
                out.push_str(",")?;
            }
            push_field(out, key, *value)?;
            some_written = true;
        }
    }
    Ok(())
}

/// Appends a field of a JSON object, its key and its value, to the text of a call to a charge
/// point.
fn push_field(out: &mut String, key: &str, value: FieldValue) -> Result<(), AllocError>
    ensures { Appends result (string_bytes out.old) (string_bytes out.new)
        (field_text key.now (value_text value)) }
{
    push_string(out, key)?;
    out.push_str(":")?;
    push_value(out, value)
}
