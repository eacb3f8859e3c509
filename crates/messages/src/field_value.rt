//! The values of a call's fields that are neither objects nor lists.
ghost use Rattle.std.specs.Prelude.{◌≡◌, option_map, string_bytes};
ghost use Rattle.std.specs.Fmt.{decimal, signed_decimal};
ghost use Rattle.ocpp_scalars.specs.Appending.{Appends};
ghost use Rattle.ocpp_scalars.specs.Writing.{tenths_text};
ghost use Rattle.messages.specs.Names.{purpose_name, recurrency_name, recurrency_of};
ghost use Rattle.messages.specs.ObjectText.{string_text, time_text};
ghost use Rattle.messages.specs.ByCases.FieldValue.{value_text};

use crate::names::{kind_name, name_of_recurrency, purpose_name, unit_name};
use ocpp_scalars::{Instant, push_instant, push_integer, push_tenths};
use profile::{Kind, Purpose, Recurrency, Unit};
use std::alloc::AllocError;

/// A field's value that is neither an object nor a list.
#[derive(Clone, Copy)]
pub(crate) enum FieldValue {
    Whole(u32),
    Signed(i32),
    Tenths(u32),
    Time(Instant),
    PurposeName(Purpose),
    KindName(Kind),
    RecurrencyName(Recurrency),
    UnitName(Unit),
}

/// Returns a whole number as the value of a field in the JSON text of a call to a charge point, if
/// the field is present.
pub(crate) fn whole(number: Option<u32>) -> Option<FieldValue>
    ensures { option_map value_text result ≡ option_map decimal number }
{
    number.map(FieldValue::Whole)
}

/// Returns a signed number, such as a transactionId, as the value of a field in a call to a charge
/// point, if the field is present.
pub(crate) fn signed(number: Option<i32>) -> Option<FieldValue>
    ensures { option_map value_text result ≡ option_map signed_decimal number }
{
    number.map(FieldValue::Signed)
}

/// Returns tenths of A or W as the value of a field in the text of a call to a charge point, if the
/// field is present.
pub(crate) fn tenths(tenths: Option<u32>) -> Option<FieldValue>
    ensures { option_map value_text result ≡ option_map tenths_text tenths }
{
    tenths.map(FieldValue::Tenths)
}

/// Returns an instant as the value of a field in the JSON text of a call to a charge point, if the
/// field is present.
pub(crate) fn time(instant: Option<Instant>) -> Option<FieldValue>
    ensures { option_map value_text result ≡ option_map time_text instant }
{
    instant.map(FieldValue::Time)
}

/// Returns a chargingProfilePurpose as the value of a field in the JSON text of a call to a charge
/// point, if the field is present.
pub(crate) fn purpose(purpose: Option<Purpose>) -> Option<FieldValue>
    ensures { option_map value_text result
        ≡ option_map (λ p. string_text (purpose_name p)) purpose }
{
    purpose.map(FieldValue::PurposeName)
}

/// Returns the recurrencyKind of a profile's kind as the value of a field in the JSON text of a
/// call to a charge point; only a Recurring one has it.
pub(crate) fn recurrency(kind: Kind) -> Option<FieldValue>
    ensures { option_map value_text result
        ≡ option_map (λ r. string_text (recurrency_name r)) (recurrency_of kind) }
{
    match kind {
        Kind::Recurring(recurrency) => Some(FieldValue::RecurrencyName(recurrency)),
        Kind::Absolute | Kind::Relative => None,
    }
}

/// Appends the value of a field to the JSON text of a call that the central system sends to a
/// charge point.
pub(crate) fn push_value(out: &mut String, value: FieldValue) -> Result<(), AllocError>
    ensures { Appends result (string_bytes out.old) (string_bytes out.new) (value_text value) }
{
    match value {
        FieldValue::Whole(number) => push_integer(out, number),
        FieldValue::Signed(number) => push_integer(out, number),
        FieldValue::Tenths(tenths) => push_tenths(out, tenths),
        FieldValue::Time(instant) => push_time(out, instant),
        FieldValue::PurposeName(purpose) => push_string(out, purpose_name(purpose)),
        FieldValue::KindName(kind) => push_string(out, kind_name(kind)),
        FieldValue::RecurrencyName(recurrency) => push_string(out, name_of_recurrency(recurrency)),
        FieldValue::UnitName(unit) => push_string(out, unit_name(unit)),
    }
}

/// Appends an instant as a JSON string, as the value of a field in the text of a call to a charge
/// point.
fn push_time(out: &mut String, instant: Instant) -> Result<(), AllocError>
    ensures { Appends result (string_bytes out.old) (string_bytes out.new) (time_text instant) }
{
    out.push_str(r#"""#)?;
    push_instant(out, instant)?;
    out.push_str(r#"""#)?;
    Ok(())
}

/// Appends a key or a name as a JSON string to the text of a call to a charge point. It has no
/// character to escape.
pub(crate) fn push_string(out: &mut String, text: &str) -> Result<(), AllocError>
    ensures { Appends result (string_bytes out.old) (string_bytes out.new) (string_text text.now) }
{
    out.push_str(r#"""#)?;
    out.push_str(text)?;
    out.push_str(r#"""#)?;
    Ok(())
}
