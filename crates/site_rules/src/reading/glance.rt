//! Reads a value and skips its contents, whatever they are. Allocates nothing.

ghost use Rattle.std.specs.Prelude.{◌≡◌, ◌<◌, ◌≤◌, ◌∷◌, Some, IfOk, OnOk, length, unwrap_or};
ghost use Rattle.json.specs.Reads.{token_of};
ghost use Rattle.serde_json.specs.Data.{no_members};
ghost use Rattle.ocpp_scalars.specs.ByCases.Number.{tenths_of};
ghost use Rattle.ocppj_frame.specs.Field.{field_map, of_kind, of_scalar, unless_null};
ghost use Rattle.ocppj_frame.specs.Read.{tree_of_string};
ghost use Rattle.ocppj_frame.specs.Tree.{as_number, as_text, null, Trees, Fields};
ghost use Rattle.site_rules.specs.ByCases.Parts.{IsGlanceAt, glance_tree, trees_at, fields_at};

use super::part_fault::PartFault;
use json::{Reader, Token};
use ocpp_scalars::{is_number_text, read_tenths};
use ocppj_frame::{Field, after_mark};

/// A value without the contents of a list or an object.
#[derive(Clone, Copy)]
pub(crate) enum Glance<'a> {
    Null,
    Bool,
    Text(&'a str),
    Number(&'a str),
    List,
    Object,
}

/// Reads the next value of a site file, and skips the contents of a list or an object.
#[cycle(glance)]
pub(crate) fn read_glance<'a>(
    reader: &mut Reader<'a>,
    depth: usize,
) -> Result<Glance<'a>, PartFault>
    ensures glance { IfOk result (λ glance. IsGlanceAt depth reader.old reader.new glance) }
    ensures shorter { OnOk result (length reader.new < length reader.old) }
{
    let token = reader.next().ok_or(PartFault::Unsure)?;
    glance_from(token, reader, depth)
}

/// Reads the rest of the value of a site file that begins with this token, and skips the contents
/// of a list or an object.
#[cycle(glance)]
pub(crate) fn glance_from<'a>(
    token: Token<'a>,
    reader: &mut Reader<'a>,
    depth: usize,
) -> Result<Glance<'a>, PartFault>
    ensures glance { IfOk result
        (λ glance. IsGlanceAt depth (token_of token.entry ∷ reader.old) reader.new glance) }
    ensures shorter { OnOk result (length reader.new ≤ length reader.old) }
{
    match token {
        Token::String(marked) => Ok(glance_of_string(marked)),
        Token::Bool(_) => Ok(Glance::Bool),
        Token::Null => Ok(Glance::Null),
        Token::BeginArray => {
            if depth == 0 {
                return Err(PartFault::Unsure);
            }
            pass_items(reader, depth - 1)?;
            Ok(Glance::List)
        }
        Token::BeginObject => {
            if depth == 0 {
                return Err(PartFault::Unsure);
            }
            pass_members(reader, depth - 1)?;
            Ok(Glance::Object)
        }
        Token::EndObject | Token::EndArray | Token::Key(_) | Token::Number(_) | Token::Bad => {
            Err(PartFault::Unsure)
        }
    }
}

/// Skips the items of a list in a site file.
#[cycle(glance)]
fn pass_items(reader: &mut Reader<'_>, depth: usize) -> Result<(), PartFault>
    ensures items { OnOk result ((list : Trees)
        × (trees_at depth (length reader.old) reader.old ≡ Some (list, reader.new))) }
    ensures shorter { OnOk result (length reader.new < length reader.old) }
{
    'items: while !reader.take_end_array() {
        read_glance(reader, depth)?;
    }
    Ok(())
}

/// Skips the members of an object in a site file.
#[cycle(glance)]
fn pass_members(reader: &mut Reader<'_>, depth: usize) -> Result<(), PartFault>
    ensures members { OnOk result ((fields : Fields)
        × (fields_at depth (length reader.old) no_members reader.old ≡ Some (fields, reader.new))) }
    ensures shorter { OnOk result (length reader.new < length reader.old) }
{
    'members: while let Some(_) = reader.next_key()? {
        read_glance(reader, depth)?;
    }
    Ok(())
}

/// Returns the text or the number that a marked string of a site file represents, or null for a
/// malformed number.
fn glance_of_string(marked: &str) -> Glance<'_>
    ensures { glance_tree result ≡ unwrap_or (tree_of_string marked.now) null }
{
    if let Some(text) = after_mark(marked, b's') {
        return Glance::Text(text);
    }
    match after_mark(marked, b'n') {
        Some(number) if is_number_text(number) => Glance::Number(number),
        // `has_tree` refuses a file with such a number, unless a later value replaces it.
        _ => Glance::Null,
    }
}

/// Reads a field of a site file that has this value as a text.
pub(crate) fn text_in(glance: Glance<'_>) -> Field<&str>
    ensures { field_map (λ t. t.now) result
        ≡ of_kind as_text (unless_null (glance_tree glance.entry)) }
{
    match glance {
        Glance::Null => Field::Absent,
        Glance::Text(text) => Field::Value(text),
        _ => Field::WrongKind,
    }
}

/// Reads a field of a site file that has this value, such as a ceiling, as a number of tenths.
pub(crate) fn tenths_in(glance: Glance<'_>) -> Field<u32>
    ensures { result ≡ of_scalar as_number tenths_of (unless_null (glance_tree glance.entry)) }
{
    match glance {
        Glance::Null => Field::Absent,
        Glance::Number(digits) => match read_tenths(digits) {
            Ok(tenths) => Field::Value(tenths),
            Err(_) => Field::WrongValue,
        },
        _ => Field::WrongKind,
    }
}
