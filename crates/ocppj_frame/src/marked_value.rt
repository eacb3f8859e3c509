//! The JSON value of a marked text.
ghost use Rattle.std.specs.Prelude.{◌≡◌, ◌≢◌, ◌<◌, ◌∷◌, ◌++◌, [], IfOk, OnOk, Some, None, Err, length};
ghost use Rattle.json.specs.Json.{items, members, parse_map, value};
ghost use Rattle.json.specs.Lex.{tokens};
ghost use Rattle.json.specs.Reads.{token_of};
ghost use Rattle.serde_json.specs.Data.{array, no_members, object, put};
ghost use Rattle.serde_json.specs.Read.{converted, of_items, of_json, of_members, read};
ghost use Rattle.ocppj_frame.specs.View.{items_view, members_view, view};
ghost use Rattle.ocppj_frame.specs.ByCases.Tokens.{HaveNoNumber, scalar_of};

use crate::read_fault::ReadFault;
use bumpalo::Bump;
use json::{Reader, Scratch, Token};
use std::collections::BTreeMap;

/// The maximum depth of nested arrays and objects: that of `serde_json`, by its definition.
const MAX_DEPTH: usize = 127;

/// The value of a marked text, as `serde_json` defines it, but with its strings borrowed. It has no
/// numbers, since a marked text has none.
// With `Bool(bool)` in place of `False` and `True` a value would have a byte next to its tag, and
// be moved in two overlapping pieces, for which the processor waits.
#[derive(Drop)]
pub(crate) enum MarkedValue<'a> {
    Null,
    False,
    True,
    String(&'a str),
    Array(Vec<MarkedValue<'a>, &'a Bump>),
    Object(BTreeMap<&'a str, MarkedValue<'a>, &'a Bump>),
}

/// Reads a JSON text, such as an OCPP-J message, whose strings and numbers are marked. Returns
/// `NotJson` if `serde_json` refuses it. A string without escapes is borrowed from the text, one
/// with escapes from `scratch`. Arrays and objects are in `arena`.
pub(crate) fn read_marked<'a>(
    arena: &'a Bump,
    text: &'a str,
    scratch: &'a mut Scratch,
) -> Result<MarkedValue<'a>, ReadFault>
    requires { HaveNoNumber (tokens text.now) }
    ensures value { IfOk result (λ value. read text.now ≡ Some (view value)) }
    ensures refused { result ≡ Err ReadFault.NotJson → read text.now ≡ None }
{
    let mut reader = Reader::new(text, scratch)?;
    let value = read_value(arena, &mut reader, MAX_DEPTH)?;
    if reader.next().is_some() {
        return Err(ReadFault::NotJson);
    }
    Ok(value)
}

/// Reads the next value of a JSON text, such as an OCPP-J frame, whose strings and numbers have
/// marks, with at most `depth` nested arrays and objects.
#[cycle(read)]
fn read_value<'a>(
    arena: &'a Bump,
    reader: &mut Reader<'a>,
    depth: usize,
) -> Result<MarkedValue<'a>, ReadFault>
    requires { HaveNoNumber reader.old }
    ensures value { IfOk result
        (λ found. converted of_json (value depth reader.old) ≡ Some (view found, reader.new)) }
    ensures shorter { OnOk result (length reader.new < length reader.old) }
    ensures no_numbers { OnOk result (HaveNoNumber reader.new) }
    ensures refused { result ≡ Err ReadFault.NotJson
        → converted of_json (value depth reader.old) ≡ None }
{
    let Some(token) = reader.next() else {
        return Err(ReadFault::NotJson);
    };
    // Where no level is left, an array or an object is refused as any other token that isn't a
    // scalar.
    if depth == 0 {
        return scalar(token);
    }
    match token {
        Token::BeginArray => read_array(arena, reader, depth - 1),
        Token::BeginObject => read_object(arena, reader, depth - 1),
        token => scalar(token),
    }
}

/// Returns the value that a single token of a marked text, such as an OCPP-J message, is. A marked
/// text has no number, and a number is refused.
fn scalar(token: Token<'_>) -> Result<MarkedValue<'_>, ReadFault>
    ensures value { IfOk result (λ found. scalar_of (token_of token.entry) ≡ Some (view found)) }
    ensures refused { result ≡ Err ReadFault.NotJson → scalar_of (token_of token.entry) ≡ None }
{
    match token {
        Token::String(text) => Ok(MarkedValue::String(text)),
        Token::Bool(false) => Ok(MarkedValue::False),
        Token::Bool(true) => Ok(MarkedValue::True),
        Token::Null => Ok(MarkedValue::Null),
        _ => Err(ReadFault::NotJson),
    }
}

/// Reads the items of a JSON array in a marked text, such as an OCPP-J message, up to its closing
/// bracket, as the array.
// This and `read_object` aren't inlined: `read_value` clears its variables on each entry, and
// would have theirs as well.
#[cycle(read)]
#[inline(never)]
fn read_array<'a>(
    arena: &'a Bump,
    reader: &mut Reader<'a>,
    depth: usize,
) -> Result<MarkedValue<'a>, ReadFault>
    requires { HaveNoNumber reader.old }
    ensures array { IfOk result
        (λ found. parse_map array
        (converted of_items (items (value depth) (length reader.old) reader.old))
        ≡ Some (view found, reader.new)) }
    ensures shorter { OnOk result (length reader.new < length reader.old) }
    ensures no_numbers { OnOk result (HaveNoNumber reader.new) }
    ensures refused { result ≡ Err ReadFault.NotJson
        → converted of_items (items (value depth) (length reader.old) reader.old) ≡ None }
{
    let mut found = Vec::new(arena);
    'items: while !reader.take_end_array() {
        let item = read_value(arena, reader, depth)?;
        push_item(&mut found, item)?;
    }
    Ok(MarkedValue::Array(found))
}

/// Appends an item to those of a JSON array in a marked text, such as an OCPP-J message.
fn push_item<'a>(
    found: &mut Vec<MarkedValue<'a>, &'a Bump>,
    item: MarkedValue<'a>,
) -> Result<(), ReadFault>
    ensures items { OnOk result (found.new.items ≡ found.old.items ++ item.entry ∷ []) }
    ensures refused { result ≢ Err ReadFault.NotJson }
{
    found.push(item)?;
    Ok(())
}

/// Reads the members of a JSON object in a marked text, such as an OCPP-J message, up to its
/// closing brace, as the object. The last of equal keys counts.
#[cycle(read)]
#[inline(never)]
fn read_object<'a>(
    arena: &'a Bump,
    reader: &mut Reader<'a>,
    depth: usize,
) -> Result<MarkedValue<'a>, ReadFault>
    requires { HaveNoNumber reader.old }
    ensures object { IfOk result
        (λ found. parse_map object (converted (λ ms. of_members ms no_members)
        (members (value depth) (length reader.old) reader.old))
        ≡ Some (view found, reader.new)) }
    ensures shorter { OnOk result (length reader.new < length reader.old) }
    ensures no_numbers { OnOk result (HaveNoNumber reader.new) }
    ensures refused { result ≡ Err ReadFault.NotJson
        → converted (λ ms. of_members ms no_members)
        (members (value depth) (length reader.old) reader.old) ≡ None }
{
    let mut found = BTreeMap::new(arena);
    'members: while let Some(key) = reader.next_key()? {
        let member = read_value(arena, reader, depth)?;
        put_member(&mut found, key, member)?;
    }
    Ok(MarkedValue::Object(found))
}

/// Puts a member into a JSON object of a marked text, such as an OCPP-J message, in place of one
/// that has the same key.
fn put_member<'a>(
    found: &mut BTreeMap<&'a str, MarkedValue<'a>, &'a Bump>,
    key: &'a str,
    member: MarkedValue<'a>,
) -> Result<(), ReadFault>
    ensures inserted { OnOk result (members_view found.new.entries
        ≡ put key.entry.now (view member.entry) (members_view found.old.entries)) }
    ensures refused { result ≢ Err ReadFault.NotJson }
{
    drop(found.insert(key, member)?);
    Ok(())
}
