//! Checks that the value of a marked text has a tree. This takes little memory: of the members of
//! open objects, only the keys of those without a tree are kept.

ghost use Rattle.std.specs.Prelude.{◌≡◌, ◌<◌, ◌&&◌, ℕ, List, Some, None, Err, IfOk, OnOk, is_some, length, not, if◌then◌else◌};
ghost use Rattle.std.specs.Str.{bytes_eq};
ghost use Rattle.json.specs.Json.{items, members, value};
ghost use Rattle.json.specs.Lex.{tokens};
ghost use Rattle.serde_json.specs.Data.{Data, Items, Members, no_members};
ghost use Rattle.serde_json.specs.Read.{converted, of_items, of_json, of_members};
ghost use Rattle.ocppj_frame.specs.ByCases.Tokens.{HaveNoNumber};
ghost use Rattle.ocppj_frame.specs.Read.{name_of_key, tree_of, trees_of, fields_of, tree_of_string};
ghost use Rattle.site_rules.specs.ByCases.HasTree.{has_key, marked_tree};

use super::part_fault::PartFault;
use super::whole::MAX_DEPTH;
use json::{Reader, Scratch, Token};
use ocpp_scalars::is_number_text;
use ocppj_frame::after_mark;
use std::alloc::{AllocError, Global};
use std::collections::BTreeSet;

/// Returns whether the marked text of a site file (each string and number has its mark) can be read
/// and its value has a tree. Otherwise the file isn't JSON.
pub(crate) fn has_tree(
    alloc: Global,
    marked: &str,
    scratch: &mut Scratch,
) -> Result<bool, AllocError>
    requires { HaveNoNumber (tokens marked.now) }
    ensures { IfOk result (λ has. has ≡ is_some (marked_tree marked.now)) }
{
    let mut reader = Reader::new(marked, scratch)?;
    match value_has_tree(alloc, &mut reader, MAX_DEPTH) {
        Ok(has) => Ok(reader.next().is_none() & has),
        Err(PartFault::Unsure) => Ok(false),
        Err(PartFault::OutOfMemory) => Err(AllocError),
    }
}

/// Reads the next value of a site file, and returns whether it has a JSON tree. `Unsure` if there
/// is no value.
#[cycle(trees)]
fn value_has_tree(alloc: Global, reader: &mut Reader<'_>, depth: usize) -> Result<bool, PartFault>
    requires { HaveNoNumber reader.old }
    ensures tree { IfOk result (λ has. (read : Data)
        × (converted of_json (value depth reader.old) ≡ Some (read, reader.new))
        × (has ≡ is_some (tree_of read))) }
    ensures shorter { OnOk result (length reader.new < length reader.old) }
    ensures no_numbers { OnOk result (HaveNoNumber reader.new) }
    ensures refused { result ≡ Err PartFault.Unsure
        → converted of_json (value depth reader.old) ≡ None }
{
    let token = reader.next().ok_or(PartFault::Unsure)?;
    match token {
        Token::String(marked) => Ok(string_has_tree(marked)),
        Token::Bool(_) => Ok(true),
        Token::Null => Ok(true),
        Token::BeginArray => {
            if depth == 0 {
                return Err(PartFault::Unsure);
            }
            Ok(items_have_trees(alloc, reader, depth - 1)?)
        }
        Token::BeginObject => {
            if depth == 0 {
                return Err(PartFault::Unsure);
            }
            Ok(members_have_trees(alloc, reader, depth - 1)?)
        }
        Token::EndObject | Token::EndArray | Token::Key(_) | Token::Bad => Err(PartFault::Unsure),
        // Proved unreachable: a marked text has no number.
        Token::Number(_) => Err(PartFault::Unsure),
    }
}

/// Returns whether a marked string of a site file has a JSON tree: a text always, a number by its
/// grammar.
fn string_has_tree(marked: &str) -> bool
    ensures { result ≡ is_some (tree_of_string marked.now) }
{
    if after_mark(marked, b's').is_some() {
        return true;
    }
    match after_mark(marked, b'n') {
        Some(number) => is_number_text(number),
        None => false,
    }
}

/// Reads the items of a list in a site file, and returns whether each has a JSON tree.
#[cycle(trees)]
fn items_have_trees(alloc: Global, reader: &mut Reader<'_>, depth: usize) -> Result<bool, PartFault>
    requires { HaveNoNumber reader.old }
    ensures trees { IfOk result (λ have. (list : Items)
        × (converted of_items (items (value depth) (length reader.old) reader.old)
        ≡ Some (list, reader.new))
        × (have ≡ is_some (trees_of list))) }
    ensures shorter { OnOk result (length reader.new < length reader.old) }
    ensures no_numbers { OnOk result (HaveNoNumber reader.new) }
    ensures refused { result ≡ Err PartFault.Unsure
        → converted of_items (items (value depth) (length reader.old) reader.old) ≡ None }
{
    // Goes on after an item without a tree: a later value may still replace the whole list.
    let mut have = true;
    'items: while !reader.take_end_array() {
        let has = value_has_tree(alloc, reader, depth)?;
        have &= has;
    }
    Ok(have)
}

/// Reads the members of an object in a site file, and returns whether they have JSON trees. Of
/// several with one key only the last must have one.
#[cycle(trees)]
fn members_have_trees(
    alloc: Global,
    reader: &mut Reader<'_>,
    depth: usize,
) -> Result<bool, PartFault>
    requires { HaveNoNumber reader.old }
    ensures trees { IfOk result (λ have. (found : Members)
        × (converted (λ ms. of_members ms no_members)
        (members (value depth) (length reader.old) reader.old) ≡ Some (found, reader.new))
        × (have ≡ is_some (fields_of found))) }
    ensures shorter { OnOk result (length reader.new < length reader.old) }
    ensures no_numbers { OnOk result (HaveNoNumber reader.new) }
    ensures refused { result ≡ Err PartFault.Unsure
        → converted (λ ms. of_members ms no_members)
        (members (value depth) (length reader.old) reader.old) ≡ None }
{
    // A set and not a flag: a later member with the same key may have a tree, and then counts.
    let mut broken = BTreeSet::new(alloc);
    'members: while let Some(key) = reader.next_key()? {
        let has = value_has_tree(alloc, reader, depth)?;
        update_key(&mut broken, key, has)?;
    }
    Ok(broken.is_empty())
}

/// Records a key of an object in a site file whose last member has no JSON tree, or drops one whose
/// last member has one.
fn update_key<'a>(broken: &mut BTreeSet<&'a str>, key: &'a str, has: bool) -> Result<(), AllocError>
    ensures { OnOk result ((other : List ℕ) → has_key other broken.new
        ≡ (if bytes_eq key.now other then not (has && is_some (name_of_key key.now))
        else has_key other broken.old)) }
{
    let is_text = after_mark(key, b's').is_some();
    if has & is_text {
        broken.remove(key);
    } else {
        broken.insert(key)?;
    }
    Ok(())
}
