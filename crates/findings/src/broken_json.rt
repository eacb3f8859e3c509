//! Finds the break of a text that isn't JSON (RFC 8259): the first token that isn't allowed.

ghost use Rattle.std.specs.Prelude.{◌≡◌, ◌↔◌, IfOk, IsSome, None};
ghost use Rattle.ocppj_frame.specs.Read.{tree_of_text};

use json::{Reader, Scratch, Token};
use ocppj_frame::{FrameFault, ReadingMemory, read_tree};
use std::alloc::{AllocError, Global};
use std::{fmt, mem};

/// The maximum nesting depth of lists and objects.
// The limit of serde_json, which defines which texts are JSON here; the token reader has none.
const MAX_DEPTH: usize = 127;

/// The place at which a text stops being JSON.
#[derive(Clone, Copy)]
pub struct JsonBreak {
    /// Its offset, in bytes.
    pub offset: usize,
    /// The character there, or none at the end of the text.
    found: Option<char>,
    /// The cure of a common mistake, if it looks like one.
    hint: Option<&'static str>,
}

/// The state of a walk through the tokens of a text. The reader checks commas and colons.
#[derive(Drop)]
struct Nesting {
    /// The open objects (`true`) and lists.
    open: Vec<bool>,
    /// Whether a value has to come: the outermost one, or that of a name.
    wants_value: bool,
}

/// Returns the break of a text, or none if a tree can be read from it.
pub fn break_of(alloc: Global, text: &str) -> Result<Option<JsonBreak>, AllocError>
    ensures { IfOk result (λ fault. IsSome fault ↔ (tree_of_text text.now ≡ None)) }
{
    let mut memory = ReadingMemory::new(alloc);
    match read_tree(&mut memory, text) {
        Ok(_) => Ok(None),
        Err(FrameFault::OutOfMemory) => Err(AllocError),
        Err(_) => Ok(Some(first_break(alloc, text)?)),
    }
}

/// Returns the break of a text from which no tree can be read.
pub fn first_break(alloc: Global, text: &str) -> Result<JsonBreak, AllocError> {
    let mut scratch = Scratch::new(alloc);
    let mut reader = Reader::new(text, &mut scratch)?;
    let mut nesting = Nesting {
        open: Vec::new(alloc),
        wants_value: true,
    };
    // Each token has at least one byte, so this range ends the loop without a proof of its own.
    for _ in 0..text.len() {
        let offset = reader.offset();
        let is_whole = nesting.is_closed();
        match reader.next() {
            Some(token) if nesting.takes(token)? => {}
            _ => return Ok(break_at(text, offset, is_whole)),
        }
    }
    Ok(break_at(text, text.len(), nesting.is_closed()))
}

impl Nesting {
    /// Returns whether the outermost value of a text has ended, for the finding where a site file
    /// or a message stops being JSON.
    fn is_closed(&self) -> bool {
        self.open.is_empty() && !self.wants_value
    }

    /// Takes the next token of a site file or a message, for the finding where it stops being JSON.
    /// Returns whether the object or list around the token allows it.
    fn takes(&mut self, token: Token<'_>) -> Result<bool, AllocError> {
        let wants_value = mem::replace(&mut self.wants_value, false);
        let around = self.open.last().copied();
        let may_be_value = wants_value || around == Some(false);
        let may_be_name = !wants_value && around == Some(true);
        match token {
            Token::Bad => Ok(false),
            Token::Key(_) => {
                self.wants_value = true;
                Ok(may_be_name)
            }
            Token::EndObject => {
                let _ = self.open.pop();
                Ok(may_be_name)
            }
            Token::EndArray => Ok(self.open.pop() == Some(false)),
            Token::BeginObject | Token::BeginArray => {
                self.open.push(matches!(token, Token::BeginObject))?;
                Ok(may_be_value && self.open.len() <= MAX_DEPTH)
            }
            Token::String(_) | Token::Number(_) | Token::Bool(_) | Token::Null => Ok(may_be_value),
        }
    }
}

/// Makes the finding's break of a text that isn't JSON, a site file or a message, at the offset of
/// a token. `is_whole` says whether a whole value comes before it.
fn break_at(text: &str, offset: usize, is_whole: bool) -> JsonBreak {
    let before = text.get(..offset).unwrap_or(text).trim_end();
    // The reader passes a comma with the value before it, and gives no token for it.
    let offset = if is_whole && before.ends_with(',') {
        before.len().saturating_sub(1)
    } else {
        offset
    };
    let found = text.get(offset..).and_then(|rest| rest.chars().next());
    let hint = match found {
        Some(_) if is_whole => Some("nothing may follow the value"),
        Some(found) => hint_of(before.chars().next_back(), found),
        None => None,
    };
    JsonBreak {
        offset,
        found,
        hint,
    }
}

/// Returns the cure of a common mistake, for the finding that a site file or a message stops being
/// JSON: at the character `found`, with another before it.
fn hint_of(before: Option<char>, found: char) -> Option<&'static str> {
    match (before, found) {
        (Some(','), ']' | '}') => Some("the comma before it is one too many"),
        (None | Some(',' | ':' | '[' | '{'), '"') => Some(
            "the string there has no end, or isn't allowed as it is",
        ),
        (Some('"' | ']' | '}' | 'a'..='z' | '0'..='9'), '"' | '{' | '[' | '0'..='9') => Some(
            "a comma is missing before it",
        ),
        _ => hint_at(found),
    }
}

/// Returns the cure of a common mistake, for the finding that a site file or a message stops being
/// JSON: at a character that JSON has only in strings.
fn hint_at(found: char) -> Option<&'static str> {
    match found {
        '\'' => Some("JSON strings have double quotes"),
        '\u{201c}' | '\u{201d}' | '\u{201e}' | '\u{2018}' | '\u{2019}' | '\u{ab}' | '\u{bb}' => {
            Some("a typographic quote; JSON has the straight one")
        }
        '\u{feff}' => Some("a byte order mark; save the file without it"),
        '\u{a0}' => Some("a no-break space; JSON has only the ordinary space"),
        '#' | '/' => Some("JSON has no comments"),
        'N' | 'T' | 'F' => Some("true, false and null are in lower case"),
        _ => None,
    }
}

/// Writes the character found at the break of a text that isn't JSON, and the cure.
impl fmt::Display for JsonBreak {
    fn fmt<W: fmt::Write>(&self, f: &mut fmt::Formatter<W>) -> fmt::Result {
        write_found(f, self.found)?;
        match self.hint {
            Some(hint) => write!(f, ": {hint}"),
            None => Ok(()),
        }
    }
}

/// Writes, for the finding that a site file or a message isn't JSON, the character at its break.
fn write_found<W: fmt::Write>(f: &mut fmt::Formatter<W>, found: Option<char>) -> fmt::Result {
    match found {
        None => f.write_str("it ends too early"),
        Some(found) if is_printable(found) => write!(f, "'{found}' is found"),
        Some(found) => {
            let code = u32::from(found);
            write!(f, "U+{code:04X} is found")
        }
    }
}

/// Returns whether a character is visible in print, for a finding that a site file or a message
/// isn't JSON.
// A no-break space looks like a space, and a byte order mark like nothing: their codes are printed.
fn is_printable(character: char) -> bool {
    match character {
        '\u{0}'..='\u{20}' | '\u{7f}'..='\u{a0}' | '\u{2000}'..='\u{200f}' | '\u{feff}' => false,
        _ => true,
    }
}
