//! Messages about a field: the value found there, and the value wanted.

use crate::words::Excerpt;
use ocppj_frame::Node;
use std::fmt;

/// The description of a valid limit in messages.
pub const LIMIT: &str = "a number from 0 to 100000000.0 with at most one decimal";

/// A JSON value without the contents of its lists and objects.
#[derive(Clone, Copy)]
pub enum Glance<'a> {
    Null,
    Bool,
    Text(&'a str),
    Number(&'a str),
    List,
    Object,
}

/// A known field of an object: the value found there and the value wanted.
#[derive(Clone, Copy)]
pub struct KnownField<'a> {
    pub name: &'static str,
    pub wanted: &'static str,
    /// The value, or none if the field is absent.
    pub value: Option<Glance<'a>>,
    /// An unknown field of the same object that is probably meant to be this one.
    pub hint: Option<&'a str>,
}

impl<'a> KnownField<'a> {
    /// Makes a field of a checked object, before any value is found.
    pub fn new(name: &'static str, wanted: &'static str) -> KnownField<'a> {
        KnownField {
            name,
            wanted,
            value: None,
            hint: None,
        }
    }
}

/// Describes the fault of a field: the value found there, and the value wanted.
impl fmt::Display for KnownField<'_> {
    fn fmt<W: fmt::Write>(&self, f: &mut fmt::Formatter<W>) -> fmt::Result {
        let name = self.name;
        let wanted = self.wanted;
        match self.value {
            // A field that is present is spelled right, so no other one is meant to be it.
            Some(value) => write!(f, "{name}: {value}; expected {wanted}"),
            None => {
                write!(f, "{name}: it is absent; expected {wanted}")?;
                write_hint(f, self.hint)
            }
        }
    }
}

/// Writes, for a finding of `check`, the unknown field that is probably meant to be an absent one.
fn write_hint<W: fmt::Write>(f: &mut fmt::Formatter<W>, hint: Option<&str>) -> fmt::Result {
    match hint {
        Some(hint) => {
            let hint = Excerpt(hint);
            write!(f, " (is \"{hint}\" meant to be it?)")
        }
        None => Ok(()),
    }
}

/// Describes the value found at a place of a checked text.
impl fmt::Display for Glance<'_> {
    fn fmt<W: fmt::Write>(&self, f: &mut fmt::Formatter<W>) -> fmt::Result {
        match self {
            Glance::Text(text) => {
                let text = Excerpt(text);
                write!(f, "\"{text}\" is a string")
            }
            Glance::Number(number) => {
                let number = Excerpt(number);
                write!(f, "{number} is a number")
            }
            Glance::Null => f.write_str("null counts as absent"),
            Glance::Object => f.write_str("found an object"),
            Glance::List => f.write_str("found a list"),
            Glance::Bool => f.write_str("found true or false"),
        }
    }
}

/// Returns the value of a node.
pub fn glance_at<'memory>(node: Node<'_, 'memory>) -> Glance<'memory> {
    if let Some(text) = node.text() {
        Glance::Text(text)
    } else if let Some(number) = node.number() {
        Glance::Number(number)
    } else if node.is_null() {
        Glance::Null
    } else if node.is_object() {
        Glance::Object
    } else if node.list().is_some() {
        Glance::List
    } else {
        Glance::Bool
    }
}
