//! Finds the unknown and the duplicate fields of an operator's payload.

use crate::payload_objects::row_named;
use json::{Reader, Scratch, Token};
use messages::{ActionKind, FieldKind, FieldRow, Side, fields_in, fields_of};
use std::alloc::{AllocError, Global};
use std::mem;

/// The maximum number of fields of a message to report.
const MAX_REPORTED: usize = 20;

/// The maximum nesting depth of a skipped element of a frame.
const MAX_DEPTH: usize = 127;

/// The unknown and the duplicate fields of a payload, at most 20 of each.
#[derive(Drop)]
pub(crate) struct PayloadFields {
    pub unknown: Vec<UnknownField>,
    pub repeated: Vec<&'static str>,
}

/// An unknown field, which has no effect.
#[derive(Drop)]
pub(crate) struct UnknownField {
    /// The known fields of its object.
    pub known: &'static [FieldRow],
    pub name: String,
}

/// A value in a payload, by the table that lists its field.
#[derive(Clone, Copy)]
enum PayloadPart {
    /// An object with these known fields.
    Object(&'static [FieldRow]),
    /// A list of such objects.
    List(&'static [FieldRow]),
    Other,
}

/// An object or a list that isn't closed yet.
#[derive(Drop)]
struct OpenPart {
    part: PayloadPart,
    /// The known fields that an object has so far.
    seen: Vec<&'static str>,
}

/// A walk through the tokens of a payload.
#[derive(Drop)]
struct Walk {
    alloc: Global,
    found: PayloadFields,
    open: Vec<OpenPart>,
    /// The part that comes next, if it is the payload or the value of a member.
    next: PayloadPart,
}

/// Returns the unknown and the duplicate fields of an operator's CALL, for warnings of `check` on a
/// script or of `call`. A point's CALL has none.
// Of a point's CALL only some fields are read, so its other fields aren't unknown ones.
pub(crate) fn payload_fields(
    alloc: Global,
    frame: &str,
    kind: ActionKind,
) -> Result<PayloadFields, AllocError> {
    let mut walk = Walk {
        alloc,
        found: PayloadFields {
            unknown: Vec::new(alloc),
            repeated: Vec::new(alloc),
        },
        open: Vec::new(alloc),
        next: PayloadPart::Object(fields_of(kind)),
    };
    if kind.side().is_same(Side::Operator) {
        walk.read(frame)?;
    }
    let Walk { found, .. } = walk;
    Ok(found)
}

impl Walk {
    /// Reads the payload of an operator's CALL, the fourth element of its frame (OCPP-J 1.6,
    /// chapter 4). `check` of a script or `call` warns of its unknown and duplicate fields.
    fn read(&mut self, frame: &str) -> Result<(), AllocError> {
        let mut scratch = Scratch::new(self.alloc);
        let mut reader = Reader::new(frame, &mut scratch)?;
        let _ = reader.next();
        for _ in 0..3 {
            let _ = reader.skip_value(MAX_DEPTH);
        }
        // Each token has at least one byte, so this range ends the loop without a proof of its own.
        for _ in 0..frame.len() {
            let Some(token) = reader.next() else {
                break;
            };
            self.take(token)?;
        }
        Ok(())
    }

    /// Takes the next token of an operator's payload, to find unknown and duplicate fields for
    /// warnings of `check` on a script or of `call`.
    fn take(&mut self, token: Token<'_>) -> Result<(), AllocError> {
        let next = mem::replace(&mut self.next, PayloadPart::Other);
        match token {
            Token::Key(name) => self.take_name(name),
            Token::BeginObject => {
                let part = match (self.open.last().map(|open| open.part), next) {
                    (Some(PayloadPart::List(known)), _) | (_, PayloadPart::Object(known)) =>
                        PayloadPart::Object(known),
                    // An object in place of a list has no known fields.
                    (_, PayloadPart::List(_)) => PayloadPart::Object(&[]),
                    _ => PayloadPart::Other,
                };
                self.begin(part)
            }
            Token::BeginArray => match next {
                PayloadPart::List(_) => self.begin(next),
                _ => self.begin(PayloadPart::Other),
            },
            Token::EndObject | Token::EndArray => {
                let _ = self.open.pop();
                Ok(())
            }
            _ => Ok(()),
        }
    }

    /// Opens an object or a list of an operator's payload. `check` of a script or `call` warns of
    /// unknown and duplicate fields in it.
    fn begin(&mut self, part: PayloadPart) -> Result<(), AllocError> {
        self.open.push(OpenPart {
            part,
            seen: Vec::new(self.alloc),
        })?;
        Ok(())
    }

    /// Takes the next name in an object of an operator's payload. If it is unknown or a duplicate,
    /// `check` of a script or `call` warns of it.
    fn take_name(&mut self, name: &str) -> Result<(), AllocError> {
        let Some(open) = self.open.last_mut() else {
            return Ok(());
        };
        let PayloadPart::Object(known) = open.part else {
            return Ok(());
        };
        let Some(row) = row_named(known, name) else {
            return self.add_unknown(known, name);
        };
        self.next = match row.kind() {
            FieldKind::Object(kind) => PayloadPart::Object(fields_in(kind)),
            FieldKind::Objects(kind) => PayloadPart::List(fields_in(kind)),
            _ => PayloadPart::Other,
        };
        let name = row.name().text();
        if !open.seen.iter().any(|earlier| *earlier == name) {
            open.seen.push(name)?;
        } else if self.found.repeated.len() < MAX_REPORTED {
            self.found.repeated.push(name)?;
        }
        Ok(())
    }

    /// Adds an unknown field of an operator's payload, for a warning of `check` on a script or of
    /// `call`, unless there are too many.
    fn add_unknown(&mut self, known: &'static [FieldRow], name: &str) -> Result<(), AllocError> {
        if self.found.unknown.len() < MAX_REPORTED {
            let name = String::from_str(self.alloc, name)?;
            self.found.unknown.push(UnknownField { known, name })?;
        }
        Ok(())
    }
}
