//! The pass through a site file: its values, and its unknown and duplicate fields.

use crate::finding::{Finding, Location};
use crate::found::{Glance, KnownField};
use crate::similar::similar_name;
use crate::text_place::place_in_text;
use crate::words::Excerpt;
use json::{Invalid, Reader, Token};
use ocppj_frame::after_mark;
use std::alloc::{AllocError, Global};

/// The maximum number of fields of either kind to report.
// For each report the lines are counted from the beginning of the file, which may have 16 MiB.
const MAX_REPORTED: usize = 100;

/// The maximum nesting depth of a skipped value. The file has been read as JSON before.
const MAX_DEPTH: usize = 127;

/// The pass through a site file so far.
#[derive(Drop)]
pub(crate) struct SitePass<'a> {
    pub alloc: Global,
    pub text: &'a str,
    /// Whether the text is marked (`ocppj_frame::mark_text`): its numbers are strings, and its
    /// offsets aren't those of the file.
    is_marked: bool,
    /// The warnings of unknown fields, at most 100.
    unknown: Vec<Finding>,
    /// Whether there are more unknown fields.
    more: bool,
    /// The warnings of duplicate fields, at most 100.
    repeated: Vec<Finding>,
    /// Whether an allocation failed, so that findings may be missing.
    // A `?` after each finding would have the same effect, but costs more to prove.
    is_short: bool,
}

impl<'a> SitePass<'a> {
    /// Begins the pass of `check` through a site file, before the first value.
    pub(crate) fn new(alloc: Global, text: &'a str, is_marked: bool) -> SitePass<'a> {
        SitePass {
            alloc,
            text,
            is_marked,
            unknown: Vec::new(alloc),
            more: false,
            repeated: Vec::new(alloc),
            is_short: false,
        }
    }

    /// Notes whether an allocation failed for a finding of `check` in a site file.
    pub(crate) fn note(&mut self, outcome: Result<(), AllocError>) {
        self.is_short |= outcome.is_err();
    }

    /// Begins the next value of a site file that `check` reads, if it is a list (`[`) or an object
    /// (`{`) as wanted.
    pub(crate) fn begins(&self, reader: &mut Reader<'a>, wanted: u8) -> bool {
        let is_wanted = self.next_byte(reader) == Some(wanted);
        if is_wanted {
            let _ = reader.next();
        }
        is_wanted
    }

    /// Returns the first byte of the next token of a site file that `check` reads.
    fn next_byte(&self, reader: &Reader<'a>) -> Option<u8> {
        self.text.as_bytes().get(reader.offset()).copied()
    }

    /// Reads the next value of a site file for `check`, without the contents of a list or an
    /// object.
    pub(crate) fn read_value(&self, reader: &mut Reader<'a>) -> Result<Glance<'a>, Invalid> {
        let value = match self.next_byte(reader) {
            Some(b'[') => Glance::List,
            Some(b'{') => Glance::Object,
            _ => return self.read_scalar(reader),
        };
        reader.skip_value(MAX_DEPTH)?;
        Ok(value)
    }

    /// Reads the next value of a site file for `check`, which is neither a list nor an object.
    fn read_scalar(&self, reader: &mut Reader<'a>) -> Result<Glance<'a>, Invalid> {
        match reader.next() {
            Some(Token::String(text)) => match after_mark(text, b'n') {
                Some(number) if self.is_marked => Ok(Glance::Number(number)),
                _ => Ok(Glance::Text(self.unmarked(text))),
            },
            Some(Token::Number(number)) => Ok(Glance::Number(number)),
            Some(Token::Bool(_)) => Ok(Glance::Bool),
            Some(Token::Null) => Ok(Glance::Null),
            _ => Err(Invalid),
        }
    }

    /// Returns a name or a string of a site file without its mark, a letter before it, for `check`.
    fn unmarked(&self, text: &'a str) -> &'a str {
        if self.is_marked {
            text.get(1..).unwrap_or(text)
        } else {
            text
        }
    }

    /// Returns the place of a finding of `check` at an offset in the text of a site file.
    fn place(&self, offset: usize) -> Location {
        if self.is_marked {
            Location::File
        } else {
            place_in_text(self.text, offset)
        }
    }

    /// Reads the next name in an object of a site file for `check`. Returns the index of its known
    /// field, or the number of known fields if it is none of them. Returns none at the end of the
    /// object.
    pub(crate) fn next_field(
        &mut self,
        reader: &mut Reader<'a>,
        fields: &mut [KnownField<'a>],
    ) -> Result<Option<usize>, Invalid> {
        let offset = reader.offset();
        let Some(key) = reader.next_key()? else {
            return Ok(None);
        };
        let name = self.unmarked(key);
        for (index, field) in fields.iter().enumerate() {
            if field.name == name {
                if field.value.is_some() {
                    let outcome = self.warn_repeated(name, offset);
                    self.note(outcome);
                }
                return Ok(Some(index));
            }
        }
        let outcome = self.warn_unknown(fields, name, offset);
        self.note(outcome);
        Ok(Some(fields.len()))
    }

    /// Adds to the findings of `check` a warning of a duplicate field of a site file, unless there
    /// are too many.
    fn warn_repeated(&mut self, name: &str, offset: usize) -> Result<(), AllocError> {
        if self.repeated.len() >= MAX_REPORTED {
            return Ok(());
        }
        let place = self.place(offset);
        let message = format!(in self.alloc;
            "\"{name}\" is a duplicate field, and the last one counts"
        )?;
        self.repeated.push(Finding::warning(place, message))?;
        Ok(())
    }

    /// Adds to the findings of `check` a warning of an unknown field of a site file, unless there
    /// are too many. Notes the name at the known field that is probably meant.
    fn warn_unknown(
        &mut self,
        fields: &mut [KnownField<'a>],
        name: &'a str,
        offset: usize,
    ) -> Result<(), AllocError> {
        if self.unknown.len() >= MAX_REPORTED {
            self.more = true;
            return Ok(());
        }
        let meant = meant_name(self.alloc, fields, name)?;
        note_hint(fields, meant, name);
        let message = unknown_message(self.alloc, name, meant)?;
        let place = self.place(offset);
        self.unknown.push(Finding::warning(place, message))?;
        Ok(())
    }

    /// Appends the warnings of a site file's unknown and duplicate fields to the findings of
    /// `check`, unless an allocation failed.
    pub(crate) fn append_to(&mut self, findings: &mut Vec<Finding>) -> Result<(), AllocError> {
        if self.is_short {
            return Err(AllocError);
        }
        findings.append(&mut self.unknown)?;
        if self.more {
            warn_more(self.alloc, findings)?;
        }
        findings.append(&mut self.repeated)?;
        Ok(())
    }
}

/// Returns the known field that is probably meant by an unknown field of a site file, for `check`.
fn meant_name(
    alloc: Global,
    fields: &[KnownField<'_>],
    name: &str,
) -> Result<Option<&'static str>, AllocError> {
    let mut names = Vec::new(alloc);
    for field in fields {
        names.push(field.name)?;
    }
    similar_name(alloc, name, names.as_slice())
}

/// Notes an unknown field of a site file at the known field that is probably meant, for `check`.
fn note_hint<'a>(fields: &mut [KnownField<'a>], meant: Option<&str>, name: &'a str) {
    let field = fields
        .iter()
        .position(|field| meant == Some(field.name) && field.hint.is_none());
    if let Some(field) = field.and_then(|index| fields.get_mut(index)) {
        field.hint = Some(name);
    }
}

/// Describes, for a warning of `check`, an unknown field of a site file, and the known field that
/// is probably meant.
fn unknown_message(alloc: Global, name: &str, meant: Option<&str>) -> Result<String, AllocError> {
    let name = Excerpt(name);
    match meant {
        Some(meant) => format!(in alloc;
            "\"{name}\" is no field that is looked at (\"{meant}\" is one)"
        ),
        None => format!(in alloc; "\"{name}\" is no field that is looked at"),
    }
}

/// Adds to the findings of `check` a warning that a site file has more unknown fields than are
/// reported.
fn warn_more(alloc: Global, findings: &mut Vec<Finding>) -> Result<(), AllocError> {
    let message = format!(in alloc;
        "there are more than {MAX_REPORTED} fields that nothing looks at"
    )?;
    findings.push(Finding::warning(Location::File, message))?;
    Ok(())
}
