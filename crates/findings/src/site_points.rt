//! Checks the points of a site file.

use crate::finding::{Finding, Location};
use crate::found::{Glance, KnownField, LIMIT};
use crate::site_pass::SitePass;
use crate::words::{Excerpt, tenths_text};
use indexmap::IndexMap;
use json::{Invalid, Reader};
use ocpp_scalars::read_tenths;
use std::alloc::{AllocError, Global};

/// The maximum number of findings in the points to keep: two for each point of the largest site.
const MAX_FOUND: usize = 2_000;

/// The maximum number of points of a site.
const MAX_POINTS: usize = 1_000;

/// The maximum number of connectors of a point.
const MAX_CONNECTORS: usize = 64;

/// The maximum number of characters of a point's identity.
const MAX_ID_CHARACTERS: usize = 48;

/// The index of `connectors` among a point's fields.
const CONNECTORS: usize = 2;

/// The points of a site file so far, and the findings in them.
#[derive(Drop)]
pub(crate) struct CheckedPoints {
    alloc: Global,
    /// The number of points.
    count: usize,
    /// The index of the first point of each identity.
    places: IndexMap<String, usize>,
    findings: Vec<Finding>,
    /// Whether there are more findings than are kept. If so, no further point is checked.
    more: bool,
}

/// The connectors of a point.
#[derive(Drop)]
struct Connectors {
    /// The number of connectors.
    count: usize,
    /// The sum of the valid ceilings, in tenths.
    together: u64,
    /// A message for each ceiling that isn't valid.
    wrong: Vec<String>,
}

impl CheckedPoints {
    /// Begins the findings of `check` in a site file's points, before the first point.
    pub(crate) fn new(alloc: Global) -> CheckedPoints {
        CheckedPoints {
            alloc,
            count: 0,
            places: IndexMap::new(alloc),
            findings: Vec::new(alloc),
            more: false,
        }
    }

    /// Reads the list of points of a site file, which has begun, and checks each of them for
    /// `check`.
    pub(crate) fn read<'a>(
        &mut self,
        pass: &mut SitePass<'a>,
        reader: &mut Reader<'a>,
    ) -> Result<(), Invalid> {
        // Each point has at least one byte, so this range ends the loop without a proof of its own.
        for index in 0..pass.text.len() {
            if reader.take_end_array() {
                break;
            }
            self.count = index.saturating_add(1);
            if pass.begins(reader, b'{') {
                self.read_point(pass, reader, index)?;
            } else {
                let value = pass.read_value(reader)?;
                let outcome = self.add_other(index, value);
                pass.note(outcome);
            }
        }
        Ok(())
    }

    /// Adds to the findings of `check` a fault for an entry in the list of points of a site file
    /// that is no object.
    fn add_other(&mut self, index: usize, value: Glance<'_>) -> Result<(), AllocError> {
        let message = format!(in self.alloc;
            "{value}; expected an object with id, ceiling and connectors"
        )?;
        self.add(Finding::fault(Location::Point { index, id: None }, message))
    }

    /// Reads a point of a site file, whose object has begun, and checks it for `check`.
    fn read_point<'a>(
        &mut self,
        pass: &mut SitePass<'a>,
        reader: &mut Reader<'a>,
        index: usize,
    ) -> Result<(), Invalid> {
        let mut fields = [
            KnownField::new(
                "id",
                "a string of 1 to 48 of the characters A-Z, a-z, 0-9, `.`, `_`, `-` and `~`",
            ),
            KnownField::new("ceiling", LIMIT),
            KnownField::new(
                "connectors",
                "a list of 1 to 64 ceilings, of connectors 1, 2, .., such as [32.0,32.0]",
            ),
        ];
        let mut connectors = Connectors::new(self.alloc);
        connectors.read_point(pass, reader, &mut fields)?;
        let outcome = self.check(index, &fields, &mut connectors);
        pass.note(outcome);
        Ok(())
    }

    /// Checks a point of a site file, and adds the findings of `check` in it.
    fn check(
        &mut self,
        index: usize,
        fields: &[KnownField<'_>; 3],
        list: &mut Connectors,
    ) -> Result<(), AllocError> {
        // Only the number of the other points matters: their findings wouldn't be kept.
        if self.more {
            return Ok(());
        }
        let [id, ceiling, connectors] = fields;
        self.check_id(index, id)?;
        let most = ceiling.value.and_then(ceiling_of);
        if most.is_none() {
            self.add_field_fault(index, id, ceiling)?;
        }
        let Some(Glance::List) = connectors.value else {
            return self.add_field_fault(index, id, connectors);
        };
        let together = list.together();
        self.check_connectors(index, id, list)?;
        match most {
            Some(most) if together > most => self.add_remark(index, id, most, together),
            _ => Ok(()),
        }
    }

    /// Adds the fault of `check` of the `id` of a site file's point, if it isn't valid or is that
    /// of an earlier point. Otherwise notes the `id`.
    fn check_id(&mut self, index: usize, id: &KnownField<'_>) -> Result<(), AllocError> {
        match id.value {
            Some(Glance::Text(text)) if is_point_id(text) => self.note_id(index, id, text),
            _ => self.add_field_fault(index, id, id),
        }
    }

    /// Notes the valid `id` of a site file's point, or adds the fault of `check` if it is that of
    /// an earlier point.
    fn note_id(&mut self, index: usize, id: &KnownField<'_>, text: &str) -> Result<(), AllocError> {
        if let Some(earlier) = self.places.get(text).copied() {
            let message = format!(in self.alloc;
                "id: points[{earlier}] has it too; each point has its own"
            )?;
            return self.add_fault(index, id, message);
        }
        self.places
            .insert(String::from_str(self.alloc, text)?, index)?;
        Ok(())
    }

    /// Adds the faults of the list of a point's connectors in a site file, for `check`.
    fn check_connectors(
        &mut self,
        index: usize,
        id: &KnownField<'_>,
        list: &mut Connectors,
    ) -> Result<(), AllocError> {
        let count = list.count;
        if count == 0 || count > MAX_CONNECTORS {
            let message = format!(in self.alloc;
                "connectors: {count} entries; expected 1 to {MAX_CONNECTORS}"
            )?;
            self.add_fault(index, id, message)?;
        }
        for message in list.wrong.drain(..) {
            self.add_fault(index, id, message)?;
        }
        Ok(())
    }

    /// Adds the fault of `check` of a field of a site file's point.
    fn add_field_fault<'a>(
        &mut self,
        index: usize,
        id: &KnownField<'a>,
        field: &KnownField<'a>,
    ) -> Result<(), AllocError> {
        let message = format!(in self.alloc; "{field}")?;
        self.add_fault(index, id, message)
    }

    /// Adds a fault of `check` in a point of a site file.
    fn add_fault(
        &mut self,
        index: usize,
        id: &KnownField<'_>,
        message: String,
    ) -> Result<(), AllocError> {
        let place = place_of(self.alloc, index, id)?;
        self.add(Finding::fault(place, message))
    }

    /// Adds the remark of `check` that the ceilings of a point's connectors in a site file add up
    /// to more than the point's.
    fn add_remark(
        &mut self,
        index: usize,
        id: &KnownField<'_>,
        ceiling: u64,
        together: u64,
    ) -> Result<(), AllocError> {
        let message = together_message(self.alloc, ceiling, together)?;
        let place = place_of(self.alloc, index, id)?;
        self.add(Finding::remark(place, message))
    }

    /// Adds a finding of `check` in the points of a site file, unless there are too many.
    fn add(&mut self, finding: Finding) -> Result<(), AllocError> {
        if self.findings.len() >= MAX_FOUND {
            self.more = true;
            return Ok(());
        }
        self.findings.push(finding)?;
        Ok(())
    }

    /// Appends the findings of `check` in the points of a site file: a fault if there are too few
    /// or too many points, those in each, and a warning if there are more findings.
    pub(crate) fn append_to(&mut self, findings: &mut Vec<Finding>) -> Result<(), AllocError> {
        if self.count == 0 || self.count > MAX_POINTS {
            add_count_fault(self.alloc, self.count, findings)?;
        }
        findings.append(&mut self.findings)?;
        if self.more {
            warn_more(self.alloc, findings)?;
        }
        Ok(())
    }
}

impl Connectors {
    /// Begins before the first connector of a point in a site file that `check` reads.
    fn new(alloc: Global) -> Connectors {
        Connectors {
            count: 0,
            together: 0,
            wrong: Vec::new(alloc),
        }
    }

    /// Reads the fields of a point of a site file for `check`, with the ceilings in its list of
    /// connectors.
    fn read_point<'a>(
        &mut self,
        pass: &mut SitePass<'a>,
        reader: &mut Reader<'a>,
        fields: &mut [KnownField<'a>],
    ) -> Result<(), Invalid> {
        for _ in 0..pass.text.len() {
            let Some(place) = pass.next_field(reader, fields)? else {
                break;
            };
            let value = self.read_field(pass, reader, place)?;
            if let Some(field) = fields.get_mut(place) {
                field.value = Some(value);
            }
        }
        Ok(())
    }

    /// Reads the value of a field of a point in a site file for `check`.
    fn read_field<'a>(
        &mut self,
        pass: &mut SitePass<'a>,
        reader: &mut Reader<'a>,
        place: usize,
    ) -> Result<Glance<'a>, Invalid> {
        if place != CONNECTORS || !pass.begins(reader, b'[') {
            return pass.read_value(reader);
        }
        // Of duplicate fields the last one counts. The earlier messages are freed first.
        *self = Connectors::new(pass.alloc);
        self.read(pass, reader)?;
        Ok(Glance::List)
    }

    /// Reads for `check` the list of the ceilings of a point's connectors in a site file, which has
    /// begun.
    fn read<'a>(
        &mut self,
        pass: &mut SitePass<'a>,
        reader: &mut Reader<'a>,
    ) -> Result<(), Invalid> {
        for index in 0..pass.text.len() {
            if reader.take_end_array() {
                break;
            }
            self.count = index.saturating_add(1);
            let value = pass.read_value(reader)?;
            let outcome = self.add(pass.alloc, index, value);
            pass.note(outcome);
        }
        Ok(())
    }

    /// Adds the ceiling of a point's connector in a site file, or a message of `check` if it isn't
    /// valid.
    fn add(&mut self, alloc: Global, index: usize, value: Glance<'_>) -> Result<(), AllocError> {
        if let Some(ceiling) = ceiling_of(value) {
            self.together = self.together.saturating_add(ceiling);
        } else if self.wrong.len() <= MAX_FOUND {
            // One message more than are kept makes `CheckedPoints` warn that there are more.
            self.wrong.push(format!(in alloc; "connectors[{index}]: {value}; expected {LIMIT}")?)?;
        }
        Ok(())
    }

    /// Returns the sum of the ceilings of a point's connectors in a site file, 0 if one isn't valid,
    /// for a remark of `check`.
    fn together(&self) -> u64 {
        if self.wrong.is_empty() {
            self.together
        } else {
            0
        }
    }
}

/// Adds to the findings of `check` the fault that a site file has too few or too many points.
fn add_count_fault(
    alloc: Global,
    count: usize,
    findings: &mut Vec<Finding>,
) -> Result<(), AllocError> {
    let message = format!(in alloc; "points: {count} entries; expected 1 to {MAX_POINTS}")?;
    findings.push(Finding::fault(Location::File, message))?;
    Ok(())
}

/// Adds to the findings of `check` a warning that the points of a site file have more than are
/// listed.
fn warn_more(alloc: Global, findings: &mut Vec<Finding>) -> Result<(), AllocError> {
    let message = format!(in alloc;
        "there are more than {MAX_FOUND} faults and remarks; the others aren't listed"
    )?;
    findings.push(Finding::warning(Location::File, message))?;
    Ok(())
}

/// Returns the ceiling of a point or a connector in a site file, in tenths, if its value is valid,
/// for `check`.
fn ceiling_of(value: Glance<'_>) -> Option<u64> {
    match value {
        Glance::Number(text) => read_tenths(text).ok().map(u64::from),
        _ => None,
    }
}

/// Returns, for a finding of `check`, whether a text in a site file is valid as the `id` of a
/// point.
fn is_point_id(id: &str) -> bool {
    !id.is_empty() && id.len() <= MAX_ID_CHARACTERS && id.bytes().all(is_id_byte)
}

/// Returns, for a finding of `check`, whether the `id` of a point in a site file may contain this
/// byte.
fn is_id_byte(byte: u8) -> bool {
    matches!(byte, b'A'..=b'Z' | b'a'..=b'z' | b'0'..=b'9' | b'.' | b'_' | b'-' | b'~')
}

/// Returns the place of a finding of `check` in a point of a site file. It has the point's identity
/// if that is a string that isn't empty.
fn place_of(alloc: Global, index: usize, id: &KnownField<'_>) -> Result<Location, AllocError> {
    let id = match id.value {
        Some(Glance::Text(id)) if !id.is_empty() => {
            let id = Excerpt(id);
            Some(format!(in alloc; "{id}")?)
        }
        _ => None,
    };
    Ok(Location::Point { index, id })
}

/// Describes, for a remark of `check`, that the ceilings of a point's connectors in a site file add
/// up to more than the point's.
// It is no warning, since this is so at most points.
fn together_message(alloc: Global, ceiling: u64, together: u64) -> Result<String, AllocError> {
    let together = tenths_text(alloc, together)?;
    let ceiling = tenths_text(alloc, ceiling)?;
    format!(in alloc;
        "the connectors' ceilings are {together} together, more than the point's {ceiling}; each connector alone is bounded by the point's"
    )
}
