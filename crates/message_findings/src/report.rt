//! The findings in a script, collected line by line.

use findings::{Finding, Location, Severity};
use messages::purpose_name;
use profile::Purpose;
use std::alloc::{AllocError, Global};
use std::mem;

/// The maximum number of identities to compare with all those of the site.
// A long script may name an unknown point in each line, and a site may have 1,000 points.
const MAX_HINTS: u32 = 1_000;

/// The findings so far, and the current line. After a failed allocation findings may be missing,
/// and `take_findings` returns the error.
// A `?` after each finding would have the same effect. But each adds a return to the proof, with
// all values that are dropped there.
#[derive(Drop)]
pub(crate) struct Report {
    pub alloc: Global,
    findings: Vec<Finding>,
    /// The number of the current line, counted from 1; 0 before the first.
    line: u64,
    /// The number of identities that may still be compared with all those of the site.
    hints: u32,
    /// Whether an allocation failed.
    is_short: bool,
}

impl Report {
    /// Begins the findings of `check` or `call` in the messages of a script or a journal, or in one
    /// to be sent, without any.
    pub(crate) fn new(alloc: Global) -> Report {
        Report {
            alloc,
            findings: Vec::new(alloc),
            line: 0,
            hints: MAX_HINTS,
            is_short: false,
        }
    }

    /// Takes the findings of `check` or `call` so far, in a script, a journal or a message to be
    /// sent, unless an allocation failed.
    pub(crate) fn take_findings(&mut self) -> Result<Vec<Finding>, AllocError> {
        if self.is_short {
            return Err(AllocError);
        }
        Ok(mem::replace(&mut self.findings, Vec::new(self.alloc)))
    }

    /// Notes that an allocation failed elsewhere for a finding of `check` or `call` in a script, a
    /// journal or a message to be sent.
    pub(crate) fn fail(&mut self) {
        self.is_short = true;
    }

    /// Sets the line of a script or a journal, by its number, on which the next findings of `check`
    /// or `call` are.
    pub(crate) fn go_to(&mut self, line: u64) {
        self.line = line;
    }

    /// Returns whether one more unknown identity in a script may be compared with all those of the
    /// site, and counts it. `check` then hints at a similar one.
    pub(crate) fn takes_hint(&mut self) -> bool {
        if self.hints == 0 {
            return false;
        }
        self.hints -= 1;
        true
    }

    /// Adds a fault in a message to the findings of `check` or `call`, on the current line of the
    /// script or the journal.
    pub(crate) fn fault(&mut self, message: Result<String, AllocError>) {
        self.add(Severity::Fault, message);
    }

    /// Adds a warning of a message to the findings of `check` or `call`, on the current line of the
    /// script or the journal.
    pub(crate) fn warn(&mut self, message: Result<String, AllocError>) {
        self.add(Severity::Warning, message);
    }

    /// Adds a warning of a charging profile in a message to the findings of `check` in a script or
    /// of `call`. It names the purpose and the chargingProfileId.
    pub(crate) fn warn_of(
        &mut self,
        purpose: Purpose,
        id: i32,
        message: Result<String, AllocError>,
    ) {
        match message {
            Ok(message) => self.warn_text_of(purpose, id, message.as_str()),
            Err(AllocError) => self.fail(),
        }
    }

    /// Adds a warning of a charging profile in a message to the findings of `check` in a script or
    /// of `call`. Does so like `warn_of`, with a copy of this text about the profile.
    pub(crate) fn warn_text_of(&mut self, purpose: Purpose, id: i32, message: &str) {
        let purpose = purpose_name(purpose);
        self.warn(format!(in self.alloc; "{purpose} {id}: {message}"));
    }

    /// Adds a remark on a message to the findings of `check` or `call`, on the current line of the
    /// script or the journal.
    pub(crate) fn remark(&mut self, message: Result<String, AllocError>) {
        self.add(Severity::Remark, message);
    }

    /// Adds a warning of a message to the findings of `check` or `call`, with a copy of this text.
    /// It is on the current line of the script or the journal.
    pub(crate) fn warn_text(&mut self, message: &str) {
        self.warn(String::from_str(self.alloc, message));
    }

    /// Adds a finding in a message to those of `check` or `call`, on the current line of the script
    /// or the journal. A failed allocation of its text counts as one of the report.
    fn add(&mut self, severity: Severity, message: Result<String, AllocError>) {
        let Ok(message) = message else {
            return self.fail();
        };
        let finding = Finding {
            severity,
            place: Location::line(self.line),
            message,
        };
        if self.findings.push(finding).is_err() {
            self.fail();
        }
    }
}
