//! Checks the history of a site, line by line of a script or event by event of a journal.

use findings::{Finding, name_point};
use message_findings::{ScriptCheck, check_printed};
use profile_findings::{ProfileChange, check_change, check_installed_profiles};
use replay::PlayedLine;
use site_core::Machine;
use site_history::{Event, EventKind, SiteRows, change_in, message_in};
use std::alloc::{AllocError, Global};

/// A check of a site's history, with the findings that weren't taken yet.
#[derive(Drop)]
pub(crate) struct HistoryCheck {
    alloc: Global,
    messages: ScriptCheck,
    rows: SiteRows,
    /// The findings in messages, in the answers to them, and in changes of profiles.
    in_messages: Vec<Finding>,
    in_answers: Vec<Finding>,
    in_changes: Vec<Finding>,
}

impl HistoryCheck {
    /// Begins to collect the findings of `check` in a script or a journal, or of `call` in the
    /// calls to be sent. The points have these profiles before.
    pub(crate) fn begin(alloc: Global, rows: SiteRows) -> HistoryCheck {
        HistoryCheck {
            alloc,
            messages: ScriptCheck::new(alloc),
            rows,
            in_messages: Vec::new(alloc),
            in_answers: Vec::new(alloc),
            in_changes: Vec::new(alloc),
        }
    }

    /// Collects the findings of `check` or `call` in the script's line played last, given the state
    /// after it.
    pub(crate) fn check_line(
        &mut self,
        machine: &Machine,
        played: &PlayedLine<'_>,
    ) -> Result<(), AllocError> {
        let alloc = self.alloc;
        let mut in_message = self.messages.check_line(machine, played)?;
        let printed = played.outcome.printed.as_slice();
        let mut in_answer = check_printed(alloc, played.number, printed)?;
        // A hint on a mistyped identity names the point that it means.
        if let Some(sent) = message_in(played) {
            if machine.site().place_of(sent.point()).is_some() {
                name_point(alloc, &mut in_message, sent.point())?;
                name_point(alloc, &mut in_answer, sent.point())?;
            }
        }
        self.in_messages.append(&mut in_message)?;
        self.in_answers.append(&mut in_answer)?;
        match change_in(played) {
            Some(event) => self.check_change(machine, &event),
            None => Ok(()),
        }
    }

    /// Collects the findings of `check` in an event of a journal, given the state after it.
    pub(crate) fn check_event(
        &mut self,
        machine: &Machine,
        event: &Event<'_>,
    ) -> Result<(), AllocError> {
        let mut in_message = self.messages.check_event(machine, event)?;
        name_point(self.alloc, &mut in_message, event.point)?;
        self.in_messages.append(&mut in_message)?;
        self.check_change(machine, event)
    }

    /// Adds to the findings that `check` or `call` collects, event by event, those in the change
    /// that an event made to its point's profiles.
    fn check_change(&mut self, machine: &Machine, event: &Event<'_>) -> Result<(), AllocError> {
        let Some(changed) = self.rows.read(machine, event)? else {
            return Ok(());
        };
        let EventKind::Message { frame, .. } = event.kind else {
            return Ok(());
        };
        let change = ProfileChange {
            number: event.line,
            frame,
            came: changed.came,
            gone: changed.gone.as_slice(),
        };
        let mut in_change = check_change(self.alloc, &change)?;
        name_point(self.alloc, &mut in_change, event.point)?;
        self.in_changes.append(&mut in_change)
    }

    /// Adds to the findings of `check` remarks on raised fuse limits or on requests still held.
    /// They follow the findings in answers so far.
    pub(crate) fn add(&mut self, mut findings: Vec<Finding>) -> Result<(), AllocError> {
        self.in_answers.append(&mut findings)
    }

    /// Takes the findings in the lines so far, for `check` or `call`: first all in messages, then
    /// those in answers, and those in changes of profiles.
    pub(crate) fn take_findings(&mut self) -> Result<Vec<Finding>, AllocError> {
        let mut findings = Vec::new(self.alloc);
        findings.append(&mut self.in_messages)?;
        findings.append(&mut self.in_answers)?;
        findings.append(&mut self.in_changes)?;
        Ok(findings)
    }
}

/// Returns the findings in the profiles of the point of this identity. `check` collects them for
/// each point of the site at the end, `call` before and after a call.
pub(crate) fn find_at_point(
    alloc: Global,
    machine: &Machine,
    point: &str,
) -> Result<Vec<Finding>, AllocError> {
    match machine.book_of(point) {
        Some(book) => check_installed_profiles(alloc, machine.site().unit(), point, book),
        None => Ok(Vec::new(alloc)),
    }
}
