//! Checks the messages of a script or a journal, one by one.

use crate::audit_check::{check_verdict, judged_audit};
use crate::line_hints::mistake_message;
use crate::line_text::{LineMessage, Sender};
use crate::remote_start_check::check_ended_start;
use crate::report::Report;
use crate::sentences::line_sentence;
use crate::starts::{PendingRemoteStarts, StartsChange};
use crate::text_check::check_text;
use findings::{Finding, Location};
use ocppj_frame::ReadingMemory;
use replay::{Held, PlayedLine, ScriptLine, ScriptLineFault};
use site_core::Machine;
use site_history::{Event, EventKind, HeldLine, HeldLines, call_after, change_in};
use std::alloc::{AllocError, Global};
use texts::SentText;

/// A check of the messages of a script or a journal. It finds faults of lines, refused messages,
/// and messages that probably do something unintended. It leaves the refusals that depend on the
/// point's state (`depends_on_state`) to `check_printed`.
#[derive(Drop)]
pub struct ScriptCheck {
    report: Report,
    memory: ReadingMemory,
    starts: PendingRemoteStarts,
}

impl ScriptCheck {
    /// Begins before the first line.
    pub fn new(alloc: Global) -> ScriptCheck {
        ScriptCheck {
            report: Report::new(alloc),
            memory: ReadingMemory::new(alloc),
            starts: PendingRemoteStarts::new(alloc),
        }
    }

    /// Checks the line of a script that was played last, given the state after it. Returns the
    /// findings.
    pub fn check_line(
        &mut self,
        machine: &Machine,
        played: &PlayedLine<'_>,
    ) -> Result<Vec<Finding>, AllocError> {
        self.report.go_to(played.number);
        let site = machine.site();
        match &played.said {
            None => {}
            Some(Ok(ScriptLine::Text(sent))) => self.check_sent(machine, played, sent),
            Some(Ok(ScriptLine::Hold(sent))) => {
                let text = LineMessage {
                    sender: Sender::Hold,
                    ..LineMessage::new(site, played, sent)
                };
                check_text(&mut self.report, &mut self.memory, &text);
            }
            Some(Ok(ScriptLine::Release(number))) => {
                if played.outcome.is_fault {
                    unknown_request(&mut self.report, *number);
                }
            }
            Some(Err(fault)) => {
                let message = mistake_message(&mut self.report, site, played.line, *fault);
                self.report.fault(message);
            }
        }
        self.report.take_findings()
    }

    /// Checks, for `check` or `call`, the message in a line of a script, and the remote start that
    /// ended with it.
    fn check_sent(&mut self, machine: &Machine, played: &PlayedLine<'_>, sent: &SentText<'_>) {
        let text = LineMessage::new(machine.site(), played, sent);
        match change_in(played) {
            Some(event) => self.check_change(machine, &event, text),
            None => check_text(&mut self.report, &mut self.memory, &text),
        }
        if let Some(event) = call_after(played) {
            let _ = self.change_of_starts(machine, &event);
        }
    }

    /// Checks an event of a journal, given the state after it. Returns the findings.
    pub fn check_event(
        &mut self,
        machine: &Machine,
        event: &Event<'_>,
    ) -> Result<Vec<Finding>, AllocError> {
        self.report.go_to(event.line);
        let site = machine.site();
        match event.kind {
            EventKind::Message { sender, frame, .. } => {
                let text = LineMessage::noted(site, event, Sender::of_side(sender), frame);
                self.check_change(machine, event, text);
            }
            EventKind::Reply { frame } => {
                let text = LineMessage {
                    confirms_call: true,
                    ..LineMessage::noted(site, event, Sender::Point, frame)
                };
                self.check_change(machine, event, text);
            }
            EventKind::Verdict => {
                if let Some(audit) = judged_audit(machine, event.point) {
                    check_verdict(&mut self.report, &audit);
                }
            }
            EventKind::Sent { .. } => {
                let _ = self.change_of_starts(machine, event);
            }
        }
        self.report.take_findings()
    }

    /// Checks, for `check` or `call`, a message of a script or a journal that changed something,
    /// and the remote start that ended with it.
    fn check_change(&mut self, machine: &Machine, event: &Event<'_>, text: LineMessage<'_>) {
        let starts = self.change_of_starts(machine, event);
        let audit = match event.kind {
            EventKind::Reply { .. } => judged_audit(machine, event.point),
            _ => None,
        };
        let text = LineMessage {
            audit,
            replies_to: starts.replies_to,
            ..text
        };
        check_text(&mut self.report, &mut self.memory, &text);
        if let Some(ended) = &starts.ended {
            check_ended_start(&mut self.report, ended);
        }
    }

    /// Follows, for the findings of `check` in a script or of `call`, how an event changes the
    /// waiting remote starts of its point. Without memory for that the report fails.
    fn change_of_starts(&mut self, machine: &Machine, event: &Event<'_>) -> StartsChange {
        match self.starts.follow(machine, event) {
            Ok(change) => change,
            Err(AllocError) => {
                self.report.fail();
                StartsChange::none()
            }
        }
    }
}

/// Returns a remark on the line of each request that is still held when the script ends.
pub fn check_held(
    alloc: Global,
    held: &[Held],
    lines: &HeldLines,
) -> Result<Vec<Finding>, AllocError> {
    let mut remarks = Vec::new(alloc);
    for request in held {
        if let Some(line) = lines.line_of(request.number) {
            remarks.push(still_held(alloc, line)?)?;
        }
    }
    Ok(remarks)
}

/// Makes the remark of `check` on a script's line whose request is still held when the script ends.
fn still_held(alloc: Global, line: &HeldLine) -> Result<Finding, AllocError> {
    let number = line.request;
    let place = Location::Line {
        number: line.line,
        point: Some(String::from_str(alloc, line.point.as_str())?),
    };
    let message = format!(in alloc;
        "request {number} is still held when the script ends, and isn't answered"
    )?;
    Ok(Finding::remark(place, message))
}

/// Reports, for `check`, a `release` line of a script with the number of no held request.
fn unknown_request(report: &mut Report, number: u64) {
    let sentence = line_sentence(ScriptLineFault::UnknownRequest);
    report.fault(format!(in report.alloc;
        "UnknownRequest: release {number}: {sentence}; a hold line that takes one prints its number"
    ));
}
