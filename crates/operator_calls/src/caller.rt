//! Decides which of an operator's messages are sent, and reports their faults.

ghost use Rattle.std.specs.Prelude.{◌≡◌, ◌||◌, not, IfOk};
ghost use Rattle.findings.specs.ExitStatus.{has_fault};

use crate::given_call::GivenCall;
use crate::later_changes::LaterChange;
use crate::shared_warnings::SharedWarnings;
use crate::undo::UNDO;
use client_lines::ClientFault;
use findings::{Finding, Severity, has_fault};
use message_findings::{SentCheck, answer_sentence, check_sent, json_break};
use std::alloc::{AllocError, AllocGlobal};
use std::fmt::Display;

/// The exit status if something wasn't sent or wasn't accepted.
const REFUSED: u8 = 2;

/// The exit status if the connection to a point's operator failed.
const FAILED: u8 = 3;

/// The options for sending messages.
#[derive(Drop)]
pub struct SendOptions<'a> {
    /// The operator's URL, without an identity if points are called by theirs.
    pub url: &'a str,
    /// The name and the key for authentication, if any.
    pub login: Option<String>,
    /// Whether messages with a fault are sent too.
    pub force: bool,
    /// Whether nothing is sent, and the messages are printed instead.
    pub dry_run: bool,
}

/// A sender of messages, with the exit status by their outcomes so far.
#[derive(Drop)]
pub struct Caller<'a, R> {
    pub rt: &'a R,
    pub sending: SendOptions<'a>,
    status: u8,
}

impl<'a, R: Print + Eprint + AllocGlobal> Caller<'a, R> {
    pub fn new(rt: &'a R, sending: SendOptions<'a>) -> Caller<'a, R> {
        Caller {
            rt,
            sending,
            status: 0,
        }
    }

    /// Returns the exit status by the outcomes so far.
    pub fn status(&self) -> u8 {
        self.status
    }

    /// Returns the calls that are to be sent. Reports the findings in each.
    pub fn passed(&mut self, calls: Vec<GivenCall>) -> Result<Vec<GivenCall>, ClientFault> {
        let mut passed = Vec::new(self.rt.alloc());
        for call in calls {
            if self.passes_given(&call)? {
                passed.push(call)?;
            }
        }
        Ok(passed)
    }

    /// Returns whether `call` is to send the message that the operator gave by an option. Text that
    /// isn't JSON by itself is reported to the operator and isn't sent.
    // The break's place is in the text that the operator wrote, not in the frame built of it.
    fn passes_given(&mut self, call: &GivenCall) -> Result<bool, ClientFault> {
        let name = call.name;
        if let Some(given) = &call.given {
            if let Some(fault) = json_break(self.rt.alloc(), given.as_str())? {
                self.say(format!(in self.rt.alloc(); "{name}: {fault}")?);
                self.report(name, "NotACall")?;
                return Ok(false);
            }
        }
        self.passes(name, call.frame.as_str())
    }

    /// Returns whether a message is to be sent. Reports its findings by this name.
    pub fn passes<N: Display + Copy + Drop>(
        &mut self,
        name: N,
        text: &str,
    ) -> Result<bool, ClientFault> {
        let checked = check_sent(self.rt.alloc(), text)?;
        self.say_of(name, &checked)?;
        if checked.no_call.is_some() {
            self.report(name, "NotACall")?;
            return Ok(false);
        }
        // Not even `--force` sends this: it would remove fuse limits too, which is hardly intended.
        if checked.clears_by_mistake {
            self.report(name, "NoCriterion")?;
            return Ok(false);
        }
        self.passes_with("", name, checked.findings.as_slice())
    }

    /// Returns whether the call of an option is to be sent to a point, by these findings. Reports
    /// them. If the URL lacks the point's identity, faults are reported with it, and the others are
    /// added to those that points share.
    pub fn passes_at(
        &mut self,
        point: Option<&str>,
        call: &GivenCall,
        findings: &[Finding],
        shared: &mut SharedWarnings,
    ) -> Result<bool, ClientFault>
        ensures sent { IfOk result (λ is_sent.
            is_sent ≡ (self.old.sending.force || not (has_fault findings.now))) }
    {
        let label = self.label_of(point)?;
        match point {
            Some(point) => {
                self.say_faults(label.as_str(), call.name, findings)?;
                shared.add(point, call.name, findings)?;
            }
            None => self.say_findings("", call.name, findings)?,
        }
        self.passes_with(label.as_str(), call.name, findings)
    }

    /// Reports the warnings that points share, each once.
    pub fn say_shared(&self, shared: &SharedWarnings) -> Result<(), ClientFault> {
        for line in shared.lines()? {
            self.say(line);
        }
        Ok(())
    }

    /// Returns whether `call` is to send an operator's message with these findings. If not, prints
    /// the reason to standard error.
    fn passes_with<N: Display + Copy + Drop>(
        &mut self,
        label: &str,
        name: N,
        findings: &[Finding],
    ) -> Result<bool, ClientFault>
        ensures sent { IfOk result (λ is_sent.
            is_sent ≡ (self.old.sending.force || not (has_fault findings.now))) }
    {
        if self.sending.force || !has_fault(findings) {
            return Ok(true);
        }
        let why = "it would be refused, so it isn't sent; --force sends it";
        self.say(format!(in self.rt.alloc(); "{label}{name}: {why}")?);
        self.note_refused();
        self.print(format!(in self.rt.alloc(); "{label}! {name} HasFault")?)?;
        Ok(false)
    }

    /// Returns whether an undo that reverts these later changes too is to be sent to a point.
    /// Reports the changes.
    pub fn passes_undo(
        &mut self,
        point: Option<&str>,
        later: &[LaterChange],
    ) -> Result<bool, ClientFault> {
        let alloc = self.rt.alloc();
        for change in later {
            let sentence = change.sentence(alloc)?;
            self.say(format!(in alloc; "central: {sentence}")?);
        }
        if self.sending.force || later.is_empty() {
            return Ok(true);
        }
        let label = self.label_of(point)?;
        let why = "it would take back later changes too, so it isn't sent; --force sends it";
        self.say(format!(in alloc; "{label}{UNDO}: {why}")?);
        self.note_refused();
        self.print(format!(in alloc; "{label}! {UNDO} LaterChanges")?)?;
        Ok(false)
    }

    /// Returns the beginning of each line about a point: its identity, if the URL lacks it.
    pub fn label_of(&self, point: Option<&str>) -> Result<String, AllocError> {
        match point {
            Some(point) => format!(in self.rt.alloc(); "{point} "),
            None => Ok(String::new(self.rt.alloc())),
        }
    }

    /// Notes and reports that the connection to a point's operator failed. Returns any other fault,
    /// which stops the program.
    pub fn note_failed(&mut self, point: &str, fault: ClientFault) -> Result<(), ClientFault> {
        if !is_of_one_point(fault) {
            return Err(fault);
        }
        self.status = FAILED;
        self.say(format!(in self.rt.alloc(); "central: {point}: {fault}")?);
        Ok(())
    }

    /// Prints the findings in an operator's message to standard error, before it is decided whether
    /// `call` sends the message.
    fn say_of<N: Display + Copy + Drop>(
        &self,
        name: N,
        checked: &SentCheck,
    ) -> Result<(), ClientFault> {
        if let Some(why) = &checked.no_call {
            self.say(format!(in self.rt.alloc(); "{name}: {why}")?);
        }
        self.say_findings("", name, checked.findings.as_slice())
    }

    /// Prints the findings in a message that `call` is to send to standard error, each after the
    /// label of its point and the message's name.
    fn say_findings<N: Display + Copy + Drop>(
        &self,
        label: &str,
        name: N,
        findings: &[Finding],
    ) -> Result<(), ClientFault> {
        let alloc = self.rt.alloc();
        for finding in findings {
            let message = &finding.message;
            let words = match finding.severity {
                Severity::Fault => format!(in alloc; "{label}{name}: {message}")?,
                severity => format!(in alloc; "{label}{name}: {severity}: {message}")?,
            };
            self.say(words);
        }
        Ok(())
    }

    /// Prints the faults in a message that `call` is to send to standard error, each after the
    /// label of its point and the message's name.
    fn say_faults(&self, label: &str, name: &str, findings: &[Finding]) -> Result<(), ClientFault> {
        for finding in findings {
            if let Severity::Fault = finding.severity {
                let message = &finding.message;
                self.say(format!(in self.rt.alloc(); "{label}{name}: {message}")?);
            }
        }
        Ok(())
    }

    /// Notes that a message was refused, and explains its answer.
    pub fn refused<N: Display + Drop>(
        &mut self,
        label: &str,
        name: N,
        answer: &str,
    ) -> Result<(), ClientFault> {
        self.note_refused();
        if let Some(sentence) = answer_sentence(self.rt.alloc(), answer)? {
            self.say(format!(in self.rt.alloc(); "{label}{name}: {sentence}")?);
        }
        Ok(())
    }

    /// Prints the reason why a message isn't sent.
    pub fn report<N: Display + Drop>(&mut self, name: N, why: &str) -> Result<(), ClientFault> {
        self.note_refused();
        self.print(format!(in self.rt.alloc(); "! {name} {why}")?)
    }

    /// Notes, for the exit status of `call`, that an operator's message wasn't sent, or was sent
    /// and refused.
    fn note_refused(&mut self) {
        self.status = self.status.max(REFUSED);
    }

    /// Writes a line to standard error.
    // A failed write is ignored: the answers go to standard output, so none is lost.
    pub fn say(&self, words: String) {
        let _ = self.rt.eprintln(&words);
    }

    /// Prints a line.
    pub fn print(&self, line: String) -> Result<(), ClientFault> {
        match self.rt.println(&line) {
            Ok(()) => Ok(()),
            Err(_) => Err(ClientFault::Write),
        }
    }
}

/// Returns whether a fault of an operator's connection may concern one point only, so that `call`
/// still sends the calls to the other points.
// Any other fault, such as one of standard output, would recur at the other points.
fn is_of_one_point(fault: ClientFault) -> bool {
    matches!(fault, ClientFault::Closed | ClientFault::Socket)
}
