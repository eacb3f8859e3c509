//! The player of a script: the central system's machine, the held requests, and the memory for
//! reading messages.

ghost use Rattle.std.specs.Prelude.{◌≡◌, ◌∷◌, [], ◌++◌, None, IfOk, OnOk};
ghost use Rattle.site_core.specs.declared.step.Step.TheVariants as steps;
ghost use Rattle.texts.specs.Asked.{hold_of, asked_of};
ghost use Rattle.texts.specs.Said.{said_of};
ghost use Rattle.replay.specs.Held.{id_held, remove_held};
ghost use Rattle.replay.specs.MachineSteps.{stepped_exactly, handed_out, stepped_at_once, attached_once, sent_first, replied_by, verdict_kept, judged_exactly};
ghost use Rattle.replay.specs.ByCases.MachineSteps.{IsAsked};

use crate::player::held::{Held, remove_held};
use crate::player::machine_steps::{
    StepOutcome, attach_once, confirm_call, hand_out, judge_exactly, keep_verdict, send_first,
    skim_take, step_at_once, step_exactly,
};
use crate::player::wanted::NeededResult;
use messages::Call;
use ocppj_frame::{MessageId, ReadingMemory};
use site_core::{Machine, PointId, Step, Take};
use site_rules::Site;
use std::alloc::{AllocError, Global};
use std::marker::Model;
use sweep_compiler::AuditJob;
use texts::{Asked, SentText, Unread, asked_of, hold_of, said_of};

/// The player of a script.
#[derive(Drop)]
pub struct Player {
    alloc: Global,
    machine: Machine,
    /// The held requests, in the order of their lines.
    held: Vec<Held>,
    /// The memory that messages are read into.
    memory: ReadingMemory,
}

impl Model for Player {
    ghost use Rattle.replay.specs.Player.{PlayerState};

    ghost Value = { PlayerState };

    ghost view = { λ p. record {
      machine = p.machine;
      held = p.held.items;
    } };
}

impl Player {
    ghost use Rattle.replay.specs.Player.{first_state, state_with, with_machine};
    ghost use Rattle.replay.specs.ByCases.Player.{ComesTo, Skims, Sends};

    /// Makes a player for a site, before the first line of a script.
    pub fn new(alloc: Global, site: Site) -> Result<Player, AllocError>
        ensures { IfOk result (λ player. player ≡ first_state site) }
    {
        Ok(Player::with_machine(alloc, Machine::new(alloc, site)?))
    }

    /// Makes a player for a site in this state, before the first line of a script.
    pub fn with_machine(alloc: Global, machine: Machine) -> Player
        ensures { result ≡ state_with machine }
    {
        Player {
            alloc,
            machine,
            held: Vec::new(alloc),
            memory: ReadingMemory::new(alloc),
        }
    }

    /// Returns the allocator.
    pub fn alloc(&self) -> Global {
        self.alloc
    }

    /// Returns the site.
    pub fn site(&self) -> &Site
        ensures { result.now ≡ self.now.machine.site }
    {
        self.machine.site()
    }

    /// Returns the central system's machine.
    pub fn machine(&self) -> &Machine
        ensures { result.now ≡ self.now.machine }
    {
        &self.machine
    }

    /// Returns the held requests.
    pub fn held(&self) -> &[Held]
        ensures { result.now ≡ self.now.held }
    {
        self.held.as_slice()
    }

    /// Reads a message, and returns its request.
    pub fn asked_of(&mut self, text: &SentText<'_>) -> Result<Asked, AllocError>
        ensures asked { IfOk result (λ asked. asked ≡ asked_of text.now) }
        ensures same { self.new ≡ self.old }
    {
        match asked_of(self.alloc, &mut self.memory, text) {
            Ok(asked) => Ok(asked),
            Err(Unread { .. }) => Err(AllocError),
        }
    }

    /// Reads a held message, and returns its request, or `None` if the message isn't a CALL of
    /// GetCompositeSchedule.
    pub fn hold_of(&mut self, text: &SentText<'_>) -> Result<Option<Asked>, AllocError>
        ensures asked { IfOk result (λ asked. asked ≡ hold_of text.now) }
        ensures same { self.new ≡ self.old }
    {
        match hold_of(self.alloc, &mut self.memory, text) {
            Ok(asked) => Ok(asked),
            Err(Unread { .. }) => Err(AllocError),
        }
    }

    /// Makes a step that a message requests.
    pub fn step(&mut self, step: Step) -> Result<StepOutcome, AllocError>
        requires { IsAsked step }
        ensures { IfOk result
            (λ outcome. ComesTo self.old (stepped_exactly self.old.machine step) outcome self.new) }
    {
        step_exactly(&mut self.machine, step)
    }

    /// Makes a step that a message requests. If it takes a request, answers that at once.
    pub fn step_at_once(&mut self, step: Step) -> Result<StepOutcome, AllocError>
        requires { IsAsked step }
        ensures { IfOk result
            (λ outcome. ComesTo self.old (stepped_at_once self.old.machine step) outcome self.new) }
    {
        step_at_once(&mut self.machine, step)
    }

    /// Makes a Take and answers its request at once, as far as its answer is wanted. If the answer
    /// makes no difference, compiles only the schedule of the first second.
    pub fn skim_take(&mut self, take: Take, wanted: NeededResult) -> Result<StepOutcome, AllocError>
        ensures { IfOk result (λ outcome. Skims self.old
            (stepped_at_once self.old.machine (steps.Take take)) outcome self.new) }
    {
        skim_take(&mut self.machine, take, wanted)
    }

    /// Compiles and answers the request of a number.
    pub fn hand_out(&mut self, number: u64) -> Result<StepOutcome, AllocError>
        ensures { IfOk result
            (λ outcome. ComesTo self.old (handed_out self.old.machine number) outcome self.new) }
    {
        hand_out(&mut self.machine, number)
    }

    /// Gives a point a link if it has none.
    pub fn attach_once(&mut self, point: &str) -> Result<(), AllocError>
        ensures { OnOk result
            (self.new ≡ with_machine self.old (attached_once self.old.machine point.now)) }
    {
        attach_once(self.alloc, &mut self.machine, point)
    }

    /// Sends the first waiting call of a point over its link. Returns that call, if one goes out.
    pub fn send_first(&mut self, point: &str) -> Result<Option<Call>, AllocError>
        ensures { IfOk result
            (λ call. Sends self.old (sent_first self.old.machine point.now) call self.new) }
    {
        send_first(self.alloc, &mut self.machine, point)
    }

    /// Confirms the call of a number to a point, if it is in flight, after the message with which
    /// the point replied to it. If it is the call of the point's audit, judges the message and
    /// keeps the verdict.
    pub fn reply_to_call(
        &mut self,
        text: &SentText<'_>,
        point: PointId,
        call: u64,
        accepted: bool,
    ) -> Result<StepOutcome, AllocError>
        ensures { IfOk result (λ outcome. ComesTo self.old
            (replied_by self.old.machine text.now point call accepted) outcome self.new) }
    {
        match self.machine.audit_job(point.as_str(), call) {
            Ok(None) => {
                let outcome = confirm_call(&mut self.machine, point, call, accepted)?;
                Ok(outcome)
            }
            Ok(Some(job)) => {
                let audited = point.copy(self.alloc)?;
                let outcome = confirm_call(&mut self.machine, point, call, accepted)?;
                if outcome.is_ok() {
                    self.judge_reply(text, audited, call, job)?;
                }
                Ok(outcome)
            }
            Err(_) => Err(AllocError),
        }
    }

    /// Judges a message of a replayed script as a point's reply to its audit by
    /// GetCompositeSchedule, and keeps the verdict.
    fn judge_reply(
        &mut self,
        text: &SentText<'_>,
        point: PointId,
        call: u64,
        job: AuditJob,
    ) -> Result<(), AllocError>
        ensures { OnOk result (self.new ≡ with_machine self.old (verdict_kept self.old.machine
            point call (judged_exactly job (said_of text.now)))) }
    {
        let said = said_of(self.alloc, &mut self.memory, text)?;
        let judged = judge_exactly(self.alloc, job, said)?;
        keep_verdict(&mut self.machine, point, call, judged)
    }

    /// Holds a request.
    pub fn hold(&mut self, held: Held) -> Result<(), AllocError>
        ensures { OnOk result (self.new ≡ record self.old { held = self.old.held ++ held ∷ [] }) }
    {
        self.held.push(held)?;
        Ok(())
    }

    /// Releases the held request of a number, if there is one. Returns the id of its CALL.
    pub fn remove_held(&mut self, number: u64) -> Option<MessageId>
        ensures id { result ≡ id_held number self.old.held }
        ensures after { self.new ≡ record self.old { held = remove_held number self.old.held } }
        ensures kept { result ≡ None → self.new ≡ self.old }
    {
        remove_held(&mut self.held, number)
    }
}
