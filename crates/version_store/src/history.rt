//! The stored history, without sessions.

ghost use Rattle.std.specs.Prelude.{◌≡◌, ◌<◌, ◌≤◌, None, Ok, IfOk, IfErr, true, false, length};
ghost use Rattle.site_core.specs.declared.step.Step.{Step};
ghost use Rattle.site_core.specs.declared.step.Step.TheVariants as steps;
ghost use Rattle.site_core.specs.declared.reply.Reply.{Reply};
ghost use Rattle.site_core.specs.Step.{HasAskedConnector, is_reply_to, outlook};
ghost use Rattle.site_core.specs.Requests.{request_of};
ghost use Rattle.site_core.specs.Post.{IsRefusedPost};
ghost use Rattle.version_store.specs.Passes.{no_totals, totals_after};
ghost use Rattle.version_store.specs.Answers.{HandsOutRight};
ghost use Rattle.version_store.specs.Limits.{fold_from};
ghost use Rattle.version_store.specs.Store.{IsStore, opening_store, may_fold};
ghost use Rattle.version_store.specs.Calls.{Adds, RepliesAlone, Makes, IsRefusalOf, PostsTo, event_alone};

use crate::folded::{EventRoom, Folded};
use crate::laws::machine_laws;
use crate::stored_event::StoredEvent;
use crate::totals::Totals;
use ocpp_scalars::Refusal;
use site_core::{Machine, Refused, Reply, Step};
use site_rules::Site;
use std::alloc::{AllocError, Global};
use std::marker::Model;
use std::mem::replace;
use sweep_compiler::Compiled;

/// With this many events or more, a call that adds one folds the history first.
const FOLD_FROM: usize = 3_900;

/// The state of the central system with the history that led to it.
#[derive(Drop)]
pub(crate) struct History {
    alloc: Global,
    /// The state that the stored events begin with.
    base: Machine,
    /// The numbers of changes and answers until then.
    based: Totals,
    events: Vec<StoredEvent>,
    present: Machine,
    made: Totals,
    /// The remains of the last fold, until they are taken.
    folded: Option<Folded>,
    /// The memory for the events after the next fold, once it was given back.
    spare: Option<EventRoom>,
}

impl Model for History {
    ghost use Rattle.std.specs.Prelude.{◌≤◌, vec_capacity};
    ghost use Rattle.version_store.specs.Passes.{no_totals, totals_after};
    ghost use Rattle.version_store.specs.Answers.{HandsOutRight};
    ghost use Rattle.version_store.specs.Limits.{room};
    ghost use Rattle.version_store.specs.Store.{StoreState, IsStore, HasRoom};

    ghost Value = { StoreState };

    ghost view = { λ h. record {
      base = h.base;
      based = h.based;
      events = h.events.items;
      present = h.present;
      made = h.made;
    } };

    ghost invariant = { λ h. IsStore (record {
      base = h.base;
      based = h.based;
      events = h.events.items;
      present = h.present;
      made = h.made;
    }) × HasRoom (record {
      base = h.base;
      based = h.based;
      events = h.events.items;
      present = h.present;
      made = h.made;
    }) × (room ≤ vec_capacity h.events) };
}

impl History {
    /// Makes the history of a site at its opening.
    pub fn new(alloc: Global, site: Site) -> Result<History, AllocError>
        ensures { IfOk result (λ history. history ≡ opening_store site) }
    {
        // This and other calls of `machine_laws` do nothing at run time: proofs need their clauses.
        machine_laws();
        let present = Machine::new(alloc, site)?;
        let base = present.copy()?;
        Ok(History {
            alloc,
            base,
            based: Totals::none(),
            events: EventRoom::new(alloc)?.into_events(),
            present,
            made: Totals::none(),
            folded: None,
            spare: None,
        })
    }

    pub fn base(&self) -> &Machine
        ensures { result.now ≡ self.now.base }
    {
        &self.base
    }

    pub fn events(&self) -> &[StoredEvent]
        ensures value { result.now ≡ self.now.events }
        ensures store { IsStore self.now }
    {
        self.events.as_slice()
    }

    pub fn present(&self) -> &Machine
        ensures { result.now ≡ self.now.present }
    {
        &self.present
    }

    pub fn made(&self) -> Totals
        ensures { result ≡ self.now.made }
    {
        self.made
    }

    /// Takes the remains of the last fold, if they weren't taken yet.
    pub fn take_folded(&mut self) -> Option<Folded>
        ensures { self.new ≡ self.old }
    {
        self.folded.take()
    }

    /// Gives memory of events back for the next fold.
    pub fn give_room(&mut self, room: EventRoom)
        ensures { self.new ≡ self.old }
    {
        self.spare = Some(room);
    }

    /// Makes a step that brings no answer, and adds it if it is an event. On a refusal the step
    /// comes back.
    pub fn make(&mut self, step: Step) -> Result<Reply, Refused>
        requires { may_fold step ≡ true }
        ensures makes { IfOk result (λ reply. Makes self.old step reply self.new) }
        ensures own { IfOk result (λ reply. is_reply_to step reply ≡ true) }
        ensures asked { IfOk result HasAskedConnector }
        ensures counts { IfOk result (λ reply. self.new.made ≡ totals_after self.old.made reply) }
        ensures refusal { IfErr result (λ refused. IsRefusalOf self.old step refused.refusal) }
        ensures kept { IfErr result (λ refused. self.new ≡ self.old) }
        ensures back { IfErr result (λ refused. refused.step ≡ step) }
    {
        if self.events.len() < FOLD_FROM {
            return self.make_without_fold(step);
        }
        // Only an event folds: a refused step must change nothing, and an answer alone takes no
        // memory.
        match self.present.outlook(&step) {
            Ok(true) => {
                self.gather_calls();
                self.make_folded(step)
            }
            Ok(false) => Ok(self.make_non_event(step)),
            Err(refusal) => Err(Refused { refusal, step }),
        }
    }

    /// Gathers the calls to each charge point before a fold of the book's history, so that the new
    /// base shares them.
    // Calls that were gathered once are shared, so that later folds don't copy them again.
    fn gather_calls(&mut self)
        ensures { self.new ≡ self.old }
    {
        self.present.gather_calls();
    }

    /// Makes a step of the central system. Adds it to the book's history, which has room for it, if
    /// it is an event.
    fn make_without_fold(&mut self, step: Step) -> Result<Reply, Refused>
        requires can_fold { may_fold step ≡ true }
        requires few { length self.old.events < fold_from }
        ensures makes { IfOk result (λ reply. Makes self.old step reply self.new) }
        ensures own { IfOk result (λ reply. is_reply_to step reply ≡ true) }
        ensures asked { IfOk result HasAskedConnector }
        ensures counts { IfOk result (λ reply. self.new.made ≡ totals_after self.old.made reply) }
        ensures refusal { IfErr result (λ refused. IsRefusalOf self.old step refused.refusal) }
        ensures kept { IfErr result (λ refused. self.new ≡ self.old) }
        ensures back { IfErr result (λ refused. refused.step ≡ step) }
    {
        machine_laws();
        let was_stopped = self.present.is_stopped();
        let reply = match self.present.make(&step) {
            Ok(reply) => reply,
            Err(refusal) => return Err(Refused { refusal, step }),
        };
        if !reply.is_event(was_stopped) {
            return Ok(reply);
        }
        // Called here and below only for its clause: the state is a machine's.
        self.present.open_requests();
        self.made = self.made.after(&reply);
        self.events.push_reserved(StoredEvent::alone(step));
        Ok(reply)
    }

    /// Makes a step of the central system that isn't an event, so that it adds none to the book's
    /// history.
    fn make_non_event(&mut self, step: Step) -> Reply
        requires can_fold { may_fold step ≡ true }
        requires no_event { outlook self.old.present step ≡ Ok false }
        ensures replies { RepliesAlone self.old step result self.new }
        ensures own { is_reply_to step result ≡ true }
        ensures asked { HasAskedConnector result }
        ensures counts { no_totals ≡ totals_after no_totals result }
    {
        machine_laws();
        match self.present.step(step) {
            Ok(reply) => reply,
            Err(_) => unreachable!(),
        }
    }

    /// Folds the book's history, so that its base is the central system's present state, makes a
    /// step, and adds its event.
    fn make_folded(&mut self, step: Step) -> Result<Reply, Refused>
        requires can_fold { may_fold step ≡ true }
        requires added { outlook self.old.present step ≡ Ok true }
        requires many { fold_from ≤ length self.old.events }
        ensures adds { IfOk result (λ reply. Adds self.old (event_alone step) reply self.new) }
        ensures own { IfOk result (λ reply. is_reply_to step reply ≡ true) }
        ensures asked { IfOk result HasAskedConnector }
        ensures refusal { IfErr result (λ refused. refused.refusal ≡ Refusal.OutOfMemory) }
        ensures kept { IfErr result (λ refused. self.new ≡ self.old) }
        ensures back { IfErr result (λ refused. refused.step ≡ step) }
    {
        machine_laws();
        // The base is the state before the step, which is the first event after the fold. The
        // fold's memory comes first, since a step that was made can't be taken back.
        let Ok(base) = self.present.copy() else {
            return Err(without_memory(step));
        };
        let Ok(room) = EventRoom::take(&mut self.spare, self.alloc) else {
            return Err(without_memory(step));
        };
        let reply = match self.present.make(&step) {
            Ok(reply) => reply,
            Err(refusal) => {
                // The memory stays for the next fold.
                self.spare = Some(room);
                return Err(Refused { refusal, step });
            }
        };
        self.present.open_requests();
        let old_base = replace(&mut self.base, base);
        let old_events = replace(&mut self.events, room.into_events());
        // Kept to be dropped without the book's lock, which this call runs under.
        self.folded = Some(Folded::new(old_base, old_events));
        self.based = self.made;
        self.made = self.made.after(&reply);
        self.events.push_reserved(StoredEvent::alone(step));
        Ok(reply)
    }

    /// Compiles the request of a number with a brought answer, and adds the event. On a refusal the
    /// answer comes back.
    pub fn post(&mut self, number: u64, brought: Compiled) -> Result<(), (Refusal, Compiled)>
        ensures posts { IfOk result (λ _. PostsTo self.old number brought self.new) }
        ensures refused { IfErr result (λ refused.
            IsRefusedPost (request_of number self.old.present.requests) brought refused.0) }
        ensures kept { IfErr result (λ refused. self.new ≡ self.old) }
        ensures back { IfErr result (λ refused. refused.1 ≡ brought) }
    {
        machine_laws();
        let again = self.present.post(number, brought)?;
        self.present.open_requests();
        self.events
            .push_reserved(StoredEvent::compiled(number, again));
        Ok(())
    }

    /// Hands out the answer to the request of a number, and adds the event if there is one.
    pub fn hand_out(&mut self, number: u64) -> Result<Reply, Refusal>
        ensures makes { IfOk result (λ reply. Makes self.old (steps.Answer number) reply self.new) }
        ensures own { IfOk result (λ reply. is_reply_to (steps.Answer number) reply ≡ true) }
        ensures right { IfOk result HandsOutRight }
        ensures counts { IfOk result (λ reply. self.new.made ≡ totals_after self.old.made reply) }
        ensures refused { IfErr result (λ refusal.
            (refusal ≡ Refusal.UnknownRequest)
            × (request_of number self.old.present.requests ≡ None)) }
        ensures kept { IfErr result (λ refusal. self.new ≡ self.old) }
    {
        machine_laws();
        let reply = match self.present.step(Step::Answer(number)) {
            Ok(reply) => reply,
            Err(refused) => return Err(refused.refusal),
        };
        let Reply::Answered { .. } = &reply else {
            return Ok(reply);
        };
        self.present.open_requests();
        self.made = self.made.after(&reply);
        self.events
            .push_reserved(StoredEvent::alone(Step::Answer(number)));
        Ok(reply)
    }

    /// Stops the central system, and adds the event if it wasn't stopped.
    pub fn finish(&mut self)
        ensures { Makes self.old steps.Finish Reply.Finished self.new }
    {
        machine_laws();
        if self.present.is_stopped() {
            return;
        }
        let Ok(_finished) = self.present.step(Step::Finish) else {
            unreachable!()
        };
        self.present.open_requests();
        self.events.push_reserved(StoredEvent::alone(Step::Finish));
    }
}

/// Returns the refusal `OutOfMemory` of a step for which the book's history can't be folded, with
/// the step.
fn without_memory(step: Step) -> Refused
    ensures refusal { result.refusal ≡ Refusal.OutOfMemory }
    ensures step { result.step ≡ step }
{
    Refused {
        refusal: Refusal::OutOfMemory,
        step,
    }
}
