//! A simulated charge point.

ghost use Rattle.std.specs.Prelude.{◌≡◌, ◌++◌, ◌∷◌, [], IfOk, IfErr, OnOk, OnErr, IsNone, IsSome, Some, ◌↔◌, IsTrue, option_map, string_bytes};
ghost use Rattle.std.specs.Str.{bytes_eq};
ghost use Rattle.std.specs.Fmt.{decimal};
ghost use Rattle.ocpp_scalars.specs.declared.refusal.Refusal.{Refusal};
ghost use Rattle.sim_point_core.specs.RemoteStart.{start_kept};
ghost use Rattle.sim_point_core.specs.SimPoint.{new_point, replied, heard, heard_action, heard_request, heard_start, called};

use crate::answer::{AnswerContext, answer_action};
use crate::own_book::OwnBook;
use crate::point_call::{InFlight, first_call, reply_to};
use crate::point_call_text::write_call;
use crate::remote_start::{start_kept, write_status};
use crate::request::{Request, request_of};
use crate::sim_step::SimStep;
use messages::{Action, RemoteStartTransaction, write_response};
use ocpp_scalars::{Instant, Refusal};
use ocppj_frame::ReadingMemory;
use profile::Unit;
use std::alloc::{AllocError, Global};
use std::marker::Model;

/// A simulated charge point: its book, its remaining steps, and its own call that isn't answered
/// yet.
#[derive(Drop)]
pub struct SimPoint {
    alloc: Global,
    memory: ReadingMemory,
    /// The unit of its limits.
    unit: Unit,
    book: OwnBook,
    steps: Vec<SimStep>,
    /// The number of steps that are done.
    place: usize,
    in_flight: Option<InFlight>,
    /// The number of its next call.
    next_number: u64,
}

impl Model for SimPoint {
    ghost use Rattle.std.specs.Prelude.{drop};
    ghost use Rattle.sim_point_core.specs.SimPoint.{SimState};
    ghost use Rattle.sim_point_core.specs.ByCases.Steps.{IsPlace};

    ghost Value = { SimState };

    ghost view = { λ p. record {
      unit = p.unit;
      book = p.book;
      steps = drop p.place p.steps.items;
      in_flight = p.in_flight;
      next_number = p.next_number;
    } };

    ghost invariant = { λ p. IsPlace p.steps.items p.place p.next_number p.book p.in_flight };
}

impl SimPoint {
    /// Makes a point with limits in this unit, a ceiling and the ceilings of its connectors 1, 2,
    /// .., in tenths. It has these steps to do, and no profiles or transactions. More connectors
    /// than fit a `u32` give the error of a failed allocation.
    pub fn try_new(
        alloc: Global,
        unit: Unit,
        ceiling: u32,
        connectors: Vec<u32>,
        steps: Vec<SimStep>,
    ) -> Result<SimPoint, AllocError>
        ensures { IfOk result
            (λ point. point ≡ new_point unit ceiling connectors.items steps.items) }
    {
        let book = OwnBook::try_new(alloc, ceiling, connectors)?;
        Ok(SimPoint {
            alloc,
            memory: ReadingMemory::new(alloc),
            unit,
            book,
            steps,
            place: 0,
            in_flight: None,
            next_number: 0,
        })
    }

    /// Adds a step after the remaining ones. If memory runs out, nothing changes, and the step is
    /// returned.
    pub fn add_step(&mut self, step: SimStep) -> Result<(), (AllocError, SimStep)>
        ensures added { OnOk result
            (self.new ≡ record self.old { steps = self.old.steps ++ step ∷ [] }) }
        ensures unchanged { OnErr result (self.new ≡ self.old) }
        ensures back { IfErr result (λ refused. refused.1 ≡ step) }
    {
        match self.steps.push(step) {
            Ok(()) => Ok(()),
            Err(refused) => Err((AllocError, refused.value)),
        }
    }

    /// Takes a message that the central system sends at a moment (OCPP-J 1.6, 4.2). Returns the
    /// answer, if it has one. A CALL is answered from the point's own book, which a
    /// SetChargingProfile or a ClearChargingProfile changes. An accepted RemoteStartTransaction
    /// becomes the next step. A reply to the point's call in flight ends that call, and may begin
    /// or end a transaction. The refusal is `OutOfMemory`, and then nothing changes.
    pub fn on_text(&mut self, now: Instant, text: &str) -> Result<Option<String>, Refusal>
        ensures heard { IfOk result (λ answer. heard self.old now text.now
            ≡ record { answer = option_map string_bytes answer; after = self.new }) }
        ensures refusal { IfErr result (λ refusal. refusal ≡ Refusal.OutOfMemory) }
        ensures unchanged { OnErr result (self.new ≡ self.old) }
    {
        let request = request_of(self.alloc, &mut self.memory, text)?;
        Ok(self.on_request(now, request)?)
    }

    /// Performs the request of a message to a simulated point, and returns the answer, if it has
    /// one.
    fn on_request(&mut self, now: Instant, request: Request) -> Result<Option<String>, AllocError>
        ensures heard { IfOk result (λ answer. heard_request self.old now request
            ≡ record { answer = option_map string_bytes answer; after = self.new }) }
        ensures unchanged { OnErr result (self.new ≡ self.old) }
    {
        match request {
            Request::Nothing => Ok(None),
            Request::Respond { id, response } => {
                Ok(Some(write_response(self.alloc, id.as_str(), &response)?))
            }
            Request::Act { id, action } => self.on_action(now, id.as_str(), action),
            Request::Reply { id, transaction } => {
                self.on_reply(id.as_str(), transaction)?;
                Ok(None)
            }
        }
    }

    /// Performs an action of the central system's CALL at a simulated point. Returns the message
    /// that answers the CALL of this id.
    fn on_action(
        &mut self,
        now: Instant,
        id: &str,
        action: Action,
    ) -> Result<Option<String>, AllocError>
        ensures heard { IfOk result (λ answer. heard_action self.old now id.now action
            ≡ record { answer = option_map string_bytes answer; after = self.new }) }
        ensures unchanged { OnErr result (self.new ≡ self.old) }
    {
        match action {
            Action::RemoteStartTransaction(request) => Ok(Some(self.on_remote_start(id, request)?)),
            action => {
                let answering = AnswerContext {
                    alloc: self.alloc,
                    unit: self.unit,
                    now,
                };
                Ok(Some(answer_action(answering, &mut self.book, id, action)?))
            }
        }
    }

    /// Keeps a RemoteStartTransaction as the simulated point's next step, or rejects it (chapter
    /// 5.11). Returns the message that answers the CALL of this id.
    fn on_remote_start(
        &mut self,
        id: &str,
        request: RemoteStartTransaction,
    ) -> Result<String, AllocError>
        ensures heard { IfOk result (λ text.
            heard_start self.old id.now (start_kept self.old.unit self.old.book request)
            ≡ record { answer = Some (string_bytes text); after = self.new }) }
        ensures unchanged { OnErr result (self.new ≡ self.old) }
    {
        match start_kept(self.unit, self.book.book(), request) {
            Some(step) => {
                // The message comes first: once the start is kept, nothing can fail.
                let text = write_status(self.alloc, id, true)?;
                self.put_first(step)?;
                Ok(text)
            }
            None => write_status(self.alloc, id, false),
        }
    }

    /// Inserts a step of a simulated point before its remaining ones.
    #[tactic(auto, using(crate::proofs::StepLemmas::drop_insert))]
    fn put_first(&mut self, step: SimStep) -> Result<(), AllocError>
        ensures put { OnOk result (self.new ≡ record self.old { steps = step ∷ self.old.steps }) }
        ensures unchanged { OnErr result (self.new ≡ self.old) }
    {
        match self.steps.insert(self.place, step) {
            Ok(()) => Ok(()),
            Err(_) => Err(AllocError),
        }
    }

    /// Ends the simulated point's call in flight to the central system, if the reply of this id is
    /// for it.
    fn on_reply(&mut self, id: &str, transaction: Option<i32>) -> Result<(), AllocError>
        ensures replied { OnOk result (self.new ≡ replied self.old id.now transaction) }
        ensures unchanged { OnErr result (self.new ≡ self.old) }
    {
        // Taken out, since a start's idTag and profile move into the book.
        match self.in_flight.take() {
            Some(in_flight) if is_id_of(in_flight.number, id) => {
                let number = in_flight.number;
                match reply_to(&mut self.book, in_flight.call, transaction) {
                    Ok(()) => Ok(()),
                    Err(unanswered) => {
                        self.in_flight = Some(InFlight {
                            number,
                            call: unanswered,
                        });
                        Err(AllocError)
                    }
                }
            }
            other => {
                self.in_flight = other;
                Ok(())
            }
        }
    }

    /// Returns the message of the next call that the steps make, which is then in flight. `None` if
    /// a call is in flight, or no remaining step makes one. Its id is its number in decimal, and
    /// `now` its timestamp. The refusal is `OutOfMemory`, and then nothing changes.
    pub fn next_call(&mut self, now: Instant) -> Result<Option<String>, Refusal>
        ensures called { IfOk result (λ text. called self.old now
            ≡ record { text = option_map string_bytes text; after = self.new }) }
        ensures refusal { IfErr result (λ refusal. refusal ≡ Refusal.OutOfMemory) }
        ensures unchanged { OnErr result (self.new ≡ self.old) }
    {
        // OCPP-J allows each side one unanswered CALL (OCPP-J 1.6, 4.1.1).
        if self.in_flight.is_some() {
            return Ok(None);
        }
        let (_, steps) = self.steps.as_slice().split_at(self.place);
        let Some((call, count)) = first_call(self.alloc, &self.book, now, steps)? else {
            self.place = self.steps.len();
            return Ok(None);
        };
        let number = self.next_number;
        let text = write_call(self.alloc, number, &call)?;
        // The state changes only now: a failed allocation above leaves it as it was.
        self.place += count;
        self.in_flight = Some(InFlight { number, call });
        self.next_number = number + 1;
        Ok(Some(text))
    }

    /// Returns whether one of the point's own calls isn't answered yet.
    pub fn is_waiting(&self) -> bool
        ensures { IsTrue result ↔ IsSome self.now.in_flight }
    {
        self.in_flight.is_some()
    }
}

/// Returns whether the id of a reply of the central system is exactly the number of a simulated
/// point's call in decimal.
fn is_id_of(number: u64, id: &str) -> bool
    ensures { result ≡ bytes_eq id.now (decimal number) }
{
    let mut digits = itoa::Buffer::new();
    id == digits.format(number)
}
