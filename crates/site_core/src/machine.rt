//! The machine: the state of the central system, and its one step.

ghost use Rattle.std.specs.Prelude.{◌≡◌, ◌<◌, ◌≤◌, Some, None, IfOk, IfErr, MatchResult, OnOk, Ok, Err, length, option_map};
ghost use Rattle.ocpp_scalars.specs.declared.refusal.Refusal.TheVariants.{OutOfMemory};
ghost use Rattle.site_rules.specs.Site.{place_of};
ghost use Rattle.site_core.specs.State.{AreNumbers, Kept, audit_job, audit_of, book_at, booted_of, link_of, link_to_send, opening, opening_at, outbox_at, outbox_len, profile_state_of, waiting_of};
ghost use Rattle.site_core.specs.Requests.{request_of};
ghost use Rattle.site_core.specs.State.{IsMachine};
ghost use Rattle.site_core.specs.Step.{HasAskedConnector, Steps, IsRefused, IsRefusalOf, outlook, place_for, stepped, no_answer, work};
ghost use Rattle.site_core.specs.Audits.{BringsRight};
ghost use Rattle.site_core.specs.Run.{HasOutcome, Runs};
ghost use Rattle.site_core.specs.ByCases.Made.{IsAtPoint, outlook_by};

mod schedules;

use crate::audit::PointAudit;
use crate::charge_point::ChargePoint;
use crate::charge_points::{copy_of_points, gather_calls, opening_points, point_at};
use crate::decision::Decision;
use crate::deliveries::ProfileState;
use crate::numbers::Numbers;
use crate::outbox::Outbox;
use crate::outcome::{Outcome, Refused, RunFault};
use crate::point_id::PointId;
use crate::reply::Reply;
use crate::request::KeptRequest;
use crate::requests::{compile_outlook, copy_of_requests, hand_out_outlook, request_asked};
use crate::step::Step;
use crate::via::Via;
use crate::waiting_starts::WaitingStart;
use meaning::Ask;
use ocpp_scalars::{Instant, Refusal};
use point_book::PointBook;
use profile::Row;
use site_rules::Site;
use std::alloc::{AllocError, Global};
use std::marker::Model;
use std::sync::Arc;
use sweep_compiler::AuditJob;

/// The central system of a site: the state of each point, the kept requests for schedules, and the
/// numbers that were drawn last.
#[derive(Drop)]
pub struct Machine {
    alloc: Global,
    /// No step changes it, and copies share it.
    site: Arc<Site>,
    numbers: Numbers,
    /// Each at its place in the site file.
    points: Vec<ChargePoint>,
    /// In the order of their numbers.
    requests: Vec<KeptRequest>,
    is_stopped: bool,
}

impl Model for Machine {
    ghost use Rattle.std.specs.Arc.{arc_value};
    ghost use Rattle.site_core.specs.State.{MachineState, IsMachine};

    ghost Value = { MachineState };

    ghost view = { λ m. record {
      site = arc_value m.site;
      numbers = m.numbers;
      points = m.points.items;
      requests = m.requests.items;
      is_stopped = m.is_stopped;
    } };

    ghost invariant = { λ m. IsMachine (record {
      site = arc_value m.site;
      numbers = m.numbers;
      points = m.points.items;
      requests = m.requests.items;
      is_stopped = m.is_stopped;
    }) };
}

impl Machine {
    /// Makes the central system of a site with nothing installed and no number drawn.
    pub fn new(alloc: Global, site: Site) -> Result<Machine, AllocError>
        ensures { IfOk result (λ machine. machine ≡ opening site) }
    {
        let numbers = Numbers {
            version: 0,
            request: 0,
            transaction: 0,
            link: 0,
        };
        Machine::new_at(alloc, site, numbers)
    }

    /// Makes the central system of a site with nothing installed and these numbers drawn last.
    pub fn new_at(alloc: Global, site: Site, numbers: Numbers) -> Result<Machine, AllocError>
        requires { AreNumbers numbers }
        ensures { IfOk result (λ machine. machine ≡ opening_at site numbers) }
    {
        let points = opening_points(alloc, &site)?;
        let site = Arc::new(alloc, site)?;
        Ok(Machine {
            alloc,
            site,
            numbers,
            points,
            requests: Vec::new(alloc),
            is_stopped: false,
        })
    }

    /// Copies the machine, sharing the site, the points' books and the gathered calls.
    pub fn copy(&self) -> Result<Machine, AllocError>
        ensures { IfOk result (λ copy. copy ≡ self.now) }
    {
        Ok(Machine {
            alloc: self.alloc,
            site: Arc::try_clone(&self.site)?,
            numbers: self.numbers,
            points: copy_of_points(self.alloc, &self.points)?,
            requests: copy_of_requests(self.alloc, &self.requests)?,
            is_stopped: self.is_stopped,
        })
    }

    /// Gathers the calls to each point, if memory lasts, so that copies made from then on share
    /// them. Changes nothing else.
    pub fn gather_calls(&mut self)
        ensures { self.new ≡ self.old }
    {
        gather_calls(&mut self.points);
    }

    /// Returns the site.
    pub fn site(&self) -> &Site
        ensures { result.now ≡ self.now.site }
    {
        &self.site
    }

    /// Returns the version of the store: the number at the start, plus the changes of points' books
    /// since.
    pub fn version(&self) -> u64
        ensures { result ≡ self.now.numbers.version }
    {
        self.numbers.version
    }

    /// Returns the number of kept requests for schedules. Also shows the invariant of the central
    /// system: no number is above its limit, no more requests are kept than allowed, and each point
    /// of the site is kept.
    pub fn open_requests(&self) -> usize
        ensures value { result ≡ length self.now.requests }
        ensures machine { IsMachine self.now }
    {
        self.requests.len()
    }

    /// Whether the central system is stopped. Then it makes no more steps except Compile, Answer
    /// and Finish.
    pub fn is_stopped(&self) -> bool
        ensures { result ≡ self.now.is_stopped }
    {
        self.is_stopped
    }

    /// Returns the book of the point of an identity, if the site has such a point.
    pub fn book_of(&self, point: &str) -> Option<&PointBook>
        ensures { option_map (λ book. book.now) result
            ≡ option_map (book_at self.now) (place_of self.now.site point.now) }
    {
        match self.site.place_of(point) {
            Some(place) => Some(point_at(&self.points, place).book()),
            None => None,
        }
    }

    /// Returns the calls to the point of an identity, and the link to it, if the site has such a
    /// point.
    pub fn outbox_of(&self, point: &str) -> Option<&Outbox>
        ensures { option_map (λ outbox. outbox.now) result
            ≡ option_map (outbox_at self.now) (place_of self.now.site point.now) }
    {
        match self.site.place_of(point) {
            Some(place) => Some(point_at(&self.points, place).outbox()),
            None => None,
        }
    }

    /// Returns the `Ask` of the request of a number and the place of its point in the site file, if
    /// the request is kept.
    pub fn request_asked(&self, number: u64) -> Option<(usize, Ask)>
        ensures { result
            ≡ option_map (λ (kept : Kept). (kept.place, kept.ask))
            (request_of number self.now.requests) }
    {
        request_asked(&self.requests, number)
    }

    /// Returns the request of the audit of the point of an identity, with the book of that time, if
    /// the audit's call has this number and it has no verdict yet. Copies nothing, and may need
    /// memory only if there is such an audit.
    pub fn audit_job(&self, point: &str, call: u64) -> Result<Option<AuditJob>, Refusal>
        ensures job { IfOk result (λ job. job ≡ audit_job self.now point.now call) }
        ensures certain { audit_job self.now point.now call ≡ None → result ≡ Ok None }
        ensures memory { IfErr result (λ refusal. refusal ≡ OutOfMemory) }
    {
        let Some(place) = self.site.place_of(point) else {
            return Ok(None);
        };
        match point_at(&self.points, place).unjudged(call) {
            None => Ok(None),
            Some(audit) => Ok(Some(audit.asked.share()?)),
        }
    }

    /// Returns the audit of the point of an identity, if the site has such a point and it was
    /// audited.
    pub fn audit_of(&self, point: &str) -> Option<&PointAudit>
        ensures { option_map (λ audit. audit.now) result ≡ audit_of self.now point.now }
    {
        let place = self.site.place_of(point)?;
        point_at(&self.points, place).audit()
    }

    /// Returns the waiting starts of the point of an identity: none if the site has no such point.
    pub fn waiting_of(&self, point: &str) -> &[WaitingStart]
        ensures { result.now ≡ waiting_of self.now point.now }
    {
        match self.site.place_of(point) {
            Some(place) => point_at(&self.points, place).waiting_starts(),
            None => &[],
        }
    }

    /// Returns when the point of an identity last booted, if the site has such a point and it has
    /// booted.
    pub fn booted_of(&self, point: &str) -> Option<Instant>
        ensures { result ≡ booted_of self.now point.now }
    {
        let place = self.site.place_of(point)?;
        point_at(&self.points, place).booted()
    }

    /// Returns the state of an installed profile at the point of an identity. If the site has no
    /// such point, nothing is sure.
    pub fn profile_state_of(&self, point: &str, row: &Row) -> ProfileState
        ensures { result ≡ profile_state_of self.now point.now row.now }
    {
        match self.site.place_of(point) {
            Some(place) => point_at(&self.points, place).profile_state(row),
            None => ProfileState::Unsure,
        }
    }

    /// Returns the present link of the point of an identity, if it has one.
    pub fn link_of(&self, point: &str) -> Option<u64>
        ensures { result ≡ link_of self.now point.now }
    {
        let place = self.site.place_of(point)?;
        point_at(&self.points, place).outbox().link()
    }

    /// Returns the link over which a call can be sent now to the point of an identity, if there is
    /// such a call. There is none if the site has no such point, or once the central system is
    /// stopped. Allocates nothing.
    pub fn link_to_send(&self, point: &str) -> Option<u64>
        ensures { result ≡ link_to_send self.now point.now }
    {
        match self.site.place_of(point) {
            Some(place) if !self.is_stopped => point_at(&self.points, place)
                .outbox()
                .sending_link(),
            _ => None,
        }
    }

    /// Returns the number of unconfirmed calls of the point of an identity, 0 if the site has no
    /// such point.
    pub fn outbox_len(&self, point: &str) -> usize
        ensures { result ≡ outbox_len self.now point.now }
    {
        match self.site.place_of(point) {
            Some(place) => point_at(&self.points, place).outbox().len(),
            None => 0,
        }
    }

    /// Makes a step. On a refusal nothing has changed, and the step comes back. The refusal is the
    /// first cause. It is `OutOfMemory` only if there is no other cause and the step needs memory.
    /// These need it: an install, a clear that removes a profile, an audit, a remote start, a start
    /// that isn't retransmitted, a stop, a take, and a sending. A book in a reply has the connector
    /// of the `Ask` beside it.
    pub fn step(&mut self, step: Step) -> Result<Reply, Refused>
        ensures made { MatchResult result (λ reply. Steps self.old step reply self.new)
            (λ refused. IsRefused self.old step refused self.new) }
        ensures asked { IfOk result HasAskedConnector }
        ensures brought { OnOk result (BringsRight step) }
    {
        with_step(self.make(&step), step)
    }

    /// Makes a step as `step` does, but copies the parts that it keeps, so that the caller still
    /// has the step.
    // The methods are marked not to be inlined: with all of them in one function, each step would
    // clear the stack that the others need.
    pub fn make(&mut self, step: &Step) -> Result<Reply, Refusal>
        ensures made { IfOk result (λ reply. Steps self.old step.now reply self.new) }
        ensures refused { IfErr result (λ refusal.
            IsRefusalOf (stepped no_answer self.old step.now) refusal × (self.new ≡ self.old)) }
        ensures asked { IfOk result HasAskedConnector }
        ensures brought { OnOk result (BringsRight step.now) }
    {
        match step {
            Step::Take(take) => self.take(take),
            Step::Compile(number) => self.compile(*number),
            Step::Answer(number) => self.answer(*number),
            Step::Finish => Ok(self.finish()),
            _ => self.make_at_point(step),
        }
    }

    /// Returns the outlook of a step, as if memory always lasted: whether it would be an event, or
    /// an answer without a change, or the refusal. Changes and allocates nothing.
    pub fn outlook(&self, step: &Step) -> Result<bool, Refusal>
        ensures { result ≡ outlook self.now step.now }
    {
        match step {
            Step::Take(take) => self.take_outlook(take),
            Step::Compile(number) => compile_outlook(&self.requests, *number),
            Step::Answer(number) => hand_out_outlook(&self.requests, *number),
            Step::Finish => Ok(!self.is_stopped),
            _ => self.outlook_at_point(step),
        }
    }

    /// Makes a step of the machine at its charge point: decides it there, and does it.
    #[inline(never)]
    fn make_at_point(&mut self, step: &Step) -> Result<Reply, Refusal>
        requires { IsAtPoint (work step.now) }
        ensures made { IfOk result (λ reply. Steps self.old step.now reply self.new) }
        ensures refused { IfErr result (λ refusal.
            IsRefusalOf (stepped no_answer self.old step.now) refusal × (self.new ≡ self.old)) }
        ensures asked { IfOk result HasAskedConnector }
        ensures brought { OnOk result (BringsRight step.now) }
    {
        let (point, via) = step.target();
        let place = self.place_for(point, via)?;
        let numbers = self.numbers;
        match self.points[place].make(&self.site, &numbers, step) {
            Ok(reply) => {
                // Only the reply of a made step draws numbers, so a refused one uses none up.
                self.numbers = reply.drawn(numbers);
                Ok(reply)
            }
            Err(refusal) => Err(refusal),
        }
    }

    /// Returns the outlook of a step of the machine at its charge point, without making it: whether
    /// it would be an event, or the refusal.
    fn outlook_at_point(&self, step: &Step) -> Result<bool, Refusal>
        requires { IsAtPoint (work step.now) }
        ensures { result ≡ outlook self.now step.now }
    {
        let (point, via) = step.target();
        let place = self.place_for(point, via)?;
        outlook_by(point_at(&self.points, place).decide(&self.site, &self.numbers, step))
    }

    /// Makes or refuses steps one after another. Without memory for the outcomes it makes none, and
    /// returns all steps.
    pub fn run(&mut self, steps: Vec<Step>) -> Result<Vec<Outcome>, RunFault>
        ensures { MatchResult result
            (λ outcomes. Runs self.old steps.items outcomes.items self.new)
            (λ fault. (self.new ≡ self.old) × (fault.steps ≡ steps)) }
    {
        // Memory for all outcomes comes first, since a step that was made can't be taken back.
        let mut outcomes = match Vec::with_capacity(self.alloc, steps.len()) {
            Ok(outcomes) => outcomes,
            Err(_) => return Err(RunFault { steps }),
        };
        for step in steps {
            let outcome = self.outcome_of(step);
            outcomes.push(outcome).unwrap();
        }
        Ok(outcomes)
    }

    /// Makes or refuses a step of the machine, and returns its outcome, for a run of several steps.
    fn outcome_of(&mut self, step: Step) -> Outcome
        ensures { HasOutcome self.old step result self.new }
    {
        match self.step(step) {
            Ok(reply) => Outcome::Done(reply),
            Err(refused) => Outcome::Refused(refused),
        }
    }

    /// Returns the place in the site file of the charge point that a step of the machine names. A
    /// link must be the point's present one. The refusals are `Stopped`, `UnknownPoint`,
    /// `Superseded` and, for an audit at an unknown point, `UnknownRequest`.
    fn place_for(&self, point: &PointId, via: Via) -> Result<usize, Refusal>
        ensures place { result ≡ place_for self.now point.now via }
        ensures here { IfOk result (λ place. place_of self.now.site point.now ≡ Some place) }
        ensures within { IfOk result (λ place. place < length self.now.points) }
    {
        if self.is_stopped {
            return Err(Refusal::Stopped);
        }
        let Some(place) = self.site.place_of(point.as_str()) else {
            // An unknown point has no link and no audit, so a step by one of these is refused as at
            // a known point without it.
            return Err(match via {
                Via::Name => Refusal::UnknownPoint,
                Via::Link(_) => Refusal::Superseded,
                Via::Audit => Refusal::UnknownRequest,
            });
        };
        match via {
            Via::Link(link) if point_at(&self.points, place).outbox().link() != Some(link) => Err(
                Refusal::Superseded,
            ),
            _ => Ok(place),
        }
    }
}

/// Returns the outlook of a step of the machine that a charge point decided: whether it would be an
/// event, or the refusal.
fn outlook_by(decided: Result<Decision, Refusal>) -> Result<bool, Refusal>
    ensures { result ≡ outlook_by decided }
{
    match decided {
        Ok(Decision::Does) => Ok(true),
        Ok(Decision::Answers(_)) => Ok(false),
        Err(refusal) => Err(refusal),
    }
}

/// Returns the reply to a step of the machine, or its refusal with the step.
fn with_step(made: Result<Reply, Refusal>, step: Step) -> Result<Reply, Refused>
    ensures { MatchResult result (λ reply. made ≡ Ok reply)
        (λ refused. (made ≡ Err refused.refusal) × (refused.step ≡ step)) }
{
    match made {
        Ok(reply) => Ok(reply),
        Err(refusal) => Err(Refused { refusal, step }),
    }
}
