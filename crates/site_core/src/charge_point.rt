//! The state that the central system keeps of a charge point, and the steps there: a method sees
//! neither other points nor requests. A step is decided first, without a change, and then done.

ghost use Rattle.std.specs.Option.{option_copied};
ghost use Rattle.std.specs.Prelude.{◌≡◌, ◌+◌, ◌<◌, ◌≤◌, ℕ, None, Some, Ok, Err, IfErr, IfNone, IfOk, OnOk, length, option_map};
ghost use Rattle.site_rules.specs.Site.{HasConnector, point_entry};
ghost use Rattle.transactions.specs.declared.active_table.Began.{Began};
ghost use Rattle.transactions.specs.ActiveTable.{began};
ghost use Rattle.point_book.specs.Changes.{install_refusal};
ghost use Rattle.messages.specs.declared.call.CallBody.{CallBody};
ghost use Rattle.site_core.specs.declared.reply.Reply.{Reply};
ghost use Rattle.site_core.specs.declared.step.Step.TheVariants as steps;
ghost use Rattle.site_core.specs.Limits.{max_calls, max_number};
ghost use Rattle.site_core.specs.State.{AreNumbers};
ghost use Rattle.sweep_compiler.specs.declared.verdict.Verdict.{Verdict};
ghost use Rattle.site_core.specs.Audit.{is_open_among, judged_audit, unjudged};
ghost use Rattle.site_core.specs.Audits.{BringsRight};
ghost use Rattle.sweep_compiler.specs.Judged.{IsJudged};
ghost use Rattle.site_core.specs.ChargePoint.{opening_point};
ghost use Rattle.site_core.specs.WaitingStart.{ended_start, has_gone_out, without_ended};
ghost use Rattle.site_core.specs.ChargePoint.{brought_at_start, brought_by};
ghost use Rattle.site_core.specs.Delivery.{lost_after_audit, lost_by_verdict};
ghost use Rattle.site_core.specs.State.{profile_state_at};
ghost use Rattle.site_core.specs.Step.{refusal_to_add, refusal_to_call, refusal_to_start, installs, clears, starts, stops, attaches, sends, confirms, loses, audits, boots, judges, status_of, next_transaction, profile_at_start, refusal_of_profile, remote_starts, work};
ghost use Rattle.site_core.specs.ByCases.Made.{decision_of, ComesTo, OnDoes, IsMadeAt, IsAtPoint, HasConnectorsOf, IsDecided, IsWorked};

use crate::audit::PointAudit;
use crate::decision::Decision;
use crate::deliveries::{Deliveries, Delivery, ProfileState};
use crate::numbers::Numbers;
use crate::outbox::{Outbox, PreparedCall};
use crate::point_id::PointId;
use crate::reply::Reply;
use crate::shared_book::SharedBook;
use crate::step::Step;
use crate::waiting_starts::{WaitingStart, WaitingStarts};
use meaning::MAX_DURATION;
use messages::{AuditOutcome, CallBody, PointStatus};
use ocpp_scalars::{IdTag, Instant, Refusal};
use point_book::PointBook;
use profile::{Criteria, Profile, Purpose, Row, Unit};
use site_rules::{Site, SitePoint, admit};
use std::alloc::{AllocError, Global};
use std::marker::Model;
use sweep_compiler::{AuditJob, Judged, Verdict};
use transactions::{Began, Begin};

/// The state that the central system keeps of a charge point. It has the point's profiles and
/// transactions, its link, its unconfirmed calls and its audit. It also has the starts that an
/// operator requested, and what the point is known to have.
#[derive(Drop)]
pub(crate) struct ChargePoint {
    alloc: Global,
    book: SharedBook,
    outbox: Outbox,
    audit: Option<PointAudit>,
    waiting: WaitingStarts,
    deliveries: Deliveries,
    /// When it last booted.
    booted: Option<Instant>,
    /// It may have lost the profiles that came by calls before the one of this number.
    lost_before: u64,
}

impl Model for ChargePoint {
    ghost use Rattle.site_core.specs.ChargePoint.{ChargePointState};

    ghost Value = { ChargePointState };

    ghost view = { λ p. record {
      book = p.book;
      outbox = p.outbox;
      audit = p.audit;
      waiting = p.waiting;
      deliveries = p.deliveries;
      booted = p.booted;
      lost_before = p.lost_before;
    } };
}

impl ChargePoint {
    /// Makes a point of the site file with nothing installed, no active transaction and no link.
    pub fn new(alloc: Global, point: &SitePoint<'_>) -> Result<ChargePoint, AllocError>
        ensures { IfOk result (λ kept. kept ≡ opening_point (point_entry point.now)) }
    {
        let ceilings = Vec::from_slice(alloc, point.ceilings)?;
        let book = PointBook::try_new(alloc, point.ceiling, ceilings)?;
        Ok(ChargePoint {
            alloc,
            book: SharedBook::new(alloc, book)?,
            outbox: Outbox::new(alloc)?,
            audit: None,
            waiting: WaitingStarts::new(alloc),
            deliveries: Deliveries::new(alloc),
            booted: None,
            lost_before: 0,
        })
    }

    /// Copies the point, sharing the book.
    pub fn copy(&self) -> Result<ChargePoint, AllocError>
        ensures { IfOk result (λ copy. copy ≡ self.now) }
    {
        Ok(ChargePoint {
            alloc: self.alloc,
            book: self.book.share()?,
            outbox: self.outbox.copy()?,
            audit: copy_of_audit(&self.audit)?,
            waiting: self.waiting.copy()?,
            deliveries: self.deliveries.copy()?,
            booted: self.booted,
            lost_before: self.lost_before,
        })
    }

    /// Gathers the calls to the point, if memory lasts, so that copies share them. Changes nothing
    /// else.
    pub fn gather_calls(&mut self)
        ensures { self.new ≡ self.old }
    {
        self.outbox.gather_calls();
    }

    /// Returns the point's book.
    pub fn book(&self) -> &PointBook
        ensures { result.now ≡ self.now.book }
    {
        self.book.book()
    }

    /// Returns the point's book, with one more owner. Copies nothing.
    pub fn share_book(&self) -> Result<SharedBook, AllocError>
        ensures { IfOk result (λ shared. shared ≡ self.now.book) }
    {
        self.book.share()
    }

    /// Returns the calls to the point, and the link to it.
    pub fn outbox(&self) -> &Outbox
        ensures { result.now ≡ self.now.outbox }
    {
        &self.outbox
    }

    // ---- all steps

    /// Decides a step at this point, or returns the reason why it is refused, as if memory always
    /// lasted. Allocates nothing.
    pub fn decide(&self, site: &Site, numbers: &Numbers, step: &Step) -> Result<Decision, Refusal>
        requires { IsAtPoint (work step.now) }
        ensures { IsDecided (work step.now) site.now numbers.now self.now result }
    {
        match step {
            Step::Install { point, row } => self.decide_install(site, numbers, point, row),
            Step::Clear { criteria, .. } => self.decide_clear(numbers, criteria),
            Step::Start {
                connector,
                begin,
                ..
            } => self.decide_start(numbers, *connector, begin),
            Step::Stop { transaction, .. } => self.decide_stop(numbers, *transaction),
            Step::Attach(_) => self.decide_attach(numbers),
            Step::Send { .. } => self.decide_send(),
            Step::Confirm { call, .. } => self.decide_confirm(*call),
            Step::Lost { .. } => Ok(Decision::Does),
            Step::Audit {
                connector,
                duration,
                ..
            } => self.decide_audit(site, *connector, *duration),
            Step::Judge { call, judged, .. } => self.decide_judge(*call, judged),
            Step::Status(_) => Ok(Decision::Answers(Reply::Status(self.status(numbers)))),
            Step::RemoteStart {
                connector,
                profile,
                ..
            } => self.decide_remote_start(site, *connector, profile),
            Step::Boot { .. } => Ok(Decision::Does),
            Step::Take(_) | Step::Compile(_) | Step::Answer(_) | Step::Finish => unreachable!(),
        }
    }

    /// Makes a step at this point. On a refusal nothing has changed. The refusal is the decision's,
    /// or else `OutOfMemory`.
    pub fn make(&mut self, site: &Site, numbers: &Numbers, step: &Step) -> Result<Reply, Refusal>
        requires named { IsAtPoint (work step.now) }
        requires numbers { AreNumbers numbers.now }
        requires connectors { HasConnectorsOf (work step.now) site.now self.old }
        ensures worked { IsWorked (work step.now) site.now numbers.now step.now
            self.old result self.new }
        ensures brought { OnOk result (BringsRight step.now) }
    {
        match step {
            Step::Install { point, row } => self.install(site, numbers, point, row),
            Step::Clear { point, criteria } => self.clear(numbers, point, criteria),
            Step::Start {
                point,
                connector,
                begin,
            } => self.start(numbers, point, *connector, begin),
            Step::Stop { point, transaction } => self.stop(numbers, point, *transaction),
            Step::Attach(point) => self.attach(numbers, point),
            Step::Send { point, link } => self.send(point, *link),
            Step::Confirm {
                point,
                link,
                call,
                accepted,
            } => self.confirm(point, *link, *call, *accepted),
            Step::Lost { point, link } => Ok(self.lose(point, *link)),
            Step::Audit {
                point,
                connector,
                duration,
            } => self.begin_audit(site, point, *connector, *duration),
            Step::Judge {
                point,
                call,
                judged,
            } => self.judge(point, *call, judged),
            Step::Status(_) => Ok(Reply::Status(self.status(numbers))),
            Step::RemoteStart {
                point,
                connector,
                id_tag,
                profile,
            } => self.remote_start(site, point, *connector, id_tag, profile),
            Step::Boot { point, moment } => Ok(self.boot(point, *moment)),
            Step::Take(_) | Step::Compile(_) | Step::Answer(_) | Step::Finish => unreachable!(),
        }
    }

    // ---- Install (chapter 5.16)

    /// Decides the machine's step Install, a request to install a charging profile at a charge
    /// point, or returns the refusal. Changes nothing.
    fn decide_install(
        &self,
        site: &Site,
        numbers: &Numbers,
        point: &PointId,
        row: &Row,
    ) -> Result<Decision, Refusal>
        ensures decision { result
            ≡ decision_of (installs site.now numbers.now point.now row.now self.now) }
        ensures comes { ComesTo (installs site.now numbers.now point.now row.now self.now)
            Reply.Accepted result }
        ensures allowed { OnDoes result (install_refusal self.now.book row.now ≡ None) }
        ensures room { OnDoes result (length self.now.outbox.calls < max_calls) }
        ensures number { OnDoes result (self.now.outbox.next ≤ max_number) }
        ensures connector { OnDoes result (HasConnector site.now point.now row.now.connector) }
    {
        if let Err(refusal) = admit(site, point.as_str(), row.connector, &row.profile) {
            return Err(refusal);
        }
        if let Some(refusal) = self.book().install_refusal(row) {
            return Err(refusal);
        }
        match self.refusal_to_call(numbers) {
            Some(refusal) => Err(refusal),
            None => Ok(Decision::Does),
        }
    }

    /// Makes the step Install of the machine: installs a copy of a row (a charging profile at a
    /// connector) in the charge point's book, and adds the SetChargingProfile call to its outbox.
    fn install(
        &mut self,
        site: &Site,
        numbers: &Numbers,
        point: &PointId,
        row: &Row,
    ) -> Result<Reply, Refusal>
        requires { (connector : ℕ) → HasConnector site.now point.now connector
            → connector ≤ length self.old.book.ceilings }
        ensures { IsMadeAt (installs site.now numbers.now point.now row.now self.old)
            (steps.Install point.now row.now) self.old result self.new }
    {
        match self.decide_install(site, numbers, point, row)? {
            Decision::Answers(reply) => Ok(reply),
            Decision::Does => {
                // The call's memory comes first, so that a refusal leaves the book unchanged.
                let call = call_of(self.alloc, row)?;
                let row = row.copy()?;
                let deliveries = self.with_delivery(&row.profile, self.outbox.next_number())?;
                self.book.install(row)?;
                self.outbox.add(call);
                self.deliveries = deliveries;
                Ok(Reply::Accepted)
            }
        }
    }

    // ---- Clear (chapter 5.5)

    /// Decides the machine's step Clear, a request to clear charging profiles of a charge point, or
    /// returns the refusal. If no profile matches the criteria, the answer is Unknown.
    fn decide_clear(&self, numbers: &Numbers, criteria: &Criteria) -> Result<Decision, Refusal>
        ensures decision { result ≡ decision_of (clears numbers.now criteria.now self.now) }
        ensures comes { ComesTo (clears numbers.now criteria.now self.now) Reply.Accepted result }
        ensures room { OnDoes result (length self.now.outbox.calls < max_calls) }
        ensures number { OnDoes result (self.now.outbox.next ≤ max_number) }
    {
        // Before the checks of room: an answer without a change adds no call and draws no version.
        if !self.book().has_match(criteria) {
            return Ok(Decision::Answers(Reply::Unknown));
        }
        match self.refusal_to_call(numbers) {
            Some(refusal) => Err(refusal),
            None => Ok(Decision::Does),
        }
    }

    /// Makes the step Clear of the machine: removes the profiles that match each given criterion
    /// from the charge point's book, and adds the ClearChargingProfile call to its outbox.
    fn clear(
        &mut self,
        numbers: &Numbers,
        point: &PointId,
        criteria: &Criteria,
    ) -> Result<Reply, Refusal>
        ensures { IsMadeAt (clears numbers.now criteria.now self.old)
            (steps.Clear point.now criteria.now) self.old result self.new }
    {
        match self.decide_clear(numbers, criteria)? {
            Decision::Answers(reply) => Ok(reply),
            Decision::Does => {
                let Ok(call) = PreparedCall::new(self.alloc, CallBody::Clear(*criteria)) else {
                    return Err(Refusal::OutOfMemory);
                };
                self.book.clear(criteria)?;
                self.outbox.add(call);
                Ok(Reply::Accepted)
            }
        }
    }

    // ---- Start (chapter 4.8)

    /// Decides the machine's step Start, a charge point's StartTransaction at a connector, or
    /// returns the refusal. A retransmitted start is answered with its transaction's number.
    fn decide_start(
        &self,
        numbers: &Numbers,
        connector: u32,
        begin: &Begin,
    ) -> Result<Decision, Refusal>
        ensures decision { result ≡ decision_of (starts numbers.now connector begin.now self.now) }
        ensures comes { ComesTo (starts numbers.now connector begin.now self.now)
            (Reply.Started (next_transaction numbers.now)) result }
        ensures above { OnDoes result (0 < connector) }
        ensures has { OnDoes result (connector ≤ length self.now.book.ceilings) }
        ensures new { OnDoes result
            (began self.now.book.transactions connector begin.now ≡ Began.Fresh) }
        ensures numbers { OnDoes result (refusal_to_start numbers.now ≡ None) }
    {
        if connector == 0 || connector > self.book().connectors() {
            return Err(Refusal::UnknownConnector);
        }
        match self.book().began(connector, begin) {
            Began::Repeat(number) => Ok(Decision::Answers(Reply::Repeated(number))),
            Began::Fresh => match numbers.refusal_to_start() {
                Some(refusal) => Err(refusal),
                None => Ok(Decision::Does),
            },
        }
    }

    /// Makes the step Start of the machine: begins a transaction at a charge point's connector, or
    /// answers a retransmitted start. A remote start that waits there ends, if its call has gone
    /// out. If that is for this idTag, its profile is the transaction's.
    fn start(
        &mut self,
        numbers: &Numbers,
        point: &PointId,
        connector: u32,
        begin: &Begin,
    ) -> Result<Reply, Refusal>
        requires { AreNumbers numbers.now }
        ensures { IsMadeAt (starts numbers.now connector begin.now self.old)
            (steps.Start point.now connector begin.now) self.old result self.new }
    {
        match self.decide_start(numbers, connector, begin)? {
            Decision::Answers(reply) => Ok(reply),
            Decision::Does => {
                let number = numbers.next_transaction();
                let begin = begin.copy(self.alloc)?;
                let profile = self.profile_at_start(connector, &begin)?;
                let deliveries = self.with_started(connector, &profile)?;
                // The waiting start ends last, since the book may still run out of memory.
                self.book.start(connector, begin, number, profile)?;
                self.end_start(connector);
                self.deliveries = deliveries;
                Ok(Reply::Started(number))
            }
        }
    }

    /// Copies the profile with which the machine begins a charge point's transaction. It is that of
    /// the remote start which the transaction ends, if both have the same idTag.
    fn profile_at_start(&self, connector: u32, begin: &Begin) -> Result<Option<Profile>, AllocError>
        ensures { IfOk result
            (λ profile. profile ≡ profile_at_start self.now connector begin.now) }
    {
        match self.ended_start(connector) {
            None => Ok(None),
            Some(start) => start.profile_for(&begin.id_tag),
        }
    }

    /// Returns the remote start, requested by an operator, that a transaction which the machine
    /// begins at a connector ends: it waits there, and its call has gone out to the charge point.
    fn ended_start(&self, connector: u32) -> Option<&WaitingStart>
        ensures { option_copied result
            ≡ ended_start self.now.outbox self.now.waiting connector }
    {
        match self.waiting.at(connector) {
            // Before its call went out, the point can't have begun this transaction for it.
            Some(start) if self.has_gone_out(start.call) => Some(start),
            _ => None,
        }
    }

    /// Returns the charge point's deliveries (which call brought which profile), with that of the
    /// profile with which the machine begins a transaction at a connector. That profile came with
    /// the call of the remote start that the transaction ends.
    fn with_started(
        &self,
        connector: u32,
        profile: &Option<Profile>,
    ) -> Result<Deliveries, AllocError>
        ensures { IfOk result (λ made. made ≡ brought_at_start self.now profile.now
            (ended_start self.now.outbox self.now.waiting connector)) }
    {
        match (profile, self.ended_start(connector)) {
            (Some(profile), Some(start)) => self.with_delivery(profile, start.call),
            _ => self.deliveries.copy(),
        }
    }

    /// Removes the waiting remote start, requested by an operator, that a transaction which the
    /// machine begins at a charge point's connector ends.
    fn end_start(&mut self, connector: u32)
        ensures { self.new ≡ record self.old {
          waiting = without_ended (ended_start self.old.outbox self.old.waiting connector)
              self.old.waiting;
        } }
    {
        if let Some(start) = self.ended_start(connector) {
            let connector = start.connector;
            self.waiting.remove(connector);
        }
    }

    /// Whether the call of this number in a charge point's outbox in the machine, such as a
    /// RemoteStartTransaction, is in flight to the point or confirmed.
    fn has_gone_out(&self, call: u64) -> bool
        ensures { result ≡ has_gone_out self.now.outbox call }
    {
        !self.outbox.is_unconfirmed(call) || self.outbox.is_number_in_flight(call)
    }

    // ---- Stop (chapter 4.10)

    /// Decides the machine's step Stop, a charge point's StopTransaction by its number, or returns
    /// the refusal. If no such transaction is active, the answer is NoSuch.
    fn decide_stop(&self, numbers: &Numbers, number: i32) -> Result<Decision, Refusal>
        ensures decision { result ≡ decision_of (stops numbers.now number self.now) }
        ensures comes { ComesTo (stops numbers.now number self.now) Reply.Ended result }
    {
        if self.book().connector_of(number).is_none() {
            return Ok(Decision::Answers(Reply::NoSuch));
        }
        match numbers.version_refusal() {
            Some(refusal) => Err(refusal),
            None => Ok(Decision::Does),
        }
    }

    /// Makes the step Stop of the machine: ends the transaction of this number in the charge
    /// point's book, if it is active. Otherwise the answer is NoSuch.
    fn stop(&mut self, numbers: &Numbers, point: &PointId, number: i32) -> Result<Reply, Refusal>
        ensures { IsMadeAt (stops numbers.now number self.old)
            (steps.Stop point.now number) self.old result self.new }
    {
        match self.decide_stop(numbers, number)? {
            Decision::Answers(reply) => Ok(reply),
            Decision::Does => {
                self.book.stop(number)?;
                Ok(Reply::Ended)
            }
        }
    }

    // ---- links (OCPP-J 1.6, chapter 3)

    /// Decides the machine's step Attach, whether a charge point that connects gets a new link, or
    /// returns the refusal.
    fn decide_attach(&self, numbers: &Numbers) -> Result<Decision, Refusal>
        ensures { result ≡ decision_of (attaches numbers.now self.now) }
    {
        match numbers.refusal_to_attach() {
            Some(refusal) => Err(refusal),
            None => Ok(Decision::Does),
        }
    }

    /// Makes the step Attach of the machine: gives a charge point that connects a new link. A call
    /// in flight over the link before it waits in the outbox again.
    fn attach(&mut self, numbers: &Numbers, point: &PointId) -> Result<Reply, Refusal>
        requires { AreNumbers numbers.now }
        ensures { IsMadeAt (attaches numbers.now self.old) (steps.Attach point.now)
            self.old result self.new }
    {
        match numbers.refusal_to_attach() {
            Some(refusal) => Err(refusal),
            None => {
                let link = numbers.link + 1;
                self.outbox.attach(link);
                Ok(Reply::Attached(link))
            }
        }
    }

    /// Makes the step Lost of the machine: removes the lost link to the charge point. A call in
    /// flight waits in the outbox again.
    fn lose(&mut self, point: &PointId, link: u64) -> Reply
        ensures { IsMadeAt (loses self.old) (steps.Lost point.now link)
            self.old (Ok result) self.new }
    {
        self.outbox.lose();
        Reply::LinkLost
    }

    // ---- calls (OCPP-J 1.6, chapter 4)

    /// Decides the machine's step Send: whether the first call of the charge point's outbox can be
    /// sent now. Otherwise the answer is Nothing.
    fn decide_send(&self) -> Result<Decision, Refusal>
        ensures { result ≡ decision_of (sends self.now) }
    {
        if self.outbox.sending_link().is_some() {
            Ok(Decision::Does)
        } else {
            Ok(Decision::Answers(Reply::Nothing))
        }
    }

    /// Makes the step Send of the machine: hands the first call of the charge point's outbox to its
    /// session, unless one is in flight. Only the copy of the call needs memory.
    fn send(&mut self, point: &PointId, link: u64) -> Result<Reply, Refusal>
        ensures { IsMadeAt (sends self.old) (steps.Send point.now link) self.old result self.new }
    {
        match self.outbox.send()? {
            Some(call) => Ok(Reply::Sent(call)),
            None => Ok(Reply::Nothing),
        }
    }

    /// Decides the machine's step Confirm: whether the charge point's answer to the call of this
    /// number is recorded. The refusal is `NothingInFlight`.
    fn decide_confirm(&self, call: u64) -> Result<Decision, Refusal>
        ensures { result ≡ decision_of (confirms call self.now) }
    {
        if self.outbox.is_number_in_flight(call) {
            Ok(Decision::Does)
        } else {
            Err(Refusal::NothingInFlight)
        }
    }

    /// Makes the step Confirm of the machine: removes the call of this number, which the charge
    /// point has answered, from its outbox. If the answer isn't Accepted, a remote start that came
    /// with the call is dropped.
    fn confirm(
        &mut self,
        point: &PointId,
        link: u64,
        call: u64,
        accepted: bool,
    ) -> Result<Reply, Refusal>
        ensures { IsMadeAt (confirms call self.old)
            (steps.Confirm point.now link call accepted) self.old result self.new }
    {
        if !self.outbox.confirm(call) {
            return Err(Refusal::NothingInFlight);
        }
        if !accepted {
            self.waiting.reject(call);
            self.deliveries.reject(call);
        }
        Ok(Reply::Confirmed)
    }

    // ---- audits

    /// Decides the machine's step Audit, a request to audit the composite schedule that a charge
    /// point reports of a connector, or returns the refusal.
    fn decide_audit(&self, site: &Site, connector: u32, duration: u32) -> Result<Decision, Refusal>
        ensures decision { result ≡ decision_of (audits site.now connector duration self.now) }
        ensures comes { ComesTo (audits site.now connector duration self.now)
            (Reply.Audited self.now.outbox.next site.now.unit) result }
        ensures has { OnDoes result (connector ≤ length self.now.book.ceilings) }
        ensures room { OnDoes result (length self.now.outbox.calls < max_calls) }
        ensures number { OnDoes result (self.now.outbox.next ≤ max_number) }
    {
        if connector > self.book().connectors() {
            return Err(Refusal::UnknownConnector);
        }
        if duration == 0 || duration > MAX_DURATION {
            return Err(Refusal::BadDuration);
        }
        if self.is_audit_open() {
            return Err(Refusal::AuditOpen);
        }
        match self.refusal_to_add() {
            Some(refusal) => Err(refusal),
            None => Ok(Decision::Does),
        }
    }

    /// Makes the step Audit of the machine: begins an audit of the charge point, in place of an
    /// earlier one. Adds the GetCompositeSchedule call to its outbox, and keeps its present book to
    /// compare the reply with.
    fn begin_audit(
        &mut self,
        site: &Site,
        point: &PointId,
        connector: u32,
        duration: u32,
    ) -> Result<Reply, Refusal>
        ensures { IsMadeAt (audits site.now connector duration self.old)
            (steps.Audit point.now connector duration) self.old result self.new }
    {
        match self.decide_audit(site, connector, duration)? {
            Decision::Answers(reply) => Ok(reply),
            Decision::Does => {
                let unit = site.unit();
                // The reply is compared with the book of this moment: later installs may not have
                // reached the point when it replies.
                let book = self.book.share()?.into_arc();
                let call = audit_call(self.alloc, connector, duration, unit)?;
                let number = self.outbox.next_number();
                self.outbox.add(call);
                self.audit = Some(PointAudit {
                    number,
                    asked: AuditJob::new(book, connector, duration, unit),
                    verdict: None,
                });
                Ok(Reply::Audited { call: number, unit })
            }
        }
    }

    /// Checks whether the machine can keep the verdict on the audit whose call has this number. The
    /// refusals are `UnknownRequest`, if that audit isn't the point's present one or has its
    /// verdict, and then `StrangerInput`.
    fn check_judged(&self, call: u64, judged: &Judged) -> Result<(), Refusal>
        ensures kept { OnOk result (judges call judged.now self.now ≡ Ok Reply.VerdictKept) }
        ensures refused { IfErr result (λ refusal. judges call judged.now self.now ≡ Err refusal) }
        ensures brought { OnOk result
            (IsJudged judged.now.audit judged.now.verdict judged.now.short) }
    {
        let Some(audit) = self.unjudged(call) else {
            return Err(Refusal::UnknownRequest);
        };
        if !audit.is_judged_by(judged) {
            return Err(Refusal::StrangerInput);
        }
        Ok(())
    }

    /// Decides the machine's step Judge: whether to keep the verdict on the audit whose call has
    /// this number, or returns the refusal. The verdict judges the charge point's reply to that
    /// GetCompositeSchedule.
    fn decide_judge(&self, call: u64, judged: &Judged) -> Result<Decision, Refusal>
        ensures { result ≡ decision_of (judges call judged.now self.now) }
    {
        match self.check_judged(call, judged) {
            Ok(()) => Ok(Decision::Does),
            Err(refusal) => Err(refusal),
        }
    }

    /// Makes the step Judge of the machine: keeps the verdict on the audit whose call has this
    /// number, or returns the refusal. The verdict judges the charge point's reply to that
    /// GetCompositeSchedule.
    fn judge(&mut self, point: &PointId, call: u64, judged: &Judged) -> Result<Reply, Refusal>
        ensures made { IsMadeAt (judges call judged.now self.old)
            (steps.Judge point.now call judged.now) self.old result self.new }
        ensures brought { OnOk result
            (IsJudged judged.now.audit judged.now.verdict judged.now.short) }
    {
        match self.check_judged(call, judged) {
            Ok(()) => {
                self.keep_verdict(judged.verdict());
                Ok(Reply::VerdictKept)
            }
            Err(refusal) => Err(refusal),
        }
    }

    /// Stores the verdict on a charge point's reply to its audit's GetCompositeSchedule in the
    /// machine. A verdict on the schedules becomes Unsettled if the point's transactions have
    /// changed since the request.
    fn keep_verdict(&mut self, verdict: Verdict)
        ensures audit { self.new.audit
            ≡ judged_audit self.old.book.transactions verdict self.old.audit }
        ensures book { self.new.book ≡ self.old.book }
        ensures outbox { self.new.outbox ≡ self.old.outbox }
        ensures waiting { self.new.waiting ≡ self.old.waiting }
        ensures deliveries { self.new.deliveries ≡ self.old.deliveries }
        ensures booted { self.new.booted ≡ self.old.booted }
        ensures lost { self.new.lost_before
            ≡ lost_after_audit self.new.audit self.old.lost_before }
    {
        if let Some(audit) = &mut self.audit {
            let kept = audit.kept_verdict(self.book.book(), verdict);
            audit.verdict = Some(kept);
            self.lost_before = lost_by_verdict(audit.number, kept, self.lost_before);
        }
    }

    /// Returns the machine's reply to the step Status of a charge point: the store's version, the
    /// number of the point's unconfirmed calls, and the outcome of its audit.
    fn status(&self, numbers: &Numbers) -> PointStatus
        ensures { result ≡ status_of numbers.now self.now }
    {
        PointStatus {
            version: numbers.version,
            outbox: self.outbox.len(),
            audit: match &self.audit {
                None => AuditOutcome::NoAudit,
                Some(audit) => audit.outcome(),
            },
        }
    }

    /// Whether the GetCompositeSchedule call of the charge point's audit is still unconfirmed, so
    /// that the machine refuses another audit.
    fn is_audit_open(&self) -> bool
        ensures { result ≡ is_open_among self.now.outbox.calls self.now.audit }
    {
        match &self.audit {
            None => false,
            Some(audit) => self.outbox.is_unconfirmed(audit.number),
        }
    }

    /// Returns the point's audit, if it was audited.
    pub fn audit(&self) -> Option<&PointAudit>
        ensures { option_map (λ audit. audit.now) result ≡ self.now.audit }
    {
        self.audit.as_ref()
    }

    /// Returns the audit whose call has this number, while it has no verdict.
    pub fn unjudged(&self, call: u64) -> Option<&PointAudit>
        ensures { option_map (λ audit. audit.now) result ≡ unjudged call self.now.audit }
    {
        match &self.audit {
            Some(audit) if audit.number == call && audit.verdict.is_none() => Some(audit),
            _ => None,
        }
    }

    // ---- remote starts (chapter 5.11)

    /// Decides the machine's step RemoteStart, an operator's request that the charge point start a
    /// transaction (RemoteStartTransaction), or returns the refusal.
    fn decide_remote_start(
        &self,
        site: &Site,
        connector: u32,
        profile: &Option<Profile>,
    ) -> Result<Decision, Refusal>
        ensures decision { result
            ≡ decision_of (remote_starts site.now connector profile.now self.now) }
        ensures comes { ComesTo (remote_starts site.now connector profile.now self.now)
            (Reply.Called self.now.outbox.next) result }
        ensures room { OnDoes result (length self.now.outbox.calls < max_calls) }
        ensures number { OnDoes result (self.now.outbox.next ≤ max_number) }
    {
        if connector == 0 || connector > self.book().connectors() {
            return Err(Refusal::UnknownConnector);
        }
        if let Some(refusal) = refusal_of_profile(site, profile) {
            return Err(refusal);
        }
        match self.refusal_to_add() {
            Some(refusal) => Err(refusal),
            None => Ok(Decision::Does),
        }
    }

    /// Makes the step RemoteStart of the machine: adds the RemoteStartTransaction call to the
    /// charge point's outbox. The start waits, in place of an earlier one at its connector.
    fn remote_start(
        &mut self,
        site: &Site,
        point: &PointId,
        connector: u32,
        id_tag: &IdTag,
        profile: &Option<Profile>,
    ) -> Result<Reply, Refusal>
        ensures { IsMadeAt (remote_starts site.now connector profile.now self.old)
            (steps.RemoteStart point.now connector id_tag.now profile.now)
            self.old result self.new }
    {
        match self.decide_remote_start(site, connector, profile)? {
            Decision::Answers(reply) => Ok(reply),
            Decision::Does => {
                let number = self.outbox.next_number();
                let start = WaitingStart {
                    connector,
                    call: number,
                    id_tag: id_tag.copy(self.alloc)?,
                    profile: Profile::copy_if_any(profile)?,
                };
                let call = remote_start_call(self.alloc, connector, id_tag, profile)?;
                self.waiting.add(start)?;
                self.outbox.add(call);
                Ok(Reply::Called(number))
            }
        }
    }

    /// Returns the starts that wait, in the order of their requests.
    pub fn waiting_starts(&self) -> &[WaitingStart]
        ensures { result.now ≡ self.now.waiting }
    {
        self.waiting.as_slice()
    }

    // ---- deliveries, and boots (chapter 4.2)

    /// Makes the step Boot of the machine: records when the charge point booted. It may have lost
    /// what came by the calls that it has confirmed.
    fn boot(&mut self, point: &PointId, moment: Instant) -> Reply
        ensures { IsMadeAt (boots self.old) (steps.Boot point.now moment)
            self.old (Ok result) self.new }
    {
        let first = self.outbox.first_number();
        self.booted = Some(moment);
        self.lost_before = first;
        Reply::Booted(first)
    }

    /// Returns when the charge point last booted.
    pub fn booted(&self) -> Option<Instant>
        ensures { result ≡ self.now.booted }
    {
        self.booted
    }

    /// Returns the deliveries that the machine keeps of a charge point (which call brought which
    /// profile), with that of this profile by the call of this number.
    fn with_delivery(&self, profile: &Profile, call: u64) -> Result<Deliveries, AllocError>
        ensures { IfOk result (λ made. made ≡ brought_by self.now profile.now call) }
    {
        let new = Delivery {
            profile: profile.id,
            call,
            is_rejected: false,
        };
        self.deliveries.with(self.book().view().rows, new)
    }

    /// Returns the state of an installed profile at the point.
    pub fn profile_state(&self, row: &Row) -> ProfileState
        ensures { result ≡ profile_state_at self.now row.now }
    {
        let Some(delivery) = self.deliveries.of_row(row) else {
            return ProfileState::Unsure;
        };
        if delivery.is_rejected {
            ProfileState::Rejected
        } else if self.outbox.is_unconfirmed(delivery.call) {
            ProfileState::Sent
        } else if delivery.call < self.lost_before {
            ProfileState::Unsure
        } else {
            ProfileState::Held
        }
    }

    // ---- all calls

    /// Returns the reason why the machine can't add a call to the charge point's outbox, if there
    /// is one.
    fn refusal_to_add(&self) -> Option<Refusal>
        ensures refusal { result ≡ refusal_to_add self.now.outbox }
        ensures room { IfNone result (length self.now.outbox.calls < max_calls) }
        ensures number { IfNone result (self.now.outbox.next ≤ max_number) }
    {
        if self.outbox.is_full() {
            return Some(Refusal::OutboxFull);
        }
        if self.outbox.is_exhausted() {
            return Some(Refusal::VersionsExhausted);
        }
        None
    }

    /// Returns the reason why the machine can't add a call that changes profiles, such as
    /// SetChargingProfile, to the charge point's outbox, if there is one.
    fn refusal_to_call(&self, numbers: &Numbers) -> Option<Refusal>
        ensures refusal { result ≡ refusal_to_call numbers.now self.now }
        ensures room { IfNone result (length self.now.outbox.calls < max_calls) }
        ensures number { IfNone result (self.now.outbox.next ≤ max_number) }
    {
        match self.refusal_to_add() {
            Some(refusal) => Some(refusal),
            None => numbers.version_refusal(),
        }
    }
}

/// Makes the SetChargingProfile call that the machine adds to a charge point's outbox when it
/// installs a row (a charging profile at a connector).
fn call_of(alloc: Global, row: &Row) -> Result<PreparedCall, AllocError>
    ensures { IfOk result (λ call. call ≡ CallBody.Set row.now.connector row.now.profile) }
{
    let body = CallBody::Set {
        connector: row.connector,
        profile: row.profile.copy()?,
    };
    match PreparedCall::new(alloc, body) {
        Ok(call) => Ok(call),
        Err((error, _)) => Err(error),
    }
}

/// Makes the GetCompositeSchedule call that the machine adds to a charge point's outbox for an
/// audit, which compares the point's schedule with its book.
fn audit_call(
    alloc: Global,
    connector: u32,
    duration: u32,
    unit: Unit,
) -> Result<PreparedCall, AllocError>
    ensures { IfOk result (λ call. call ≡ CallBody.Audit connector duration unit) }
{
    let body = CallBody::Audit {
        connector,
        duration,
        unit,
    };
    match PreparedCall::new(alloc, body) {
        Ok(call) => Ok(call),
        Err((error, _)) => Err(error),
    }
}

/// Makes the RemoteStartTransaction call that the machine adds to a charge point's outbox when an
/// operator asks that the point start a transaction.
fn remote_start_call(
    alloc: Global,
    connector: u32,
    id_tag: &IdTag,
    profile: &Option<Profile>,
) -> Result<PreparedCall, AllocError>
    ensures { IfOk result
        (λ call. call ≡ CallBody.RemoteStart connector id_tag.now profile.now) }
{
    let body = CallBody::RemoteStart {
        connector,
        id_tag: id_tag.copy(alloc)?,
        profile: Profile::copy_if_any(profile)?,
    };
    match PreparedCall::new(alloc, body) {
        Ok(call) => Ok(call),
        Err((error, _)) => Err(error),
    }
}

/// Returns the reason why the machine refuses an operator's remote start because of its profile:
/// `WrongUnit`, or else `NotTxProfile`.
fn refusal_of_profile(site: &Site, profile: &Option<Profile>) -> Option<Refusal>
    ensures { result ≡ refusal_of_profile site.now profile.now }
{
    match profile {
        None => None,
        Some(profile) if profile.schedule.unit != site.unit() => Some(Refusal::WrongUnit),
        Some(profile) if profile.purpose != Purpose::TxProfile => Some(Refusal::NotTxProfile),
        Some(_) => None,
    }
}

/// Returns the first call whose profile a charge point can't have lost, as the machine notes after
/// the verdict on the audit of this number. `lost_before` is that call before the verdict.
fn lost_by_verdict(number: u64, verdict: Verdict, lost_before: u64) -> u64
    ensures { result ≡ lost_by_verdict number (Some verdict) lost_before }
{
    match verdict {
        Verdict::Agrees if number < lost_before => lost_before,
        Verdict::Agrees => 0,
        Verdict::Differs => lost_before.max(number),
        Verdict::Rejected | Verdict::Unsettled => lost_before,
    }
}

/// Copies the audit that the machine keeps of a charge point's reported composite schedule, if
/// there is one, sharing the book with which it is compared.
fn copy_of_audit(audit: &Option<PointAudit>) -> Result<Option<PointAudit>, AllocError>
    ensures { IfOk result (λ copy. copy ≡ audit.now) }
{
    match audit {
        None => Ok(None),
        Some(audit) => Ok(Some(audit.copy()?)),
    }
}
