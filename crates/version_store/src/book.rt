//! The book of the central system, as sessions use it.

ghost use Rattle.std.specs.Prelude.{◌≡◌, ◌<◌, ◌≤◌, true, IfOk, IfErr, All, length};
ghost use Rattle.site_core.specs.declared.step.Step.{Step};
ghost use Rattle.site_core.specs.State.{IsMachine, opening, link_of, link_to_send, outbox_len};
ghost use Rattle.site_core.specs.Step.{HasAskedConnector, is_reply_to};
ghost use Rattle.version_store.specs.Passes.{unused_pass, totals_together};
ghost use Rattle.version_store.specs.Recording.{IsAt};
ghost use Rattle.version_store.specs.Store.{IsStore, opening_store, may_fold};
ghost use Rattle.version_store.specs.Calls.{Calls, IsRefusalOf};

mod audits;
mod changes;
mod links;
mod remote_starts;
mod requests;

use crate::folded::{EventRoom, Folded};
use crate::history::History;
use crate::ledgers::Ledgers;
use crate::pass::{Pass, passes_of};
use crate::recorded_states::{NoName, RecordedStates, StateRecorder};
use crate::recorder::{make_recorded, refusal_of};
use crate::stored_event::StoredEvent;
use crate::totals::Totals;
use ghost_list::{ListName, Unnamed};
use ocpp_scalars::Refusal;
use site_core::{Machine, Refused, Reply, Step};
use site_rules::Site;
use std::alloc::{AllocError, Global};
use std::marker::Model;
use std::sync::ledger::{Blank, Ledger};

/// The central system of a site with the history that led to it. Each call that changes something
/// adds one event, and no call is ever refused because the history is full. A pass fits only the
/// book that it was made with: the types of the two ledgers ensure that.
#[derive(Drop)]
pub struct Book<C: Ledger, A: Ledger, N: ListName = NoName> {
    history: History,
    ledgers: Ledgers<C, A>,
    /// The recorder of its changes.
    recorder: StateRecorder<N>,
}

impl<C: Ledger, A: Ledger, N: ListName> Model for Book<C, A, N> {
    ghost use Rattle.std.specs.Prelude.{◌≡◌};
    ghost use Rattle.version_store.specs.Recording.{IsAt};
    ghost use Rattle.version_store.specs.Store.{StoreState};

    ghost Value = { StoreState };

    ghost view = { λ book. book.history };

    ghost invariant = { λ book. (book.ledgers ≡ book.history.made)
        × IsAt N.is_recorded book.recorder book.history.present };
}

impl<C: Ledger, A: Ledger> Book<C, A> {
    /// Makes the book of a site at its opening, with an unused pass for each session.
    pub fn make(
        alloc: Global,
        changes: Blank,
        answers: Blank,
        site: Site,
        sessions: u64,
    ) -> Result<(Book<C, A>, Vec<Pass<C, A>>), AllocError>
        requires changes { (changes.name ≡ C.name) × (changes.parts ≡ C.parts)
            × (changes.parts ≡ sessions) }
        requires answers { (answers.name ≡ A.name) × (answers.parts ≡ A.parts)
            × (answers.parts ≡ sessions) }
        ensures book { IfOk result (λ made. made.0 ≡ opening_store site) }
        ensures passes { IfOk result (λ made. length made.1.items ≡ sessions) }
        ensures unused { IfOk result (λ made. All (λ pass. pass ≡ unused_pass) made.1.items) }
    {
        Book::make_from(
            alloc,
            changes,
            answers,
            site,
            sessions,
            StateRecorder::nothing(),
        )
    }
}

impl<C: Ledger, A: Ledger, N: ListName> Book<C, A, N> {
    /// Makes the same, with its states recorded in a ghost list.
    pub fn make_with(
        alloc: Global,
        changes: Blank,
        answers: Blank,
        site: Site,
        sessions: u64,
        states: Unnamed,
    ) -> Result<(Book<C, A, N>, Vec<Pass<C, A>>), AllocError>
        requires changes { (changes.name ≡ C.name) × (changes.parts ≡ C.parts)
            × (changes.parts ≡ sessions) }
        requires answers { (answers.name ≡ A.name) × (answers.parts ≡ A.parts)
            × (answers.parts ≡ sessions) }
        requires states { states.name ≡ N.name }
        requires recorded { N.is_recorded ≡ true }
        ensures book { IfOk result (λ made. made.0 ≡ opening_store site) }
        ensures passes { IfOk result (λ made. length made.1.items ≡ sessions) }
        ensures unused { IfOk result (λ made. All (λ pass. pass ≡ unused_pass) made.1.items) }
    {
        let recorder = StateRecorder::new(states, &site);
        Book::make_from(alloc, changes, answers, site, sessions, recorder)
    }

    /// Makes the book of a site's central system at its opening, with a pass for each session and
    /// the recorder of its states.
    fn make_from(
        alloc: Global,
        changes: Blank,
        answers: Blank,
        site: Site,
        sessions: u64,
        recorder: StateRecorder<N>,
    ) -> Result<(Book<C, A, N>, Vec<Pass<C, A>>), AllocError>
        requires changes { (changes.name ≡ C.name) × (changes.parts ≡ C.parts)
            × (changes.parts ≡ sessions) }
        requires answers { (answers.name ≡ A.name) × (answers.parts ≡ A.parts)
            × (answers.parts ≡ sessions) }
        requires recorded { IsAt N.is_recorded recorder (opening site) }
        ensures book { IfOk result (λ made. made.0 ≡ opening_store site) }
        ensures passes { IfOk result (λ made. length made.1.items ≡ sessions) }
        ensures unused { IfOk result (λ made. All (λ pass. pass ≡ unused_pass) made.1.items) }
    {
        let history = History::new(alloc, site)?;
        let (ledgers, changed, answered) = Ledgers::open(changes, answers);
        // All passes are made now: a later one could count a session twice, against the totals.
        let passes = passes_of(alloc, changed, answered, sessions)?;
        let book = Book {
            history,
            ledgers,
            recorder,
        };
        Ok((book, passes))
    }

    /// Ends the book with the passes of all its sessions. Returns the numbers of changes made and
    /// of answers handed out, which are the sums of those passes.
    pub fn settle(self, passes: Vec<Pass<C, A>>) -> Totals
        requires changes { C.parts ≤ length passes.items }
        requires answers { A.parts ≤ length passes.items }
        ensures own { result ≡ self.made }
        ensures together { result ≡ totals_together passes.items }
    {
        let totals = self.totals();
        self.ledgers.settle(passes);
        totals
    }
}

impl<C: Ledger, A: Ledger, N: ListName> Book<C, A, N> {
    /// Returns the states that are recorded by now.
    pub fn recorded(&self) -> RecordedStates<N>
        ensures { IsAt N.is_recorded result self.now.present }
    {
        self.recorder.recorded()
    }

    /// Makes a step of a session. Methods such as `install` each make such a step. On a refusal the
    /// step comes back.
    pub fn make_step(&mut self, pass: &mut Pass<C, A>, step: Step) -> Result<Reply, Refused>
        requires { may_fold step ≡ true }
        ensures calls { IfOk result
            (λ reply. Calls self.old pass.old step reply self.new pass.new) }
        ensures own { IfOk result (λ reply. is_reply_to step reply ≡ true) }
        ensures asked { IfOk result HasAskedConnector }
        ensures refusal { IfErr result (λ refused. IsRefusalOf self.old step refused.refusal) }
        ensures kept { IfErr result (λ refused. (self.new ≡ self.old) × (pass.new ≡ pass.old)) }
        ensures back { IfErr result (λ refused. refused.step ≡ step) }
    {
        let reply = make_recorded(&mut self.history, &mut self.recorder, step)?;
        let version = self.history.present().version();
        self.ledgers
            .count(pass, &reply, self.history.made(), version);
        Ok(reply)
    }

    /// Makes a step of a session for the book's methods whose arguments don't come back on a
    /// refusal.
    fn reply_to(&mut self, pass: &mut Pass<C, A>, step: Step) -> Result<Reply, Refusal>
        requires { may_fold step ≡ true }
        ensures calls { IfOk result
            (λ reply. Calls self.old pass.old step reply self.new pass.new) }
        ensures own { IfOk result (λ reply. is_reply_to step reply ≡ true) }
        ensures asked { IfOk result HasAskedConnector }
        ensures refusal { IfErr result (λ refusal. IsRefusalOf self.old step refusal) }
        ensures kept { IfErr result (λ refusal. (self.new ≡ self.old) × (pass.new ≡ pass.old)) }
    {
        match self.make_step(pass, step) {
            Ok(reply) => Ok(reply),
            Err(refused) => Err(refusal_of(refused)),
        }
    }

    /// Returns the number of stored events. Also shows the invariant of a book. Its present state
    /// is the replay of its base and of these events, and the history is legal. Each kept request
    /// has the book that its Take, or the base, gave it. Each answer is right for that book and the
    /// `Ask`. Each point's audit has the book that the point had when it was begun, and its verdict
    /// is Unsettled, or one on that book and something that the point may have replied.
    pub fn stored(&self) -> usize
        ensures value { result ≡ length self.now.events }
        ensures store { IsStore self.now }
    {
        self.history.events().len()
    }

    /// Returns the state that the stored events begin with.
    pub fn base(&self) -> &Machine
        ensures value { result.now ≡ self.now.base }
        ensures machine { IsMachine self.now.base }
    {
        let base = self.history.base();
        base.open_requests();
        base
    }

    /// Returns the stored events, in order.
    pub fn events(&self) -> &[StoredEvent]
        ensures { result.now ≡ self.now.events }
    {
        self.history.events()
    }

    /// Returns the present state.
    pub fn present(&self) -> &Machine
        ensures { result.now ≡ self.now.present }
    {
        self.history.present()
    }

    /// Takes the remains of the last fold, if they weren't taken yet. Callers that share the book
    /// drop them without its lock.
    pub fn take_folded(&mut self) -> Option<Folded>
        ensures { self.new ≡ self.old }
    {
        self.history.take_folded()
    }

    /// Gives back the memory of events that `Folded::into_room` left, so that the next fold needs
    /// no other.
    pub fn give_room(&mut self, room: EventRoom)
        ensures { self.new ≡ self.old }
    {
        self.history.give_room(room);
    }

    /// Returns the numbers of changes made and answers handed out, by all sessions.
    pub fn totals(&self) -> Totals
        ensures { result ≡ self.now.made }
    {
        self.history.made()
    }

    /// Returns the version of the store: the number of changes of points' books.
    pub fn version(&self) -> u64
        ensures { result ≡ self.now.present.numbers.version }
    {
        self.present().version()
    }

    /// Returns the number of kept requests for schedules.
    pub fn open_requests(&self) -> usize
        ensures { result ≡ length self.now.present.requests }
    {
        self.present().open_requests()
    }

    /// Returns the number of unconfirmed calls of the point of an identity, 0 if the site has no
    /// such point.
    pub fn outbox_len(&self, point: &str) -> usize
        ensures { result ≡ outbox_len self.now.present point.now }
    {
        self.present().outbox_len(point)
    }

    /// Returns the present link of the point of an identity, if it has one.
    pub fn link_of(&self, point: &str) -> Option<u64>
        ensures { result ≡ link_of self.now.present point.now }
    {
        self.present().link_of(point)
    }

    /// Returns the link over which a call can be sent now to the point of an identity, if there is
    /// such a call.
    pub fn link_to_send(&self, point: &str) -> Option<u64>
        ensures { result ≡ link_to_send self.now.present point.now }
    {
        self.present().link_to_send(point)
    }

    /// Whether the central system is stopped.
    pub fn is_stopped(&self) -> bool
        ensures { result ≡ self.now.present.is_stopped }
    {
        self.present().is_stopped()
    }
}
