//! Counts of changes and answers over all sessions.

ghost use Rattle.std.specs.Prelude.{◌≡◌, ◌≤◌, length};
ghost use Rattle.version_store.specs.Passes.{no_totals, totals_after, pass_after, totals_together};

use crate::pass::Pass;
use crate::totals::Totals;
use site_core::Reply;
use std::marker::Model;
use std::sync::ledger;
use std::sync::ledger::{Blank, Ledger, Share};

/// The changes and answers of all passes, each of which has its part of both. Takes no memory.
#[derive(Drop)]
pub(crate) struct Ledgers<C: Ledger, A: Ledger> {
    changed: ledger::Book<C>,
    answered: ledger::Book<A>,
    /// Shares of no part. In the end they take in those of the passes.
    no_changes: Share<C>,
    no_answers: Share<A>,
}

impl<C: Ledger, A: Ledger> Model for Ledgers<C, A> {
    ghost use Rattle.std.specs.Prelude.{◌≡◌};
    ghost use Rattle.version_store.specs.declared.totals.Totals.{Totals};

    ghost Value = { Totals };

    ghost view = { λ l. record { changes = l.changed.total; answers = l.answered.total } };

    ghost invariant = { λ l. (l.no_changes.parts ≡ 0) × (l.no_changes.amount ≡ 0)
        × (l.no_answers.parts ≡ 0) × (l.no_answers.amount ≡ 0) };
}

impl<C: Ledger, A: Ledger> Ledgers<C, A> {
    /// Opens the ledgers with nothing counted, and returns all parts of both.
    pub fn open(changes: Blank, answers: Blank) -> (Ledgers<C, A>, Share<C>, Share<A>)
        requires changes { (changes.name ≡ C.name) × (changes.parts ≡ C.parts) }
        requires answers { (answers.name ≡ A.name) × (answers.parts ≡ A.parts) }
        ensures ledgers { result.0 ≡ no_totals }
        ensures parts { (result.1.parts ≡ C.parts) × (result.2.parts ≡ A.parts) }
        ensures amounts { (result.1.amount ≡ 0) × (result.2.amount ≡ 0) }
    {
        let (changed, mut all_changed) = changes.open();
        let (answered, mut all_answered) = answers.open();
        let ledgers = Ledgers {
            changed,
            answered,
            no_changes: all_changed.empty(),
            no_answers: all_answered.empty(),
        };
        (ledgers, all_changed, all_answered)
    }

    /// Counts a call of a session in its pass. After it, the totals and the version are these.
    pub fn count(&mut self, pass: &mut Pass<C, A>, reply: &Reply, totals: Totals, version: u64)
        requires { totals ≡ totals_after self.old reply.now }
        ensures totals { self.new ≡ totals }
        ensures counts { pass.new ≡ pass_after pass.old reply.now version }
    {
        let counted = Totals::of(reply);
        // The audits change nothing: they show that a pass counts at most the total, so that its
        // counts can't overflow.
        self.changed.audit(&mut pass.changed);
        self.answered.audit(&mut pass.answered);
        self.changed.add(&mut pass.changed, counted.changes);
        self.answered.add(&mut pass.answered, counted.answers);
        pass.totals = pass.totals.after(reply);
        pass.seen = pass.seen.max(version);
    }

    /// Ends the counts: the sums of all passes are the totals.
    pub fn settle(self, passes: Vec<Pass<C, A>>)
        requires changes { C.parts ≤ length passes.items }
        requires answers { A.parts ≤ length passes.items }
        ensures { totals_together passes.items ≡ self }
    {
        let Ledgers {
            mut changed,
            mut answered,
            no_changes: mut all_changed,
            no_answers: mut all_answered,
        } = self;
        for pass in passes {
            let (changed, answered) = pass.into_shares();
            all_changed.merge(changed);
            all_answered.merge(answered);
        }
        changed.audit(&mut all_changed);
        answered.audit(&mut all_answered);
    }
}
