//! The book's methods that change a point's book.

ghost use Rattle.std.specs.Prelude.{◌≡◌, true, IfOk, IfErr};
ghost use Rattle.site_core.specs.declared.step.Step.{Step};
ghost use Rattle.site_core.specs.declared.step.Step.TheVariants as steps;
ghost use Rattle.site_core.specs.declared.reply.Reply.{Reply};
ghost use Rattle.version_store.specs.Calls.{Calls, IsRefusalOf, row_of, clearing, ending, StartsAs};

use crate::book::Book;
use crate::pass::Pass;
use ghost_list::ListName;
use ocpp_scalars::{Instant, Refusal};
use profile::{Criteria, Profile, Row};
use site_core::{PointId, Refused, Reply, Step};
use std::sync::ledger::Ledger;
use transactions::Begin;

impl<C: Ledger, A: Ledger, N: ListName> Book<C, A, N> {
    /// Installs a profile at a connector of a point (chapter 5.16) at a moment. On a refusal the
    /// profile comes back.
    pub fn install(
        &mut self,
        pass: &mut Pass<C, A>,
        point: PointId,
        connector: u32,
        profile: Profile,
        moment: Instant,
    ) -> Result<(), (Refusal, Profile)>
        ensures calls { IfOk result (λ _. Calls self.old pass.old
            (steps.Install point (row_of connector moment profile)) Reply.Accepted
            self.new pass.new) }
        ensures refusal { IfErr result (λ refused. IsRefusalOf self.old
            (steps.Install point (row_of connector moment profile)) refused.0) }
        ensures kept { IfErr result (λ refused. (self.new ≡ self.old) × (pass.new ≡ pass.old)) }
        ensures back { IfErr result (λ refused. refused.1 ≡ profile) }
    {
        let row = Row {
            connector,
            moment,
            profile,
        };
        match self.make_step(pass, Step::Install { point, row }) {
            Ok(_) => Ok(()),
            Err(
                Refused {
                    refusal,
                    step: Step::Install { row, .. },
                },
            ) => Err((refusal, row.profile)),
            Err(_) => unreachable!(),
        }
    }

    /// Removes the profiles of a point that match each given criterion (chapter 5.5). Returns false
    /// if none matches; then nothing was changed.
    pub fn clear(
        &mut self,
        pass: &mut Pass<C, A>,
        point: PointId,
        criteria: Criteria,
    ) -> Result<bool, Refusal>
        ensures calls { IfOk result (λ removed. Calls self.old pass.old
            (steps.Clear point criteria) (clearing removed)
            self.new pass.new) }
        ensures refusal { IfErr result (λ refusal. IsRefusalOf self.old
            (steps.Clear point criteria) refusal) }
        ensures kept { IfErr result (λ refusal. (self.new ≡ self.old) × (pass.new ≡ pass.old)) }
    {
        match self.reply_to(pass, Step::Clear { point, criteria })? {
            Reply::Accepted => Ok(true),
            Reply::Unknown => Ok(false),
            _ => unreachable!(),
        }
    }

    /// Begins a transaction at a connector of a point (chapter 4.8), and returns its number. For a
    /// retransmitted start it returns the earlier number. On a refusal `begin` comes back.
    pub fn start(
        &mut self,
        pass: &mut Pass<C, A>,
        point: PointId,
        connector: u32,
        begin: Begin,
    ) -> Result<u64, (Refusal, Begin)>
        ensures starts { IfOk result (λ number. StartsAs self.old pass.old
            (steps.Start point connector begin) number self.new pass.new) }
        ensures refusal { IfErr result (λ refused. IsRefusalOf self.old
            (steps.Start point connector begin) refused.0) }
        ensures kept { IfErr result (λ refused. (self.new ≡ self.old) × (pass.new ≡ pass.old)) }
        ensures back { IfErr result (λ refused. refused.1 ≡ begin) }
    {
        let step = Step::Start {
            point,
            connector,
            begin,
        };
        match self.make_step(pass, step) {
            Ok(Reply::Started(number)) => Ok(u64::from(number.unsigned_abs())),
            Ok(Reply::Repeated(number)) => Ok(u64::from(number.unsigned_abs())),
            Ok(_) => unreachable!(),
            Err(
                Refused {
                    refusal,
                    step: Step::Start { begin, .. },
                },
            ) => Err((refusal, begin)),
            Err(_) => unreachable!(),
        }
    }

    /// Ends the transaction of this number at a point (chapter 4.10). Returns false if it isn't
    /// active there; then nothing was changed.
    pub fn stop(
        &mut self,
        pass: &mut Pass<C, A>,
        point: PointId,
        transaction: i32,
    ) -> Result<bool, Refusal>
        ensures calls { IfOk result (λ ended. Calls self.old pass.old
            (steps.Stop point transaction) (ending ended)
            self.new pass.new) }
        ensures refusal { IfErr result (λ refusal. IsRefusalOf self.old
            (steps.Stop point transaction) refusal) }
        ensures kept { IfErr result (λ refusal. (self.new ≡ self.old) × (pass.new ≡ pass.old)) }
    {
        match self.reply_to(pass, Step::Stop { point, transaction })? {
            Reply::Ended => Ok(true),
            Reply::NoSuch => Ok(false),
            _ => unreachable!(),
        }
    }
}
