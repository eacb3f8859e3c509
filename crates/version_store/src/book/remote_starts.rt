//! The book's method for remote starts. It doesn't change a point's book.

ghost use Rattle.std.specs.Prelude.{◌≡◌, IfOk, IfErr};
ghost use Rattle.site_core.specs.declared.step.Step.TheVariants as steps;
ghost use Rattle.site_core.specs.declared.reply.Reply.{Reply};
ghost use Rattle.version_store.specs.Calls.{Calls, IsRefusalOf};

use crate::book::Book;
use crate::pass::Pass;
use ghost_list::ListName;
use ocpp_scalars::{IdTag, Refusal};
use profile::Profile;
use site_core::{PointId, Refused, Reply, Step};
use std::sync::ledger::Ledger;

impl<C: Ledger, A: Ledger, N: ListName> Book<C, A, N> {
    /// Asks a point to start a transaction of an idTag at a connector (chapter 5.11). The start
    /// waits, in place of an earlier one at the connector. A transaction of that idTag begins with
    /// the TxProfile, if one is given. Returns the number of the call. On a refusal the idTag and
    /// the profile come back.
    pub fn remote_start(
        &mut self,
        pass: &mut Pass<C, A>,
        point: PointId,
        connector: u32,
        id_tag: IdTag,
        profile: Option<Profile>,
    ) -> Result<u64, (Refusal, IdTag, Option<Profile>)>
        ensures calls { IfOk result (λ call. Calls self.old pass.old
            (steps.RemoteStart point connector id_tag profile) (Reply.Called call)
            self.new pass.new) }
        ensures refusal { IfErr result (λ refused. IsRefusalOf self.old
            (steps.RemoteStart point connector id_tag profile) refused.0) }
        ensures kept { IfErr result (λ refused. (self.new ≡ self.old) × (pass.new ≡ pass.old)) }
        ensures id_tag_back { IfErr result (λ refused. refused.1 ≡ id_tag) }
        ensures profile_back { IfErr result (λ refused. refused.2 ≡ profile) }
    {
        let step = Step::RemoteStart {
            point,
            connector,
            id_tag,
            profile,
        };
        match self.make_step(pass, step) {
            Ok(Reply::Called(call)) => Ok(call),
            Ok(_) => unreachable!(),
            Err(
                Refused {
                    refusal,
                    step: Step::RemoteStart {
                        id_tag,
                        profile,
                        ..
                    },
                },
            ) => Err((refusal, id_tag, profile)),
            Err(_) => unreachable!(),
        }
    }
}
