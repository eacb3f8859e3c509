//! Steps whose states are recorded.

ghost use Rattle.std.specs.Prelude.{◌≡◌, true, IfOk, IfErr};
ghost use Rattle.site_core.specs.Step.{HasAskedConnector, is_reply_to};
ghost use Rattle.version_store.specs.Calls.{Makes, IsRefusalOf};
ghost use Rattle.version_store.specs.Passes.{totals_after};
ghost use Rattle.version_store.specs.Recording.{IsAt, is_of_request};
ghost use Rattle.version_store.specs.Store.{may_fold};

use crate::history::History;
use crate::recorded_states::StateRecorder;
use ghost_list::ListName;
use ocpp_scalars::Refusal;
use site_core::{Refused, Reply, Step};

/// Makes a step on the book's history that brings no answer. Records the state after a change, for
/// which the journal must account.
pub(crate) fn make_recorded<N: ListName>(
    history: &mut History,
    recorder: &mut StateRecorder<N>,
    step: Step,
) -> Result<Reply, Refused>
    requires can_fold { may_fold step ≡ true }
    requires recorded { IsAt N.is_recorded recorder.old history.old.present }
    ensures recorded { IsAt N.is_recorded recorder.new history.new.present }
    ensures makes { IfOk result (λ reply. Makes history.old step reply history.new) }
    ensures own { IfOk result (λ reply. is_reply_to step reply ≡ true) }
    ensures asked { IfOk result HasAskedConnector }
    ensures counts { IfOk result
        (λ reply. history.new.made ≡ totals_after history.old.made reply) }
    ensures refusal { IfErr result (λ refused. IsRefusalOf history.old step refused.refusal) }
    ensures kept { IfErr result (λ refused. history.new ≡ history.old) }
    ensures back { IfErr result (λ refused. refused.step ≡ step) }
{
    let was_stopped = history.present().is_stopped();
    let is_request = is_of_request(&step);
    let reply = history.make(step)?;
    // Requests aren't restored from a journal, so its entries needn't account for them.
    if !is_request && reply.is_event(was_stopped) {
        recorder.record(history.present());
    }
    Ok(reply)
}

/// Makes a step on the book's history as `make_recorded` does. On a refusal the step is dropped.
pub(crate) fn make_recorded_or_drop<N: ListName>(
    history: &mut History,
    recorder: &mut StateRecorder<N>,
    step: Step,
) -> Result<Reply, Refusal>
    requires can_fold { may_fold step ≡ true }
    requires recorded { IsAt N.is_recorded recorder.old history.old.present }
    ensures recorded { IsAt N.is_recorded recorder.new history.new.present }
    ensures makes { IfOk result (λ reply. Makes history.old step reply history.new) }
    ensures own { IfOk result (λ reply. is_reply_to step reply ≡ true) }
    ensures counts { IfOk result
        (λ reply. history.new.made ≡ totals_after history.old.made reply) }
    ensures refusal { IfErr result (λ refusal. IsRefusalOf history.old step refusal) }
    ensures kept { IfErr result (λ refusal. history.new ≡ history.old) }
{
    match make_recorded(history, recorder, step) {
        Ok(reply) => Ok(reply),
        Err(refused) => Err(refusal_of(refused)),
    }
}

/// Returns the reason why the book refused a step, and drops the step.
// A function of its own: the drop of a step has a case for each kind, which its callers then lack.
pub(crate) fn refusal_of(refused: Refused) -> Refusal
    ensures { result ≡ refused.refusal }
{
    refused.refusal
}

/// Returns whether a step takes, compiles or answers a request for a composite schedule. A journal
/// needn't account for such a step of the book.
fn is_of_request(step: &Step) -> bool
    ensures { result ≡ is_of_request step.now }
{
    matches!(step, Step::Take(_) | Step::Compile(_) | Step::Answer(_))
}
