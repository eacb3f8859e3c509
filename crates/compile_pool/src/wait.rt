//! The wait for an answer.

ghost use Rattle.std.specs.Prelude.{◌≡◌, false, IfOk, IfErr};
ghost use Rattle.ocpp_scalars.specs.declared.refusal.Refusal.{Refusal};
ghost use Rattle.site_core.specs.Right.{IsRight};
ghost use Rattle.version_store.specs.Answers.{awaits};
ghost use Rattle.compile_pool.specs.Wait.{CountsOneAnswer};

use ghost_list::ListName;
use ocpp_scalars::Refusal;
use std::sync::Wait;
use std::sync::ledger::Ledger;
use version_store::{Answer, Book, Pass, Shared};

/// Waits until the request of a number has its answer, and collects it (chapter 5.7). The refusal
/// is `UnknownRequest`, if the request isn't kept, or another session has collected it.
pub fn wait_answer<C: Ledger, A: Ledger, R: Wait, N: ListName>(
    rt: &R,
    shared: &Shared<C, A, N>,
    pass: &mut Pass<C, A>,
    number: u64,
) -> Result<Answer, Refusal>
    ensures numbered { IfOk result (λ answer. answer.number ≡ number) }
    ensures right { IfOk result (λ answer. IsRight answer.book answer.ask answer.answer) }
    ensures counts { IfOk result (λ answer. CountsOneAnswer pass.old pass.new) }
    ensures refusal { IfErr result (λ refusal. refusal ≡ Refusal.UnknownRequest) }
    ensures kept { IfErr result (λ refusal. pass.new ≡ pass.old) }
{
    let mut book = shared.until_answered(rt, number);
    collect_answer(&mut book, pass, number)
}

/// Collects the answer to the request of a number, which has it or isn't kept. The refusal is
/// `UnknownRequest`, if it isn't.
pub fn collect_answer<C: Ledger, A: Ledger, N: ListName>(
    book: &mut Book<C, A, N>,
    pass: &mut Pass<C, A>,
    number: u64,
) -> Result<Answer, Refusal>
    requires { awaits book.old.present number ≡ false }
    ensures numbered { IfOk result (λ answer. answer.number ≡ number) }
    ensures right { IfOk result (λ answer. IsRight answer.book answer.ask answer.answer) }
    ensures counts { IfOk result (λ answer. CountsOneAnswer pass.old pass.new) }
    ensures refusal { IfErr result (λ refusal. refusal ≡ Refusal.UnknownRequest) }
    ensures kept { IfErr result (λ refusal. pass.new ≡ pass.old) }
{
    match book.collect(pass, number) {
        Ok(Some(answer)) => Ok(answer),
        Ok(None) => unreachable!(),
        Err(refusal) => Err(refusal),
    }
}
