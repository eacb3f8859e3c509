//! The law of verdicts, on a function that does nothing.

ghost use Rattle.std.specs.Prelude.{◌≡◌, ◌↔◌};
ghost use Rattle.meaning.specs.declared.said.Said.{Said};
ghost use Rattle.sweep_compiler.specs.declared.verdict.Verdict.{Verdict};
ghost use Rattle.sweep_compiler.specs.Verdict.{AuditRequest, IsVerdict};
ghost use Rattle.sweep_compiler.specs.ByCases.Verdict.{verdict_of};

use meaning::{exact_schedules, said_schedules};

/// The law that the verdict of an audit on its point's reply is the computed one. So there is
/// exactly one verdict.
pub fn verdicts_are_computed()
    ensures { (audit : AuditRequest) (said : Said) (verdict : Verdict)
        → IsVerdict audit said verdict ↔ (verdict_of audit said ≡ verdict) }
{
    // These calls make the laws available to the proof. They do nothing at run time.
    exact_schedules();
    said_schedules();
}
