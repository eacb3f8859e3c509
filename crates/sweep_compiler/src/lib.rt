//! The sweep compiler of composite schedules (OCPP 1.6, chapter 5.7). It evaluates the limit only
//! at the start of a request and at the places after it, the instants at which a profile may change
//! its limit: `specs/Places.antt`.
#![tactic(auto)]

mod agreement;
mod audit_job;
mod bounded;
mod compiled;
mod compiler;
mod curve;
mod explained;
mod explanation;
mod explanation_laws;
mod gathering;
mod interval;
mod judged;
mod limit_curve;
mod queue;
mod run;
mod sweep;
mod turns;
mod verdict;
mod verdict_laws;

pub use agreement::agree;
pub use audit_job::AuditJob;
pub use compiled::Compiled;
pub use compiler::compile;
pub use explained::explain;
pub use explanation::Explanation;
pub use explanation_laws::explanations_are_schedules;
pub use interval::Interval;
pub use judged::Judged;
pub use turns::Turns;
pub use verdict::Verdict;
pub use verdict_laws::verdicts_are_computed;
