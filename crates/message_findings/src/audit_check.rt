//! Checks the outcome of a charge point's audit, by the reply in a line.

use crate::report::Report;
use messages::AuditOutcome;
use site_core::Machine;

/// The audit whose call a line's reply confirmed, and the verdict on that reply.
#[derive(Clone, Copy)]
pub(crate) struct JudgedAudit {
    /// The number of its call.
    pub call: u64,
    pub connector: u32,
    /// In seconds.
    pub duration: u32,
    pub outcome: AuditOutcome,
}

/// Returns a point's last audit (a GetCompositeSchedule to compare) after a reply of the point
/// confirmed a call. `check` reports a finding about that reply in a script or a journal.
// That may be another call than the audit's, so its number is compared with the reply's id later.
pub(crate) fn judged_audit(machine: &Machine, point: &str) -> Option<JudgedAudit> {
    let audit = machine.audit_of(point)?;
    Some(JudgedAudit {
        call: audit.number(),
        connector: audit.asked().connector(),
        duration: audit.asked().duration(),
        outcome: audit.outcome(),
    })
}

/// Checks, for `check`, a point's reply to an audit (a GetCompositeSchedule) in a script or a
/// journal. Warns if its schedule differs from what the central system means, or is missing.
/// Remarks if they can't be compared.
pub(crate) fn check_verdict(report: &mut Report, audit: &JudgedAudit) {
    let JudgedAudit {
        connector,
        duration,
        ..
    } = *audit;
    match audit.outcome {
        AuditOutcome::Differs => report.warn(format!(in report.alloc;
            "Differs: the point's schedule of connector {connector} for {duration} s differs from what the central system means"
        )),
        AuditOutcome::Rejected => report.warn(format!(in report.alloc;
            "Rejected: the point tells no schedule of connector {connector} for {duration} s"
        )),
        AuditOutcome::Unsettled => report.remark(format!(in report.alloc;
            "Unsettled: the point's schedule of connector {connector} for {duration} s can't be compared with what the central system means"
        )),
        AuditOutcome::NoAudit | AuditOutcome::Waiting | AuditOutcome::Agrees => {}
    }
}
