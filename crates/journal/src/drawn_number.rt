//! The number that a step draws, and the written number of its line.

ghost use Rattle.std.specs.Prelude.{◌≡◌, Some};
ghost use Rattle.journal.specs.Restore.{number_drawn, number_fault, unless_fault};

use crate::restore_fault::RestoreFault;
use site_core::Reply;

/// Returns the number that the journal has for a step with this reply, which left the store at this
/// version: the number of the transaction, of the call or of the link, at a boot that of the first
/// unconfirmed call, or else the version. Returns `None` for a step that changed nothing, and for
/// one that draws no number.
pub fn number_drawn(reply: &Reply, version: u64) -> Option<u64>
    ensures { result ≡ number_drawn reply.now version }
{
    match reply {
        Reply::Accepted | Reply::Ended => Some(version),
        // Transaction numbers are positive, so this keeps their value.
        Reply::Started(transaction) => Some(u64::from(transaction.unsigned_abs())),
        Reply::Audited { call, .. } | Reply::Called(call) => Some(*call),
        Reply::Attached(link) => Some(*link),
        Reply::Sent(call) => Some(call.number),
        Reply::Booted(first) => Some(*first),
        Reply::Unknown
        | Reply::Repeated(_)
        | Reply::NoSuch
        | Reply::Taken { .. }
        | Reply::Compiled
        | Reply::Answered { .. }
        | Reply::NotYet
        | Reply::Finished
        | Reply::Nothing
        | Reply::Confirmed
        | Reply::LinkLost
        | Reply::VerdictKept
        | Reply::Status(_) => None,
    }
}

/// Compares the number written in a line of the journal with the one that its step drew when it was
/// restored.
pub(crate) fn compare(written: u64, drawn: Option<u64>) -> Result<(), RestoreFault>
    ensures { result ≡ unless_fault (number_fault (Some written) drawn) tt }
{
    match drawn {
        None => Err(RestoreFault::Unchanged),
        Some(drawn) if drawn == written => Ok(()),
        Some(drawn) => Err(RestoreFault::OtherNumber { written, drawn }),
    }
}
