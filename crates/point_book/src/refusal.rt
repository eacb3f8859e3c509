//! The refusals of TxProfiles.

ghost use Rattle.std.specs.Prelude.{◌≡◌};
ghost use Rattle.point_book.specs.Changes.{transaction_refusal};

use ocpp_scalars::Refusal;
use profile::{Profile, Purpose};

/// Returns the reason why the book of a charge point refuses a TxProfile: it isn't for the active
/// transaction, if there is one, at its connector (`NoTransaction` or `OtherTransaction`). Other
/// purposes have none.
pub(crate) fn transaction_refusal(active: Option<i32>, profile: &Profile) -> Option<Refusal>
    ensures { result ≡ transaction_refusal active profile.now }
{
    if profile.purpose != Purpose::TxProfile {
        return None;
    }
    // A TxProfile without a transactionId is for whichever transaction is active.
    match (active, profile.transaction) {
        (None, _) => Some(Refusal::NoTransaction),
        (Some(active), Some(asked)) if asked != active => Some(Refusal::OtherTransaction),
        _ => None,
    }
}
