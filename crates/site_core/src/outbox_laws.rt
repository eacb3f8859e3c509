//! The laws of an outbox over any traffic.

ghost use Rattle.site_core.specs.OutboxOrder.{AreSentInOrder, AreLeftUnlessConfirmed};

/// The laws of an outbox, for any order of new and lost links, and of calls added, sent and
/// confirmed. The numbers of the calls that are sent begin with 0, and each later one equals the
/// one before it or is one more. The calls in the outbox are calls 0, 1, .. without the confirmed
/// ones, where call 0 clears all profiles and call k is the k-th that was added.
pub fn calls_are_sent_in_order()
    ensures order { AreSentInOrder }
    ensures calls { AreLeftUnlessConfirmed }
{}
