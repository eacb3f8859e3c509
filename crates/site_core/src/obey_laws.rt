//! The laws of a point that obeys its calls.

ghost use Rattle.site_core.specs.Obey.{StaysInStep};
ghost use Rattle.site_core.specs.ObeyOrder.{AreObeyedInOrder};

/// The law that a point stays in step if it obeys the calls that are sent to it, in the order of
/// their sendings. Sendings and replies may be lost, and calls may be sent again. The point's
/// ChargePointMaxProfiles and TxDefaultProfiles are those that the central system had for it when
/// it made the last of these calls. Only the moments of their installs may differ, and the profiles
/// of an exempt id. Such an id is that of a transaction's own profile, until a profile with it is
/// installed or all with it are cleared.
pub fn obeying_point_stays_in_step()
    ensures { StaysInStep }
{}

/// The law that a point leaves no call out if it obeys calls in the order of their sendings, and
/// each confirmed call at least once. Sendings may be lost. The first obeyed call is call 0, and
/// each later one is the one before it again, or the next one.
pub fn obeying_point_leaves_no_call_out()
    ensures { AreObeyedInOrder }
{}
