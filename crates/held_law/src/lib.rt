//! The laws of what a point is known to have: a profile that is held is one that the point has.
#![tactic(auto)]

ghost use Rattle.held_law.specs.Held.{HeldProfilesAreHad, MachinesKnowWhatIsHeld};

use site_core::histories_go_on_from_any_state;

/// The law that a point has each ChargePointMaxProfile and TxDefaultProfile that is held, if it
/// accepts a call only once it has obeyed it. It may reject calls, and forget everything at any
/// boot, once it has said that it booted. It agrees in an audit only while it has what it accepted.
/// Sendings and replies may be lost, and calls may be obeyed again. Only the moments of the
/// installs may differ.
pub fn held_profiles_are_had()
    ensures { HeldProfilesAreHad }
{}

/// The same law of each point of a site, along every legal history of a machine.
pub fn machines_know_what_is_held()
    ensures { MachinesKnowWhatIsHeld }
{
    histories_go_on_from_any_state();
}
