//! The event that is noted of a step which a message requests.

ghost use Rattle.std.specs.Prelude.{◌≡◌, option_map};
ghost use Rattle.journal.specs.Line.{noted_state, sender_state};
ghost use Rattle.journal.specs.NotedStep.{ChangesAreRestored, ConfirmsAreRestored, LinksAreRestored, LossesAreRestored, SendsAreRestored, VerdictsAreRestored, noted_by};

use crate::line::{Noted, Sender};
use crate::restoring::is_change;
use site_core::Step;

/// Returns the event to note of a step that a message requests, once it is made. For a request for
/// a schedule or a status there is none. The number that the step draws isn't known yet, so it is
/// 0.
pub fn noted_by<'a>(step: &Step, sender: Sender<'a>, frame: &'a str) -> Option<Noted<'a>>
    ensures { option_map noted_state result
        ≡ noted_by step.now (sender_state sender.entry) frame.entry.now }
{
    if let Step::Confirm { link, .. } = step {
        return Some(Noted::Reply { link: *link, frame });
    }
    if is_change(step) {
        Some(Noted::Message {
            sender,
            number: 0,
            frame,
        })
    } else {
        None
    }
}

/// The noted line of a made step leads to the step's state. So a journal with these steps in their
/// order is restored to the state, except for the requests for schedules. These aren't noted, and
/// no other step depends on them.
pub fn noted_steps_are_restored()
    ensures changes { ChangesAreRestored }
    ensures confirms { ConfirmsAreRestored }
    ensures verdicts { VerdictsAreRestored }
    ensures links { LinksAreRestored }
    ensures sends { SendsAreRestored }
    ensures losses { LossesAreRestored }
{}
