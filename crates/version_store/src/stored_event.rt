//! Events as they are stored.

ghost use Rattle.std.specs.Prelude.{◌≡◌};
ghost use Rattle.version_store.specs.Calls.{event_alone, compile_event};

use meaning::Composite;
use ocpp_scalars::Refusal;
use site_core::Step;
use std::marker::Model;

/// An event of a stored history: a step that was made, and for a Compile the answer that it
/// brought.
#[derive(Drop)]
pub struct StoredEvent {
    step: Step,
    /// `OutOfMemory` if the step isn't a Compile.
    answer: Result<Composite, Refusal>,
}

impl Model for StoredEvent {
    ghost use Rattle.site_core.specs.StoredHistory.{StoredEvent};

    ghost Value = { StoredEvent };

    ghost view = { λ event. record { step = event.step; answer = event.answer } };
}

impl StoredEvent {
    /// Makes the event of the book's history for a step that isn't a Compile, so that no compiled
    /// answer is stored.
    pub(crate) fn alone(step: Step) -> StoredEvent
        ensures { result ≡ event_alone step }
    {
        StoredEvent {
            step,
            answer: Err(Refusal::OutOfMemory),
        }
    }

    /// Makes the event of the book's history that the request of this number for a composite
    /// schedule was compiled with this answer.
    pub(crate) fn compiled(number: u64, answer: Result<Composite, Refusal>) -> StoredEvent
        ensures { result ≡ compile_event number answer }
    {
        StoredEvent {
            step: Step::Compile(number),
            answer,
        }
    }

    /// Returns the step.
    pub fn step(&self) -> &Step
        ensures { result.now ≡ self.now.step }
    {
        &self.step
    }
}
