//! Answers that depend neither on the fields of the action nor on the state of the site.

ghost use Rattle.std.specs.Prelude.{◌≡◌};
ghost use Rattle.messages.specs.FixedAnswer.{fixed_response};

use crate::response::Response;
use ocpp_scalars::Instant;

/// The answer to an action, whatever its fields are (chapter 6, the .conf payloads).
#[derive(Clone, Copy, PartialEq, Eq)]
pub enum FixedAnswer {
    BootNotification,
    Heartbeat,
    Authorize,
    /// An object without fields.
    Empty,
    UnknownVendorId,
}

impl FixedAnswer {
    /// Returns the response at this moment.
    pub fn response(self, current_time: Instant) -> Response
        ensures { result ≡ fixed_response self current_time }
    {
        match self {
            FixedAnswer::BootNotification => Response::BootNotification { current_time },
            FixedAnswer::Heartbeat => Response::Heartbeat { current_time },
            FixedAnswer::Authorize => Response::Authorize,
            FixedAnswer::Empty => Response::Empty,
            FixedAnswer::UnknownVendorId => Response::UnknownVendorId,
        }
    }
}
