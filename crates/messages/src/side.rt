//! The sender of an action.
ghost use Rattle.std.specs.Prelude.{◌≡◌};
ghost use Rattle.messages.specs.ActionKind.{side_eq, side_of};

use crate::action_kind::ActionKind;

/// A side of a conversation with the central system.
#[derive(Clone, Copy, PartialEq, Eq)]
pub enum Side {
    /// An operator of the site. OCPP has no operators: their messages have the form of OCPP-J, but
    /// are our own use of it.
    Operator,
    /// A charge point.
    Point,
}

impl Side {
    /// Returns whether two sides are the same.
    pub fn is_same(self, other: Side) -> bool
        ensures { result ≡ side_eq self other }
    {
        match (self, other) {
            (Side::Operator, Side::Operator) | (Side::Point, Side::Point) => true,
            (Side::Operator, Side::Point) | (Side::Point, Side::Operator) => false,
        }
    }
}

/// Returns the side that sends the action of this name, or `None` if it isn't known. Allocates
/// nothing.
pub fn side_of(action: &str) -> Option<Side>
    ensures { result ≡ side_of action.now }
{
    match ActionKind::named(action) {
        Some(kind) => Some(kind.side()),
        None => None,
    }
}
