//! The unit of a schedule's limits.

ghost use Rattle.std.specs.Prelude.{◌≡◌};
ghost use Rattle.profile.specs.Unit.{unit_eq};

/// The unit of a schedule's limits (chapter 7, ChargingRateUnitType).
#[derive(Clone, Copy, PartialEq, Eq)]
pub enum Unit {
    /// Amperes.
    A,
    /// Watts.
    W,
}

impl Unit {
    /// Whether two units are equal.
    pub fn is_same(self, other: Unit) -> bool
        ensures { result ≡ unit_eq self other }
    {
        match (self, other) {
            (Unit::A, Unit::A) | (Unit::W, Unit::W) => true,
            (Unit::A, Unit::W) | (Unit::W, Unit::A) => false,
        }
    }
}
