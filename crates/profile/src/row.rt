//! A profile as a point keeps it.

ghost use Rattle.std.specs.Prelude.{◌≡◌, ◌↔◌, IsTrue, IfOk};

use crate::charging_profile::Profile;
use crate::purpose::Purpose;
use ocpp_scalars::Instant;
use std::alloc::AllocError;

/// A profile as a point keeps it (chapter 5.16): with its connector, 0 for the whole point, and the
/// moment of its install.
#[derive(Drop)]
pub struct Row {
    pub connector: u32,
    /// The moment of its install.
    pub moment: Instant,
    pub profile: Profile,
}

impl Row {
    ghost use Rattle.profile.specs.Row.{base};

    /// Returns the instant from which the profile counts if it has no start of its own. For a
    /// ChargePointMaxProfile it is the install. Otherwise it is the start of the active transaction
    /// at the requested connector, or without one the start of the requested schedule.
    pub fn base(&self, started: Option<Instant>, asked: Instant) -> Instant
        ensures { result ≡ base self.now started asked }
    {
        match self.profile.purpose {
            Purpose::ChargePointMaxProfile => self.moment,
            // From the install, a car's schedule would begin before the car came; with no base, a
            // default would be hidden until a car comes.
            Purpose::TxDefaultProfile | Purpose::TxProfile => started.unwrap_or(asked),
        }
    }

    /// Returns a copy.
    pub fn copy(&self) -> Result<Row, AllocError>
        ensures { IfOk result (λ copy. copy ≡ self.now) }
    {
        Ok(Row {
            connector: self.connector,
            moment: self.moment,
            profile: self.profile.copy()?,
        })
    }

    /// Whether two rows are equal.
    pub fn same(&self, other: &Row) -> bool
        ensures { IsTrue result ↔ (self.now ≡ other.now) }
    {
        self.connector == other.connector
            && self.moment == other.moment
            && self.profile.same(&other.profile)
    }
}
