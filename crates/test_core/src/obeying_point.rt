//! Random numbers, and the profiles of a charge point that obeys its calls.

use messages::CallBody;
use profile::{Criteria, Profile, Purpose};
use std::alloc::AllocError;

/// A linear congruential generator.
#[derive(Drop)]
pub(crate) struct RandomNumbers {
    pub(crate) state: u32,
}

impl RandomNumbers {
    /// Returns a pseudorandom number below `limit`, or 0 if there is none, from which the steps of
    /// the central system's random test are drawn.
    pub(crate) fn below(&mut self, limit: u8) -> u8 {
        let product = self.state.wrapping_mul(1_664_525);
        self.state = product.wrapping_add(1_013_904_223);
        (self.state >> 24) as u8 % limit.max(1)
    }
}

/// The rows of a point: what identifies them, and their first limit.
#[derive(Clone, Copy, PartialEq, Eq)]
pub(crate) struct Keys {
    id: i32,
    connector: u32,
    purpose: Purpose,
    level: u32,
    limit: u32,
}

impl Keys {
    /// Returns the fields that identify a charging profile at a connector, and its first limit, for
    /// the obeying charge point of a test.
    pub(crate) fn of(connector: u32, profile: &Profile) -> Keys {
        Keys {
            id: profile.id,
            connector,
            purpose: profile.purpose,
            level: profile.stack_level,
            limit: profile.schedule.periods.limit_in_force(0).unwrap_or(0),
        }
    }

    /// Whether the obeying charge point of a test removes the profile of these keys when it clears
    /// by criteria (OCPP 1.6, 5.5).
    fn is_cleared(self, criteria: &Criteria) -> bool {
        criteria.id.unwrap_or(self.id) == self.id
            && criteria.connector.unwrap_or(self.connector) == self.connector
            && criteria.purpose.unwrap_or(self.purpose) == self.purpose
            && criteria.stack_level.unwrap_or(self.level) == self.level
    }

    /// Whether the obeying charge point of a test replaces the profile of these keys when it gets a
    /// profile of new ones (OCPP 1.6, 5.16).
    fn is_replaced(self, new: Keys) -> bool {
        self.id == new.id
            || self.connector == new.connector
                && self.purpose == new.purpose
                && self.level == new.level
    }
}

/// Changes the profiles of a test's obeying charge point as a call of the central system says.
pub(crate) fn obey(rows: &mut Vec<Keys>, body: &CallBody) -> Result<(), AllocError> {
    match body {
        CallBody::Clear(criteria) => rows.retain(|keys| !keys.is_cleared(criteria)),
        CallBody::Set { connector, profile } => {
            let new = Keys::of(*connector, profile);
            rows.retain(|keys| !keys.is_replaced(new));
            rows.push(new)?;
        }
        CallBody::Audit { .. } | CallBody::RemoteStart { .. } => {}
    }
    Ok(())
}
