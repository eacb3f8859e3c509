//! The criteria of a ClearChargingProfile.

use crate::purpose::Purpose;

/// The profiles that a ClearChargingProfile removes (chapter 6, ClearChargingProfile.req): those
/// that match each field that is given.
#[derive(Clone, Copy, PartialEq, Eq)]
pub struct Criteria {
    /// chargingProfileId.
    pub id: Option<i32>,
    pub connector: Option<u32>,
    /// chargingProfilePurpose.
    pub purpose: Option<Purpose>,
    pub stack_level: Option<u32>,
}
