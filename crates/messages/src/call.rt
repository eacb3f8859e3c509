//! The calls to a charge point.

ghost use Rattle.std.specs.Prelude.{◌≡◌, IfOk};
ghost use Rattle.messages.specs.ActionKind.{row_of};
ghost use Rattle.messages.specs.CallText.{action_name};

use crate::action_kind::ActionKind;
use ocpp_scalars::IdTag;
use profile::{Criteria, Profile, Unit};
use std::alloc::{AllocError, Global};

/// A call to a charge point (OCPP-J 1.6, 4.2.1).
#[derive(Drop)]
pub struct Call {
    /// Its number among the point's calls, which is its message id.
    pub number: u64,
    pub body: CallBody,
}

/// The action of a call and its fields (chapters 5.5, 5.7, 5.11 and 5.16).
#[derive(Drop)]
pub enum CallBody {
    /// ClearChargingProfile, with these criteria.
    Clear(Criteria),
    /// SetChargingProfile, at this connector.
    Set {
        connector: u32,
        profile: Profile,
    },
    /// GetCompositeSchedule, of this connector over a duration in seconds, in this unit.
    Audit {
        connector: u32,
        duration: u32,
        unit: Unit,
    },
    /// RemoteStartTransaction, at this connector with this idTag, and with this profile if there is
    /// one.
    RemoteStart {
        connector: u32,
        id_tag: IdTag,
        profile: Option<Profile>,
    },
}

impl Call {
    /// Returns a copy.
    pub fn copy(&self, alloc: Global) -> Result<Call, AllocError>
        ensures { IfOk result (λ copy. copy ≡ self.now) }
    {
        Ok(Call {
            number: self.number,
            body: self.body.copy(alloc)?,
        })
    }
}

impl CallBody {
    /// Returns its action.
    pub fn kind(&self) -> ActionKind
        ensures { (row_of result).name ≡ action_name self.now }
    {
        match self {
            CallBody::Clear(_) => ActionKind::ClearChargingProfile,
            CallBody::Set { .. } => ActionKind::SetChargingProfile,
            CallBody::Audit { .. } => ActionKind::GetCompositeSchedule,
            CallBody::RemoteStart { .. } => ActionKind::RemoteStartTransaction,
        }
    }

    /// Returns the name of its action.
    pub fn action(&self) -> &'static str
        ensures { result.now ≡ action_name self.now }
    {
        self.kind().name()
    }

    /// Returns a copy.
    pub fn copy(&self, alloc: Global) -> Result<CallBody, AllocError>
        ensures { IfOk result (λ copy. copy ≡ self.now) }
    {
        match self {
            CallBody::Clear(criteria) => Ok(CallBody::Clear(*criteria)),
            CallBody::Set { connector, profile } => Ok(CallBody::Set {
                connector: *connector,
                // Shares the periods, up to 200, which never change.
                profile: profile.copy()?,
            }),
            CallBody::Audit {
                connector,
                duration,
                unit,
            } => Ok(CallBody::Audit {
                connector: *connector,
                duration: *duration,
                unit: *unit,
            }),
            CallBody::RemoteStart {
                connector,
                id_tag,
                profile,
            } => Ok(CallBody::RemoteStart {
                connector: *connector,
                id_tag: id_tag.copy(alloc)?,
                profile: Profile::copy_if_any(profile)?,
            }),
        }
    }
}
