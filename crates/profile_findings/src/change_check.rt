//! Finds changes of a point that a line doesn't name: a profile that an install replaces, and a
//! fuse limit that a clear removes too.

use findings::{Finding, Location};
use meaning::PrevailingProfile;
use messages::{Action, ActionKind, CallFault, purpose_name, read_fields};
use ocpp_scalars::Refusal;
use ocppj_frame::{Frame, FrameFault, Node, ReadingMemory, read_frame};
use profile::{Criteria, Purpose};
use std::alloc::{AllocError, Global};

/// The changes that a line made to the profiles of its point.
#[derive(Clone, Copy)]
pub struct ProfileChange<'a> {
    /// The line's number, from 1.
    pub number: u64,
    /// The line's frame.
    pub frame: &'a str,
    /// The profile that it installed, if it did.
    pub came: Option<PrevailingProfile>,
    /// The profiles that it removed.
    pub gone: &'a [PrevailingProfile],
}

/// Checks a change. Finds the profiles that an install replaced, and the ChargePointMaxProfiles
/// that a clear by other criteria removed too.
pub fn check_change(alloc: Global, change: &ProfileChange<'_>) -> Result<Vec<Finding>, AllocError> {
    let mut findings = Vec::new(alloc);
    if let Some(came) = change.came {
        for gone in change.gone {
            if takes_place_of(came, *gone) {
                findings.push(replaced(alloc, change.number, came, *gone)?)?;
            }
        }
    } else if clears_at_large(alloc, change.frame)? {
        for gone in change.gone {
            if matches!(gone.purpose, Purpose::ChargePointMaxProfile) {
                findings.push(cleared_too(alloc, change.number, *gone)?)?;
            }
        }
    }
    Ok(findings)
}

/// Returns whether an install of a profile replaces another one.
// Not every removed profile was replaced: a start may end a transaction, and with it a TxProfile.
pub fn takes_place_of(came: PrevailingProfile, gone: PrevailingProfile) -> bool {
    came.id == gone.id
        || (came.purpose == gone.purpose
            && came.connector == gone.connector
            && came.stack_level == gone.stack_level)
}

/// Makes the finding of `check` or `call` that an install in a line of a script or a journal
/// replaced another profile of its point.
fn replaced(
    alloc: Global,
    number: u64,
    came: PrevailingProfile,
    gone: PrevailingProfile,
) -> Result<Finding, AllocError> {
    let message = replaced_message(alloc, came, gone)?;
    let place = Location::line(number);
    // With the same id and purpose this updates a profile; another purpose is probably a mistake.
    if came.id == gone.id && came.purpose != gone.purpose {
        return Ok(Finding::warning(place, message));
    }
    Ok(Finding::remark(place, message))
}

/// Describes, for a finding of `check` or `call`, a profile of a point that an install replaced.
fn replaced_message(
    alloc: Global,
    came: PrevailingProfile,
    gone: PrevailingProfile,
) -> Result<String, AllocError> {
    let purpose = purpose_name(came.purpose);
    let id = came.id;
    let same = if id == gone.id {
        "the same chargingProfileId"
    } else {
        "its connector, purpose and stack level"
    };
    let name = named(alloc, gone)?;
    format!(in alloc; "{purpose} {id} takes the place of {name}, which has {same}")
}

/// Makes the warning of `check` or `call` that a ClearChargingProfile removed a fuse limit (a
/// ChargePointMaxProfile) of its point too.
fn cleared_too(alloc: Global, number: u64, gone: PrevailingProfile) -> Result<Finding, AllocError> {
    let name = named(alloc, gone)?;
    let message = format!(in alloc;
        "this clears {name} too: name id or chargingProfilePurpose, if that isn't meant"
    )?;
    Ok(Finding::warning(Location::line(number), message))
}

/// Names a point's charging profile, for a finding of `check` or `call`, by its purpose, id, stack
/// level and connector.
fn named(alloc: Global, profile: PrevailingProfile) -> Result<String, AllocError> {
    let purpose = purpose_name(profile.purpose);
    let id = profile.id;
    let level = profile.stack_level;
    let connector = profile.connector;
    format!(in alloc; "{purpose} {id} (stack level {level}, at connector {connector})")
}

/// Returns whether a message is a ClearChargingProfile with criteria but no id or purpose. If so,
/// `check` or `call` reports each fuse limit among the point's profiles that it removed.
// A clear by connectorId or stackLevel matches profiles of each purpose, fuse limits among them.
fn clears_at_large(alloc: Global, text: &str) -> Result<bool, AllocError> {
    let mut memory = ReadingMemory::new(alloc);
    match read_frame(&mut memory, text) {
        Ok(frame) => is_clear_at_large(alloc, &frame),
        Err(FrameFault::OutOfMemory) => Err(AllocError),
        Err(_) => Ok(false),
    }
}

/// Returns whether a frame is a ClearChargingProfile with criteria but no id or purpose. If so,
/// `check` or `call` reports each fuse limit among the point's profiles that it removed.
fn is_clear_at_large(alloc: Global, frame: &Frame<'_>) -> Result<bool, AllocError> {
    match frame {
        Frame::Call {
            action,
            payload,
            ..
        } => match ActionKind::named(action.as_str()) {
            Some(ActionKind::ClearChargingProfile) => has_large_criteria(alloc, payload.root()),
            _ => Ok(false),
        },
        _ => Ok(false),
    }
}

/// Returns whether the payload of a ClearChargingProfile has criteria but neither id nor purpose.
/// If so, `check` or `call` reports each fuse limit among the point's profiles that it removed.
fn has_large_criteria(alloc: Global, payload: Node<'_, '_>) -> Result<bool, AllocError> {
    match read_fields(alloc, ActionKind::ClearChargingProfile, payload) {
        Ok(action) => Ok(clears_by_large_criteria(&action)),
        Err(CallFault::Refused(Refusal::OutOfMemory)) => Err(AllocError),
        Err(_) => Ok(false),
    }
}

/// Returns whether an action is a ClearChargingProfile with criteria but neither id nor purpose. If
/// so, `check` or `call` reports each fuse limit among the point's profiles that it removed.
fn clears_by_large_criteria(action: &Action) -> bool {
    match action {
        Action::ClearChargingProfile(criteria) => is_at_large(criteria),
        _ => false,
    }
}

/// Returns whether a ClearChargingProfile has criteria but neither id nor purpose. If so, `check`
/// or `call` reports each fuse limit among the point's profiles that it removed.
// A clear without any has a warning of its own.
fn is_at_large(criteria: &Criteria) -> bool {
    criteria.id.is_none() && criteria.purpose.is_none() && !has_no_criterion(criteria)
}

/// Returns whether a clear has no criterion, and so clears all profiles.
pub fn has_no_criterion(criteria: &Criteria) -> bool {
    criteria.id.is_none()
        && criteria.connector.is_none()
        && criteria.purpose.is_none()
        && criteria.stack_level.is_none()
}
