//! Remote starts (chapter 5.11): whether a charge point accepts one, and its answer.

ghost use Rattle.std.specs.Prelude.{◌≡◌, IfOk, string_bytes};
ghost use Rattle.profile.specs.Parts.{profile_of_parts};
ghost use Rattle.sim_point_core.specs.RemoteStart.{status_answer, may_start, fits, profile_kept, start_kept};

use crate::point_call::has_connector;
use crate::sim_step::SimStep;
use messages::RemoteStartTransaction;
use ocppj_frame::write_result;
use point_book::PointBook;
use profile::{Profile, ProfileParts, Purpose, Unit};
use std::alloc::{AllocError, Global};

/// Returns the step that a remote start becomes, at a point whose limits are in this unit. `None`
/// if the point rejects it.
pub fn start_kept(unit: Unit, book: &PointBook, request: RemoteStartTransaction) -> Option<SimStep>
    ensures { result ≡ start_kept unit book.now request }
{
    let RemoteStartTransaction {
        connector,
        id_tag,
        profile,
    } = request;
    if !may_start(book, connector) {
        return None;
    }
    match profile_kept(unit, profile) {
        Some(profile) => Some(SimStep::RemoteStart {
            connector,
            tag: id_tag,
            profile,
        }),
        None => None,
    }
}

/// Returns whether a simulated point has the connector of a RemoteStartTransaction that it
/// receives, and no transaction is active there.
fn may_start(book: &PointBook, connector: u32) -> bool
    ensures { result ≡ may_start book.now connector }
{
    has_connector(book, connector) && book.transaction_at(connector).is_none()
}

/// Returns the profile of a RemoteStartTransaction to a simulated point, if it has one. `None` if
/// it has one that the point can't keep.
fn profile_kept(unit: Unit, parts: Option<ProfileParts>) -> Option<Option<Profile>>
    ensures { result ≡ profile_kept unit parts }
{
    let Some(parts) = parts else {
        return Some(None);
    };
    match Profile::try_new(parts) {
        Ok(profile) => {
            if fits(unit, &profile) {
                Some(Some(profile))
            } else {
                None
            }
        }
        Err(_) => None,
    }
}

/// Returns whether the profile of a RemoteStartTransaction to a simulated point is a TxProfile, and
/// has limits in the point's unit.
fn fits(unit: Unit, profile: &Profile) -> bool
    ensures { result ≡ fits unit profile.now }
{
    // OCPP requires a TxProfile here; that all limits have one unit is this system's choice.
    matches!(profile.purpose, Purpose::TxProfile) && profile.schedule.unit.is_same(unit)
}

/// Writes the message that answers the CALL of this id: Accepted or Rejected, with no other field.
#[tactic(auto, unfolding(messages::specs::ObjectText::fields_text, messages::specs::ObjectText::object_text))]
pub fn write_status(alloc: Global, id: &str, is_accepted: bool) -> Result<String, AllocError>
    ensures { IfOk result (λ text. string_bytes text ≡ status_answer id.now is_accepted) }
{
    if is_accepted {
        write_result(alloc, id, r#"{"status":"Accepted"}"#)
    } else {
        write_result(alloc, id, r#"{"status":"Rejected"}"#)
    }
}
