//! Checks a remote start, and how one that waits ends.

use crate::call_check::{point_of, refuse_point, reject, reject_found, unit_found};
use crate::line_text::LineMessage;
use crate::printed_check::depends_on_state;
use crate::profile_check::{check_parts, warn_ceiling, warn_never_rated, warn_rates};
use crate::report::Report;
use crate::starts::EndedStart;
use findings::Excerpt;
use messages::{RemoteStartTransaction, purpose_name};
use ocpp_scalars::Refusal;
use profile::{Profile, ProfileParts, Purpose};

/// Checks, for `check` or `call`, a RemoteStartTransaction in a line of a script or a journal: its
/// refusal and its profile. Its fields are valid.
pub(crate) fn check_remote_start(
    report: &mut Report,
    text: &LineMessage<'_>,
    start: RemoteStartTransaction,
) {
    let RemoteStartTransaction {
        connector,
        profile,
        ..
    } = start;
    let Some(parts) = profile else {
        return refuse_start(report, text, connector, None);
    };
    let Some(profile) = check_start_profile(report, parts) else {
        return;
    };
    refuse_start(report, text, connector, Some(profile.purpose));
    if profile.purpose != Purpose::TxProfile {
        return;
    }
    if text.rejection().is_none() {
        warn_ceiling(report, text, connector, &profile);
    }
    warn_rates(report, text.moment, &profile);
}

/// Checks the profile of an operator's RemoteStartTransaction by itself before `call` sends it,
/// without the site or an instant.
pub(crate) fn check_sent_start(report: &mut Report, start: RemoteStartTransaction) {
    let RemoteStartTransaction { profile, .. } = start;
    let Some(parts) = profile else {
        return;
    };
    if let Some(profile) = check_start_profile(report, parts) {
        warn_never_rated(report, &profile);
    }
}

/// Makes the charging profile of a RemoteStartTransaction, or reports its refusal. Warns, for
/// `check` of a script or `call`, of fields without an effect.
fn check_start_profile(report: &mut Report, parts: ProfileParts) -> Option<Profile> {
    if parts.transaction.is_some() {
        let message =
            "transactionId has no effect in a remote start: its transaction has no number yet";
        report.warn_text_of(parts.purpose, parts.id, message);
    }
    // The central system drops it too. Kept, it could get a second warning in `check_parts`.
    let parts = ProfileParts {
        transaction: None,
        ..parts
    };
    check_parts(report, parts)
}

/// Reports, for `check` or `call`, why a RemoteStartTransaction in a script is rejected, unless
/// that depends on the point's state.
fn refuse_start(
    report: &mut Report,
    text: &LineMessage<'_>,
    connector: u32,
    purpose: Option<Purpose>,
) {
    let alloc = report.alloc;
    let Some(refusal) = text.rejection() else {
        return;
    };
    match (refusal, purpose) {
        (Refusal::UnknownPoint, _) => refuse_point(report, text),
        (Refusal::UnknownConnector, _) => reject_connector(report, text, connector),
        (Refusal::WrongUnit, _) => reject(report, refusal, Some(unit_found(text.site))),
        (Refusal::NotTxProfile, Some(purpose)) => {
            let name = purpose_name(purpose);
            let found = format!(in alloc; "chargingProfilePurpose is \"{name}\"");
            reject_found(report, refusal, found);
        }
        _ if depends_on_state(refusal) => {}
        _ => reject(report, refusal, None),
    }
}

/// Reports, for `check` or `call`, a RemoteStartTransaction in a script at a connector at which no
/// transaction can start.
fn reject_connector(report: &mut Report, text: &LineMessage<'_>, connector: u32) {
    let count = point_of(text).map_or(0, |point| point.ceilings.len());
    let found = format!(in report.alloc;
        "connectorId is {connector}, and a transaction starts at one from 1 to {count}"
    );
    reject_found(report, Refusal::UnknownConnector, found);
}

/// Warns, for `check`, of a transaction in a script or a journal without the profile of the remote
/// start that waited at its connector.
pub(crate) fn check_ended_start(report: &mut Report, ended: &EndedStart) {
    let id = ended.profile;
    let tag = Excerpt(ended.id_tag.as_str());
    // With an equal idTag, only the limit of profiles keeps the profile out.
    let message = if ended.is_same_tag {
        format!(in report.alloc;
            "TxProfile {id} of the remote start by idTag \"{tag}\" is given up: the point would have more than 200 profiles"
        )
    } else {
        format!(in report.alloc;
            "TxProfile {id} isn't installed: it came with a remote start by idTag \"{tag}\", and another starts"
        )
    };
    report.warn(message);
}
