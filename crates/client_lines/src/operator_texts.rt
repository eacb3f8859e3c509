//! An operator's calls, made from the options of a command line. Their message ids name their kind.

use ocppj_frame::{push_string, write_call};
use std::alloc::{AllocError, Global};

/// Writes a SetChargingProfile (chapter 5.16) with this text as its payload.
pub fn set_profile_call(alloc: Global, payload: &str) -> Result<String, AllocError> {
    // The payload isn't parsed here: `call --force` also sends a faulty one.
    write_call(alloc, "set-profile", "SetChargingProfile", payload)
}

/// Writes a ClearChargingProfile (chapter 5.5) with this text as its payload.
pub fn clear_call(alloc: Global, payload: &str) -> Result<String, AllocError> {
    write_call(alloc, "clear", "ClearChargingProfile", payload)
}

/// Writes a RemoteStartTransaction (chapter 5.11) of a connector and an idTag, with a profile if
/// its text is given.
pub fn remote_start_call(
    alloc: Global,
    connector: u32,
    id_tag: &str,
    profile: Option<&str>,
) -> Result<String, AllocError> {
    let mut payload = format!(in alloc; "{{\"connectorId\":{connector},\"idTag\":")?;
    push_string(&mut payload, id_tag)?;
    if let Some(profile) = profile {
        payload.push_str(",\"chargingProfile\":")?;
        payload.push_str(profile)?;
    }
    payload.push_str("}")?;
    write_call(
        alloc,
        "remote-start",
        "RemoteStartTransaction",
        payload.as_str(),
    )
}

/// Writes a GetCompositeSchedule (chapter 5.7) of a connector and a number of seconds, each given
/// as its text.
pub fn ask_call(alloc: Global, connector: &str, seconds: &str) -> Result<String, AllocError> {
    let payload = payload_of(alloc, connector, seconds)?;
    write_call(alloc, "ask", "GetCompositeSchedule", payload.as_str())
}

/// Writes an AuditPoint, an action of the central system's own, of a connector and a number of
/// seconds, each given as its text.
pub fn audit_call(alloc: Global, connector: &str, seconds: &str) -> Result<String, AllocError> {
    let payload = payload_of(alloc, connector, seconds)?;
    write_call(alloc, "audit", "AuditPoint", payload.as_str())
}

/// Writes a PointStatus, an action of the central system's own.
pub fn status_call(alloc: Global) -> Result<String, AllocError> {
    write_call(alloc, "status", "PointStatus", "{}")
}

/// Returns the payload of an operator's GetCompositeSchedule or AuditPoint, by the connector and
/// the seconds of an option of `central call`.
fn payload_of(alloc: Global, connector: &str, seconds: &str) -> Result<String, AllocError> {
    let (connector, seconds) = (json_number(connector), json_number(seconds));
    format!(in alloc; "{{\"connectorId\":{connector},\"duration\":{seconds}}}")
}

/// Returns a whole number of an option of `central call`, as JSON writes it in the call made from
/// that option. The command line also accepts `+1` and `007`.
fn json_number(number: &str) -> &str {
    match number.trim_start_matches('+').trim_start_matches('0') {
        "" => "0",
        digits => digits,
    }
}
