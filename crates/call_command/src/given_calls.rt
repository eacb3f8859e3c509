//! The calls that the options of `central call` give.

use client_lines::{
    ask_call, audit_call, clear_call, remote_start_call, set_profile_call, status_call,
};
use command_io::{ProgramFault, read_payload_file};
use jobs::{Calling, Starting};
use operator_calls::GivenCall;
use std::alloc::{AllocError, AllocGlobal, Global};
use std::fs::File;
use std::rt::Files;

/// Returns the calls of the options, in their order. Refuses a connector that isn't a number before
/// it reads the files.
pub fn given_calls<R: Files<File = File> + Eprint + AllocGlobal>(
    rt: &R,
    calling: Calling<'_>,
) -> Result<Vec<GivenCall>, ProgramFault> {
    let starting = match calling.remote_start {
        Some(starting) => Some((connector_of(starting)?, starting)),
        None => None,
    };
    let mut calls = Vec::new(rt.alloc());
    if let Some(path) = calling.set_profile {
        calls.push(set_profile_of(rt, path)?)?;
    }
    if let Some(payload) = calling.clear {
        calls.push(clear_of(rt.alloc(), payload)?)?;
    }
    if let Some((connector, starting)) = starting {
        calls.push(remote_start_of(rt, connector, starting)?)?;
    }
    push_questions(rt.alloc(), calling, &mut calls)?;
    Ok(calls)
}

/// Returns the ClearChargingProfile that the option `--clear` of the command `call` sends, with
/// this payload.
fn clear_of(alloc: Global, payload: &str) -> Result<GivenCall, AllocError> {
    let frame = clear_call(alloc, payload)?;
    let payload = String::from_str(alloc, payload)?;
    Ok(GivenCall::with_json("clear", payload, frame))
}

/// Returns the SetChargingProfile that the option `--set-profile` of the command `call` sends, with
/// the payload of a file.
fn set_profile_of<R: Files<File = File> + Eprint + AllocGlobal>(
    rt: &R,
    path: &str,
) -> Result<GivenCall, ProgramFault> {
    let payload = read_payload_file(rt, path)?;
    let frame = set_profile_call(rt.alloc(), payload.as_str())?;
    Ok(GivenCall::with_json("set-profile", payload, frame))
}

/// Adds the operator's calls by the options `--ask`, `--audit` and `--status` of the command
/// `call`, which change nothing.
fn push_questions(
    alloc: Global,
    calling: Calling<'_>,
    calls: &mut Vec<GivenCall>,
) -> Result<(), AllocError> {
    if let Some(asking) = calling.ask {
        let frame = ask_call(alloc, asking.connector, asking.seconds)?;
        calls.push(GivenCall::plain("ask", frame))?;
    }
    if let Some(asking) = calling.audit {
        let frame = audit_call(alloc, asking.connector, asking.seconds)?;
        calls.push(GivenCall::plain("audit", frame))?;
    }
    if calling.status {
        let frame = status_call(alloc)?;
        calls.push(GivenCall::plain("status", frame))?;
    }
    Ok(())
}

/// Returns the number of the connector at which the option `--remote-start` of the command `call`
/// requests a transaction.
fn connector_of(starting: Starting<'_>) -> Result<u32, ProgramFault> {
    match starting.connector.parse::<u32>() {
        Ok(connector) => Ok(connector),
        Err(_) => Err(ProgramFault::NoNumber),
    }
}

/// Returns the RemoteStartTransaction that the option `--remote-start` of the command `call` sends,
/// with the profile of its file if one is given.
fn remote_start_of<R: Files<File = File> + Eprint + AllocGlobal>(
    rt: &R,
    connector: u32,
    starting: Starting<'_>,
) -> Result<GivenCall, ProgramFault> {
    let alloc = rt.alloc();
    let Some(path) = starting.profile else {
        let frame = remote_start_call(alloc, connector, starting.id_tag, None)?;
        return Ok(GivenCall::plain("remote-start", frame));
    };
    let profile = read_payload_file(rt, path)?;
    let frame = remote_start_call(alloc, connector, starting.id_tag, Some(profile.as_str()))?;
    Ok(GivenCall::with_json("remote-start", profile, frame))
}
