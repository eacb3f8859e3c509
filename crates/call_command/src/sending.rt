//! Connections to the operators of points, and what is sent over them.

use client::{Address, AnswerLines, CallEnd, ClientRuntime, OperatorClient, connect};
use client_lines::{ClientFault, Lines};
use operator_calls::{Caller, GivenCall, Visit, on_one_line, url_of_point};
use replay::Progress;
use std::alloc::Global;
use std::fmt::Display;
use std::io;
use std::io::Read;
use std::net::TcpStream;
use std::random::RandomSource;
use tungstenite::RandomKeys;

/// The destination of messages.
#[derive(Drop)]
struct Destination<R: RandomSource> {
    /// The beginning of each line printed about it.
    label: String,
    /// The connection. None for a dry run.
    client: Option<OperatorClient<TcpStream, RandomKeys<R>>>,
}

/// Sends calls to points, one after another. With several points, prints which connections fail,
/// and the progress if it takes long.
pub fn send_calls<R: ClientRuntime>(
    caller: &mut Caller<'_, R>,
    calls: &[GivenCall],
    visits: &[Visit],
) -> Result<(), ClientFault> {
    let rt = caller.rt;
    let total = visits.len();
    let mut progress = Progress::begin(rt);
    let mut is_told = false;
    for (done, visit) in visits.iter().enumerate() {
        if progress.is_due(rt) {
            caller.say(format!(in rt.alloc(); "central: {done} of {total} points")?);
            is_told = true;
        }
        match (send_to(caller, calls, visit), visit.label()) {
            (Ok(()), _) => {}
            // One point that can't be reached doesn't keep the calls from the others.
            (Err(fault), Some(point)) => caller.note_failed(point, fault)?,
            (Err(fault), None) => return Err(fault),
        }
    }
    if is_told {
        caller.say(format!(in rt.alloc(); "central: {total} of {total} points")?);
    }
    Ok(())
}

/// Connects for the command `call` as the operator of a charge point, and sends the calls for that
/// point to the central system.
fn send_to<R: ClientRuntime>(
    caller: &mut Caller<'_, R>,
    calls: &[GivenCall],
    visit: &Visit,
) -> Result<(), ClientFault> {
    if visit.calls.is_empty() {
        return Ok(());
    }
    let mut callee = reach(caller, visit.label())?;
    for place in &visit.calls {
        if let Some(call) = calls.get(*place) {
            send(caller, &mut callee, call.name, call.frame.as_str())?;
        }
    }
    leave(callee);
    Ok(())
}

/// Sends lines, each of which is a message, to the operator's URL.
pub fn send_lines<R: ClientRuntime, S: Read + Drop>(
    caller: &mut Caller<'_, R>,
    lines: &mut Lines<S>,
) -> Result<(), ClientFault> {
    let rt = caller.rt;
    let mut callee = reach(caller, None)?;
    for _line in rt.forever() {
        if !lines.advance()? {
            break;
        }
        let number = lines.number();
        match lines.text() {
            Some(text) => {
                if caller.passes(number, text)? {
                    send(caller, &mut callee, number, text)?;
                }
            }
            None => caller.report(number, "BadText")?,
        }
    }
    leave(callee);
    Ok(())
}

/// Connects the command `call` to the operator's URL, or to that of this point, unless it is a dry
/// run.
fn reach<R: ClientRuntime>(
    caller: &Caller<'_, R>,
    point: Option<&str>,
) -> Result<Destination<R>, ClientFault> {
    let label = caller.label_of(point)?;
    let client = if caller.sending.dry_run {
        None
    } else {
        Some(connected(caller, point)?)
    };
    Ok(Destination { label, client })
}

/// Returns an operator's client, connected to the URL of the command `call`, or to the one that it
/// makes for this point.
fn connected<R: ClientRuntime>(
    caller: &Caller<'_, R>,
    point: Option<&str>,
) -> Result<OperatorClient<TcpStream, RandomKeys<R>>, ClientFault> {
    let alloc = caller.rt.alloc();
    let mut address = address_of(alloc, caller.sending.url, point)?;
    address.log_in(alloc, &caller.sending.login)?;
    let socket = connect(caller.rt, alloc, address)?;
    Ok(OperatorClient::new(alloc, socket))
}

/// Returns the address of the operator's URL of the command `call`, or of the one that it makes of
/// that URL for this point.
fn address_of(alloc: Global, url: &str, point: Option<&str>) -> Result<Address, ClientFault> {
    match point {
        Some(point) => Address::of_operator(alloc, url_of_point(alloc, url, point)?.as_str()),
        None => Address::of_operator(alloc, url),
    }
}

/// Sends an operator's message to the central system and prints its answer, or prints the message
/// in a dry run of the command `call`.
fn send<R: ClientRuntime, N: Display + Copy + Drop>(
    caller: &mut Caller<'_, R>,
    callee: &mut Destination<R>,
    name: N,
    text: &str,
) -> Result<(), ClientFault> {
    let rt = caller.rt;
    let label = callee.label.as_str();
    let Some(client) = &mut callee.client else {
        let line = on_one_line(rt.alloc(), text)?;
        return caller.print(format!(in rt.alloc(); "{label}{line}")?);
    };
    let mut writer = io::writer(rt);
    let mut lines = AnswerLines {
        writer: &mut writer,
        start: label,
    };
    match client.call(rt, &mut lines, text)? {
        CallEnd::Accepted => Ok(()),
        CallEnd::Refused(answer) => caller.refused(label, name, answer.as_str()),
        CallEnd::NotACall => caller.report(name, "NotACall"),
    }
}

/// Closes the connection by which the command `call` was the operator of a point, if there is one.
fn leave<R: RandomSource + Drop>(callee: Destination<R>) {
    let Destination { label, client } = callee;
    drop(label);
    if let Some(client) = client {
        client.end();
    }
}
