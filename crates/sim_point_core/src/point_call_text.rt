//! The texts of a charge point's calls, byte for byte.

ghost use Rattle.std.specs.Prelude.{◌≡◌, IfOk, string_bytes};
ghost use Rattle.std.specs.Fmt.{signed_decimal};
ghost use Rattle.ocpp_scalars.specs.Appending.{Appends};
ghost use Rattle.sim_point_core.specs.CallText.{action_name, call_text, payload_text, start_text, stop_text};

use crate::point_call::PointCall;
use messages::ActionKind;
use ocpp_scalars::{Instant, push_instant, push_integer};
use ocppj_frame::{push_call_head, push_frame_end, push_string};
use std::alloc::{AllocError, Global};
use transactions::Begin;

/// Writes the text of a call, whose message id is its number in decimal.
pub fn write_call(alloc: Global, number: u64, call: &PointCall) -> Result<String, AllocError>
    ensures { IfOk result (λ text. string_bytes text ≡ call_text number call.now) }
{
    let mut digits = itoa::Buffer::new();
    let id = digits.format(number);
    let mut out = String::new(alloc);
    push_call_head(&mut out, id, action_name(call))?;
    push_payload(&mut out, call)?;
    push_frame_end(&mut out)?;
    Ok(out)
}

/// Returns the name of the OCPP action in a simulated point's call to the central system.
fn action_name(call: &PointCall) -> &'static str
    ensures { result.now ≡ action_name call.now }
{
    match call {
        PointCall::Heartbeat => ActionKind::Heartbeat.name(),
        PointCall::StartTransaction { .. } => ActionKind::StartTransaction.name(),
        PointCall::StopTransaction { .. } => ActionKind::StopTransaction.name(),
    }
}

/// Appends the JSON payload of a simulated point's call to the central system.
#[tactic(auto, unfolding(messages::specs::ObjectText::fields_text, messages::specs::ObjectText::object_text))]
fn push_payload(out: &mut String, call: &PointCall) -> Result<(), AllocError>
    ensures { Appends result (string_bytes out.old) (string_bytes out.new)
        (payload_text call.now) }
{
    match call {
        PointCall::Heartbeat => out.push_str("{}"),
        PointCall::StartTransaction {
            connector,
            begin,
            ..
        } => push_start(out, *connector, begin),
        PointCall::StopTransaction {
            transaction,
            meter_stop,
            timestamp,
        } => push_stop(out, *transaction, *meter_stop, *timestamp),
    }
}

/// Appends the payload StartTransaction.req (chapter 6) to a simulated point's call to the central
/// system.
fn push_start(out: &mut String, connector: u32, begin: &Begin) -> Result<(), AllocError>
    ensures { Appends result (string_bytes out.old) (string_bytes out.new)
        (start_text connector begin.now) }
{
    out.push_str(r#"{"connectorId":"#)?;
    push_integer(out, connector)?;
    out.push_str(r#","idTag":"#)?;
    push_string(out, begin.id_tag.as_str())?;
    out.push_str(r#","meterStart":"#)?;
    push_signed(out, &begin.meter_start)?;
    out.push_str(r#","timestamp":""#)?;
    push_instant(out, begin.timestamp)?;
    out.push_str(r#""}"#)?;
    Ok(())
}

/// Appends the payload StopTransaction.req (chapter 6) to a simulated point's call to the central
/// system.
fn push_stop(
    out: &mut String,
    transaction: i32,
    meter_stop: i32,
    timestamp: Instant,
) -> Result<(), AllocError>
    ensures { Appends result (string_bytes out.old) (string_bytes out.new)
        (stop_text transaction meter_stop timestamp) }
{
    out.push_str(r#"{"transactionId":"#)?;
    push_signed(out, &transaction)?;
    out.push_str(r#","timestamp":""#)?;
    push_instant(out, timestamp)?;
    out.push_str(r#"","meterStop":"#)?;
    push_signed(out, &meter_stop)?;
    out.push_str("}")?;
    Ok(())
}

/// Appends a whole number to the payload of a simulated point's call to the central system. It is
/// passed by reference, so that callers know that it keeps its sign.
fn push_signed(out: &mut String, number: &i32) -> Result<(), AllocError>
    ensures { Appends result (string_bytes out.old) (string_bytes out.new)
        (signed_decimal number.now) }
{
    push_integer(out, *number)
}
