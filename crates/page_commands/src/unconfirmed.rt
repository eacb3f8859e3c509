//! The calls that a point hasn't confirmed.

use crate::explain_reader::ExplainReader;
use ocpp_scalars::push_instant;
use site_core::Machine;
use std::alloc::{AllocError, AllocGlobal};

/// Prints, as a note of the command `explain`, how many calls the explained point hasn't confirmed,
/// and since when, if there are any.
pub(crate) fn say_unconfirmed<R: Eprint + AllocGlobal>(
    rt: &R,
    machine: &Machine,
    reader: &ExplainReader<'_>,
) -> Result<(), AllocError> {
    let point = reader.point;
    let calls = machine.outbox_of(point).map_or(0, |outbox| outbox.len());
    if calls == 0 {
        return Ok(());
    }
    let mut begin = String::new(rt.alloc());
    if let Some(since) = reader.waiting_since(machine) {
        begin.push_str(if calls == 1 {
            " since "
        } else {
            ", the first since "
        })?;
        push_instant(&mut begin, since)?;
    }
    let _ = if calls == 1 {
        eprintln!(rt; "central: 1 call to {point} waits{begin}: it may not have this yet")
    } else {
        eprintln!(rt; "central: {calls} calls to {point} wait{begin}: it may not have these yet")
    };
    Ok(())
}
