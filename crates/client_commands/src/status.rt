//! The job of `central status`.

use crate::status_request::{StatusReply, ask_status};
use crate::status_table::status_table;
use command_io::{ProgramFault, print_page};
use std::alloc::AllocGlobal;
use std::net::{Net, TcpStream};

/// The exit status if a site isn't well.
const UNHEALTHY: u8 = 2;

/// The status of a response with the requested state (RFC 9110, section 15).
const OK: u16 = 200;

/// The status of a response that doesn't have it yet.
const UNAVAILABLE: u16 = 503;

/// Shows the state of the site whose status port has this URL. Returns the exit status.
pub fn show_status<R: Print + Eprint + AllocGlobal + Net<Stream = TcpStream>>(
    rt: &R,
    url: &str,
) -> Result<u8, ProgramFault> {
    let StatusReply { status, body } = ask_status(rt, url, "/state.json")?;
    if status == UNAVAILABLE {
        let why = body.as_str().trim_end();
        let _ = eprintln!(rt; "central: {url}: {why}");
        return Ok(UNHEALTHY);
    }
    if status != OK {
        return Err(ProgramFault::NoStatus);
    }
    let table = status_table(rt.alloc(), body.as_str())?;
    print_page(rt, table.text.as_str())?;
    Ok(if table.is_healthy { 0 } else { UNHEALTHY })
}
