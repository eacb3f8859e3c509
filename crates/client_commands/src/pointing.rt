//! The job of `central point`.

use client::{Address, ClientRuntime, TerminalPoint, connect};
use client_lines::Lines;
use command_io::{ProgramFault, read_login, read_site_file};
use jobs::Pointing;
use ocpp_scalars::SystemClock;
use sim_point_core::SimPoint;
use site_rules::Site;
use std::alloc::{AllocError, AllocGlobal, Global};
use std::fs::File;
use std::io;
use std::rt::Files;

/// Simulates a charge point. Returns the exit status.
pub fn run_point<R: ClientRuntime + Files<File = File> + Input>(
    rt: &R,
    pointing: Pointing<'_>,
) -> Result<u8, ProgramFault> {
    let address = address_of(rt, pointing)?;
    let point = simulated_point(rt, pointing)?;
    let mut lines = Lines::new(rt.alloc(), rt.reader())?;
    let mut terminal = TerminalPoint {
        alloc: rt.alloc(),
        socket: connect(rt, rt.alloc(), address)?,
        point,
        writer: &mut io::writer(rt),
    };
    match terminal.play(rt, &mut lines, &SystemClock { rt })? {
        0 => Ok(0),
        _ => Ok(2),
    }
}

/// Returns the address at which the simulated charge point of the command `point` connects to the
/// central system, with its name and key.
fn address_of<R: Files<File = File> + Eprint + AllocGlobal>(
    rt: &R,
    pointing: Pointing<'_>,
) -> Result<Address, ProgramFault> {
    let alloc = rt.alloc();
    let base = pointing.url.trim_end_matches('/');
    // The last segment of the URL is the point's identity (OCPP-J 1.6, 3.1.1).
    let url = format!(in alloc; "{base}/{}", pointing.id)?;
    let mut address = Address::of_url(alloc, url.as_str())?;
    address.log_in(alloc, &read_login(rt, pointing.login)?)?;
    Ok(address)
}

/// Makes the simulated charge point of the command `point` by the site file.
fn simulated_point<R: Files<File = File> + Eprint + AllocGlobal>(
    rt: &R,
    pointing: Pointing<'_>,
) -> Result<SimPoint, ProgramFault> {
    let site = read_site_file(rt, pointing.site)?;
    point_of_site(rt.alloc(), &site, pointing.id)
}

/// Makes the simulated charge point of the command `point`, with the ceilings of the site's point
/// of this identity.
fn point_of_site(alloc: Global, site: &Site, id: &str) -> Result<SimPoint, ProgramFault> {
    let Some(place) = site.place_of(id) else {
        return Err(ProgramFault::NoSuchPoint);
    };
    let Some(point) = site.point(place) else {
        return Err(ProgramFault::NoSuchPoint);
    };
    let ceilings = Vec::from_slice(alloc, point.ceilings)?;
    match SimPoint::try_new(alloc, site.unit(), point.ceiling, ceilings, Vec::new(alloc)) {
        Ok(simulated) => Ok(simulated),
        Err(AllocError) => Err(ProgramFault::OutOfMemory),
    }
}
