//! The file of a time zone, in the system's database.

use command_io::ProgramFault;
use explain_pages::ClockShift;
use jobs::Explaining;
use journal_file::report_error;
use meaning::Ask;
use replay::{InputFault, read_all};
use std::alloc::AllocGlobal;
use std::fs;
use std::fs::File;
use std::io::ErrorKind;
use std::rt::Files;
use time_zones::{ZoneFault, clock_shifts, is_zone_name};

/// The folder of the system's time zones.
const ZONES: &str = "/usr/share/zoneinfo/";

/// The largest size of a zone's file, in bytes.
const MAX_ZONE_BYTES: usize = 1_048_576;

/// Refuses a zone that can't be that of the table's times.
pub fn check_zone(explaining: &Explaining<'_>) -> Result<(), ProgramFault> {
    let Some(name) = explaining.zone else {
        return Ok(());
    };
    if explaining.json || explaining.picture.is_some() {
        return Err(ProgramFault::ZoneElsewhere);
    }
    // Any other name, such as `../../etc/passwd`, could lead out of the folder.
    if !is_zone_name(name) {
        return Err(ProgramFault::NoZone);
    }
    Ok(())
}

/// Returns how far the clock of a zone is ahead of UTC in the time of a request; nothing if no zone
/// is named. Prints to standard error the name of a file that can't be read or isn't a zone's.
pub fn read_clock_shifts<R: Files<File = File> + Eprint + AllocGlobal>(
    rt: &R,
    zone: Option<&str>,
    ask: &Ask,
) -> Result<Vec<ClockShift>, ProgramFault> {
    let alloc = rt.alloc();
    let Some(name) = zone else {
        return Ok(Vec::new(alloc));
    };
    let mut path = String::from_str(alloc, ZONES)?;
    path.push_str(name)?;
    let bytes = read_zone_bytes(rt, path.as_str())?;
    let start = ask.start.seconds();
    let end = start.saturating_add(u64::from(ask.duration));
    match clock_shifts(alloc, bytes.as_slice(), start, end) {
        Ok(shifts) => Ok(shifts),
        Err(ZoneFault::NoZone) => {
            let _ = eprintln!(rt; "central: {path}: it is no file of a time zone (TZif)");
            Err(ProgramFault::File)
        }
        Err(ZoneFault::Calendar) => Err(ProgramFault::ZonePastCalendar),
        Err(ZoneFault::OutOfMemory) => Err(ProgramFault::OutOfMemory),
    }
}

/// Reads the bytes of a time zone's file, for the local times in the table of the command
/// `explain`.
fn read_zone_bytes<R: Files<File = File> + Eprint + AllocGlobal>(
    rt: &R,
    path: &str,
) -> Result<Vec<u8>, ProgramFault> {
    let opened = match fs::open(rt, path) {
        Err(error) if error.kind() == ErrorKind::NotFound => return Err(ProgramFault::NoZone),
        opened => opened,
    };
    let mut file = report_error(rt, path, opened, ProgramFault::File)?;
    match read_all(rt.alloc(), &mut file, MAX_ZONE_BYTES) {
        Ok(bytes) => Ok(bytes),
        Err(InputFault::OutOfMemory) => Err(ProgramFault::OutOfMemory),
        Err(InputFault::Read | InputFault::TooLong) => {
            let _ = eprintln!(rt;
                "central: {path}: it can't be read, or is no file of a time zone"
            );
            Err(ProgramFault::File)
        }
    }
}
