//! The boots that earlier versions kept in a file of their own, beside the journal. At a start they
//! become lines of the journal, and the file is removed.

use crate::folder_fault::FolderFault;
use crate::named_file::report_error;
use ghost_list::ListName;
use journal::{Line, Noted, Sender, push_line, split_line};
use ocpp_scalars::{Instant, Refusal, read_instant};
use site_core::PointId;
use std::alloc::{AllocGlobal, Global};
use std::fs::{self, File};
use std::io;
use std::io::{ErrorKind, Read};
use std::rt::Files;
use std::sync::ledger::Ledger;
use version_store::Book;

/// The file's name in its folder.
pub(crate) const BOOTS: &str = "boots";

/// An upper bound on the size of such a file, which has one line for each point of a site.
const LONGEST_FILE: u64 = 1_048_576;

/// The message of such a boot in the journal, since the file has none.
const MESSAGE: &str =
    r#"[2,"earlier-boot","BootNotification",{"chargePointVendor":"","chargePointModel":""}]"#;

/// Records, at the start of `run`, the boots in the file that earlier versions kept beside the
/// journal. Appends their lines for the journal. Installs since such a boot count as before it: the
/// file doesn't say when they came.
pub(crate) fn note_earlier_boots<
    C: Ledger,
    A: Ledger,
    R: Files<File = File> + AllocGlobal + Eprint,
    N: ListName,
>(rt: &R, path: &str, book: &mut Book<C, A, N>, added: &mut String) -> Result<(), FolderFault> {
    let read = match read_file(rt, path) {
        Err(error) if error.kind() == ErrorKind::NotFound => return Ok(()),
        read => read,
    };
    let bytes = report_error(rt, path, read, FolderFault::Read)?;
    let mut rest = bytes.as_slice();
    for _line in 0..bytes.len() {
        let Some((line, others)) = split_line(rest) else {
            break;
        };
        if let Some((moment, point)) = boot_in(line) {
            note_boot(rt.alloc(), book, moment, point, added)?;
        }
        rest = others;
    }
    Ok(())
}

/// Removes, at the start of `run`, the file of boots that earlier versions kept beside the journal,
/// if any: the journal has them now.
pub(crate) fn remove_earlier_boots<R: Files<File = File> + Eprint>(rt: &R, path: &str) {
    match fs::remove_file(rt, path) {
        Err(error) if error.kind() != ErrorKind::NotFound => {
            let _ = eprintln!(rt; "central: {path}: {error}");
        }
        _ => {}
    }
}

/// Reads the bytes of the file of boots that earlier versions kept beside the journal, at most
/// LONGEST_FILE.
fn read_file<R: Files<File = File> + AllocGlobal>(rt: &R, path: &str) -> io::Result<Vec<u8>> {
    let file = File::open(rt, path)?;
    let mut bytes = Vec::new(rt.alloc());
    file.take(LONGEST_FILE).read_to_end(&mut bytes)?;
    Ok(bytes)
}

/// Reads the time and the point's identity in a line of the file of boots that earlier versions
/// kept beside the journal. The number behind them isn't used.
fn boot_in(line: &[u8]) -> Option<(Instant, &str)> {
    let text = std::str::from_utf8(line).ok()?;
    let (moment, rest) = text.split_once(' ')?;
    let (point, _first) = rest.split_once(' ')?;
    let moment = read_instant(moment).ok()?;
    Some((moment, point))
}

/// Records, at the start of `run`, a point's boot from the file of boots beside the journal, and
/// appends its line for the journal. A point that the site doesn't have is left out.
fn note_boot<C: Ledger, A: Ledger, N: ListName>(
    alloc: Global,
    book: &mut Book<C, A, N>,
    moment: Instant,
    point: &str,
    added: &mut String,
) -> Result<(), FolderFault> {
    let id = PointId::copied(alloc, point)?;
    let number = match book.boot(id, moment) {
        Ok(number) => number,
        Err(Refusal::UnknownPoint) => return Ok(()),
        Err(_) => return Err(FolderFault::OutOfMemory),
    };
    let noted = Noted::Message {
        sender: Sender::Point,
        number,
        frame: MESSAGE,
    };
    let line = Line {
        moment,
        point,
        noted,
    };
    push_line(added, &line)?;
    Ok(())
}
