//! Restores the book of a site from the journal of its folder.

ghost use Rattle.std.specs.Prelude.{◌≡◌};

use crate::call_lines::CallLines;
use crate::earlier_boots::{note_earlier_boots, remove_earlier_boots};
use crate::folder_fault::FolderFault;
use crate::journal_file::JournalFile;
use crate::journal_lines::{JournalLines, JournalPart};
use crate::named_file::NamedFile;
use crate::opening::OpenJournal;
use crate::restored_journal::RestoredJournal;
use ghost_list::{ListName, Unnamed};
use journal::{Unrestored, lose_links, push_header, restore, split_line};
use ocpp_scalars::{Moments, SystemClock};
use replay::Progress;
use site_core::Machine;
use site_status::RestoredCalls;
use std::alloc::{AllocGlobal, Global};
use std::fs::File;
use std::rt::{Clock, Files};
use std::sync::Wait;
use std::sync::ledger::Ledger;
use version_store::{Book, Pass, Shared};

/// The number that `restore` gives to the first line of a part.
const FIRST_OF_PART: u64 = 2;

/// The figures of a site at its start.
#[derive(Drop)]
pub struct Resumed {
    pub points: u64,
    pub profiles: u64,
    pub transactions: u64,
    /// The calls that points haven't confirmed.
    pub calls: u64,
    /// The calls to each point as the journal has them, at its index in the site.
    pub restored: Vec<RestoredCalls>,
}

/// The journal file of a site whose book it restored, at the start of `run`.
#[derive(Drop)]
struct RestoredSite {
    journal: RestoredJournal,
    /// The lines to add to it.
    added: String,
    resumed: Resumed,
}

/// Restores the book that sessions will share from its journal, with a pass of its own. Returns the
/// journal, with all its lines on disk, and the figures of the site.
pub fn restore_shared<
    C: Ledger,
    A: Ledger,
    R: Files<File = File> + Eprint + AllocGlobal + Clock + Wait + Copy + Drop,
    N: ListName,
>(
    rt: &R,
    opened: OpenJournal,
    digest: &[u8; 32],
    shared: &Shared<C, A, N>,
    pass: Pass<C, A>,
    syncs: Unnamed,
) -> Result<(JournalFile<R, N>, Resumed), FolderFault>
    requires { syncs.name ≡ N.companion }
{
    let mut pass = pass;
    let boots = String::from_str(rt.alloc(), opened.boots.as_str())?;
    let mut book = shared.lock(rt);
    let restored = restore_site(rt, opened, digest, &mut book, &mut pass);
    let states = book.recorded();
    drop(book);
    let RestoredSite {
        journal,
        added,
        resumed,
    } = restored?;
    let journal = JournalFile::make(*rt, journal, added.as_str(), states, syncs)?;
    keep_restored(rt, &journal, boots.as_str())?;
    Ok((journal, resumed))
}

/// Writes the lines that the start of `run` adds to its journal file, and syncs it. Then the file
/// of boots that earlier versions kept beside it isn't needed any more.
fn keep_restored<R: Files<File = File> + Eprint + AllocGlobal + Clock + Wait + Drop, N: ListName>(
    rt: &R,
    journal: &JournalFile<R, N>,
    boots: &str,
) -> Result<(), FolderFault> {
    let kept = journal.keep_all();
    // No thread writes these lines yet.
    journal.write_log_lines();
    if kept.is_err() {
        return Err(FolderFault::Write);
    }
    remove_earlier_boots(rt, boots);
    Ok(())
}

/// Restores a site's book from its journal file at the start of `run`, with the boots that earlier
/// versions kept beside the journal. Returns the journal with the lines to add to it, and the
/// figures of the site.
fn restore_site<
    C: Ledger,
    A: Ledger,
    R: Files<File = File> + Eprint + AllocGlobal + Clock,
    N: ListName,
>(
    rt: &R,
    opened: OpenJournal,
    digest: &[u8; 32],
    book: &mut Book<C, A, N>,
    pass: &mut Pass<C, A>,
) -> Result<RestoredSite, FolderFault> {
    let boots = String::from_str(rt.alloc(), opened.boots.as_str())?;
    let mut call_lines = CallLines::new(rt.alloc(), book.present().site().len())?;
    let (journal, mut added) = restore_book(rt, opened, digest, book, pass, &mut call_lines)?;
    note_earlier_boots(rt, boots.as_str(), book, &mut added)?;
    let resumed = count_resumed(book.present(), call_lines.into_points()?);
    Ok(RestoredSite {
        journal,
        added,
        resumed,
    })
}

/// Restores a site's book from its journal file at the start of `run`, each step with the number it
/// drew, and takes the links from all points. A journal that is new, of an earlier format or of
/// another site file gets a line that names this one. A torn last line is cut: nothing in it was
/// answered. Returns the journal, and the lines to add to it.
fn restore_book<
    C: Ledger,
    A: Ledger,
    R: Files<File = File> + AllocGlobal + Eprint + Clock,
    N: ListName,
>(
    rt: &R,
    opened: OpenJournal,
    digest: &[u8; 32],
    book: &mut Book<C, A, N>,
    pass: &mut Pass<C, A>,
    call_lines: &mut CallLines,
) -> Result<(RestoredJournal, String), FolderFault> {
    let alloc = rt.alloc();
    let Some(now) = (SystemClock { rt }).now() else {
        return Err(FolderFault::Clock);
    };
    let mut opened = opened;
    let mut journal = JournalLines::new(alloc);
    let restored = restore_lines(rt, &mut opened.lines, &mut journal, book, pass, call_lines);
    // Printed before a fault is returned: a line may fail because the site file is another one.
    let is_of_this_site = say_other_site(rt, &opened.lines, &journal, digest);
    restored?;
    let kept = RestoredJournal::cut_torn(rt, opened, &journal)?;
    let mut added = String::new(alloc);
    if !(is_of_this_site && journal.has_present_format()) {
        push_header(alloc, &mut added, digest)?;
    }
    match lose_links(alloc, book, now, &mut added) {
        Ok(()) => Ok((kept, added)),
        // A point with a link can always lose it, so only memory can run out.
        Err(_) => Err(FolderFault::OutOfMemory),
    }
}

/// Restores a site's book from the lines of its journal file at the start of `run`. If that takes
/// long, prints how many are read.
fn restore_lines<C: Ledger, A: Ledger, R: AllocGlobal + Eprint + Clock, N: ListName>(
    rt: &R,
    file: &mut NamedFile,
    journal: &mut JournalLines,
    book: &mut Book<C, A, N>,
    pass: &mut Pass<C, A>,
    call_lines: &mut CallLines,
) -> Result<(), FolderFault> {
    let mut progress = Progress::of_lines(rt);
    for _part in 0..u64::MAX {
        progress.say_lines(rt, journal.count());
        let Some(lines) = journal.next(rt, file)? else {
            break;
        };
        restore_part(rt.alloc(), lines, book, pass, call_lines)?;
    }
    Ok(())
}

/// Restores a site's book from these lines of its journal file at the start of `run`, and takes in
/// the calls that points rejected. Before the reply that rejects a call is restored, the call is
/// the first in its point's outbox.
fn restore_part<C: Ledger, A: Ledger, N: ListName>(
    alloc: Global,
    lines: JournalPart<'_>,
    book: &mut Book<C, A, N>,
    pass: &mut Pass<C, A>,
    call_lines: &mut CallLines,
) -> Result<(), FolderFault> {
    // The part that isn't restored yet, and the number of its first line.
    let (mut left, mut first) = (lines.bytes, lines.first);
    let (mut rest, mut number) = (left, first);
    for _line in 0..lines.bytes.len() {
        let Some((line, others)) = split_line(rest) else {
            break;
        };
        if call_lines.take(book.present(), line)? {
            // The rejected call is known only from the state right before the reply.
            let length = left.len().saturating_sub(rest.len());
            restore_from(alloc, first, left.split_at(length).0, book, pass)?;
            call_lines.take_rejection(book.present(), line)?;
            left = rest;
            first = number;
        }
        rest = others;
        number = number.saturating_add(1);
    }
    restore_from(alloc, first, left, book, pass)
}

/// Restores a site's book from these lines of its journal file at the start of `run`. The first of
/// them has this number.
fn restore_from<C: Ledger, A: Ledger, N: ListName>(
    alloc: Global,
    first: u64,
    lines: &[u8],
    book: &mut Book<C, A, N>,
    pass: &mut Pass<C, A>,
) -> Result<(), FolderFault> {
    match restore(alloc, book, pass, lines) {
        Ok(_) => Ok(()),
        Err(Unrestored { line, fault }) => {
            // `restore` counts as if one line came before these.
            let line = line.saturating_sub(FIRST_OF_PART).saturating_add(first);
            Err(FolderFault::Unrestored(Unrestored { line, fault }))
        }
    }
}

/// Returns whether the lines read continue with the site file of this digest. Prints a warning if
/// they were written with another one.
pub fn say_other_site<R: Eprint>(
    rt: &R,
    file: &NamedFile,
    journal: &JournalLines,
    digest: &[u8; 32],
) -> bool {
    match journal.site() {
        Some(site) if site == *digest => true,
        Some(_) => {
            let _ = eprintln!(rt;
                "central: {}: it was begun with another site file; its lines are tried with this one",
                file.path
            );
            false
        }
        None => false,
    }
}

/// Returns the figures that `run` prints of the site that it has restored from its journal file,
/// whose points rejected these calls.
fn count_resumed(machine: &Machine, restored: Vec<RestoredCalls>) -> Resumed {
    let site = machine.site();
    let mut resumed = Resumed {
        points: site.len() as u64,
        profiles: 0,
        transactions: 0,
        calls: 0,
        restored,
    };
    for place in 0..site.len() {
        if let Some(point) = site.point(place) {
            resumed.add_point(machine, point.id);
        }
    }
    resumed
}

impl Resumed {
    /// Adds the profiles, active transactions and calls of this point to the figures that `run`
    /// prints of the site restored from its journal file.
    fn add_point(&mut self, machine: &Machine, point: &str) {
        self.calls = self.calls.saturating_add(machine.outbox_len(point) as u64);
        let Some(book) = machine.book_of(point) else {
            return;
        };
        let view = book.view();
        self.profiles = self.profiles.saturating_add(view.rows.len() as u64);
        for start in view.starts {
            if start.is_some() {
                self.transactions = self.transactions.saturating_add(1);
            }
        }
    }
}
