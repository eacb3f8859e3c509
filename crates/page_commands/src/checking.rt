//! The job of `central check`.

ghost use Rattle.std.specs.Prelude.{◌≤◌, length};
ghost use Rattle.replay.specs.Limits.{max_script_bytes};

use command_io::{ProgramFault, print_page, read_key_bytes, read_script_of, read_site_bytes};
use findings::{Finding, check_site, exit_status, joined_status};
use jobs::{Checking, Source};
use journal_file::{FolderFault, ScriptEnd};
use journal_reader::{EventReader, FollowRequest, follow_journal};
use sha2::{Digest, Sha256};
use show_pages::{Ending, ending_text};
use site_checks::{
    CheckedScript, SiteCheck, find_in_keys, push_checked_script, push_findings, site_page,
};
use site_core::Machine;
use site_history::{Event, HeldLines};
use site_rules::{Site, SiteFault, read_site};
use std::alloc::{AllocError, AllocGlobal, Global};
use std::fs::File;
use std::rt::{Clock, Files};

/// Prints every fault in the site of a file, in a file of keys, and in the script of standard input
/// or of a file, or the journal of a folder. Returns the exit status.
pub fn check_file<R: Files<File = File> + Clock + Input + Print + Eprint + AllocGlobal>(
    rt: &R,
    checking: Checking<'_>,
) -> Result<u8, ProgramFault> {
    let bytes = read_site_bytes(rt, checking.site)?;
    let findings = check_site(rt.alloc(), bytes.as_slice())?;
    let checked = CheckedSite {
        bytes: bytes.as_slice(),
        findings: findings.as_slice(),
    };
    print_findings(rt, &checking, checked)
}

/// A site file, and the findings of `check` in it.
#[derive(Clone, Copy)]
struct CheckedSite<'a> {
    bytes: &'a [u8],
    findings: &'a [Finding],
}

impl CheckedSite<'_> {
    /// Returns the site for the command `check`, if the site file can be read. Otherwise its
    /// findings say why not.
    fn site(&self, alloc: Global) -> Result<Option<Site>, AllocError> {
        // Reading a file with such findings would fail.
        if exit_status(self.findings) == 1 {
            return Ok(None);
        }
        match read_site(alloc, self.bytes) {
            Ok(site) => Ok(Some(site)),
            Err(SiteFault::OutOfMemory) => Err(AllocError),
            Err(_) => Ok(None),
        }
    }
}

/// Prints, for the command `check`, the findings in the site file, in the file of keys, and in the
/// script or the journal. Returns the exit status by them.
fn print_findings<R: Files<File = File> + Clock + Input + Print + Eprint + AllocGlobal>(
    rt: &R,
    checking: &Checking<'_>,
    checked: CheckedSite<'_>,
) -> Result<u8, ProgramFault> {
    // The faults of the site file are printed even if the script can't be read.
    print_page(
        rt,
        site_page(rt.alloc(), checking.site, checked.findings)?.as_str(),
    )?;
    let of_keys = check_keys(rt, checking.keys, checked)?;
    let of_files = joined_status(exit_status(checked.findings), of_keys);
    let of_history = check_history(rt, checking, checked)?;
    Ok(joined_status(of_files, of_history))
}

/// Prints, for the command `check`, the findings in the script or the journal, unless the site
/// can't be read. Returns the exit status by them.
fn check_history<R: Files<File = File> + Clock + Input + Print + Eprint + AllocGlobal>(
    rt: &R,
    checking: &Checking<'_>,
    checked: CheckedSite<'_>,
) -> Result<u8, ProgramFault> {
    // A trace is the output of the journal's script.
    if let (Source::Journal(folder), false) = (checking.source, checking.trace) {
        return match checked.site(rt.alloc())? {
            Some(site) => check_journal(rt, folder, site, checked.bytes),
            None => Ok(0),
        };
    }
    let script = read_script_of(rt, checking.source)?;
    match checked.site(rt.alloc())? {
        Some(site) => check_script(rt, script.as_slice(), site, checking.trace),
        None => Ok(0),
    }
}

/// Prints, for the command `check`, the findings in a script. Returns the exit status by them.
fn check_script<R: Clock + Print + Eprint + AllocGlobal>(
    rt: &R,
    script: &[u8],
    site: Site,
    with_trace: bool,
) -> Result<u8, ProgramFault>
    requires { length script.now ≤ max_script_bytes }
{
    let checked = CheckedScript { script, with_trace };
    let mut page = String::new(rt.alloc());
    let status = push_checked_script(rt, &mut page, site, &checked)?;
    print_page(rt, page.as_str())?;
    Ok(status)
}

/// Follows the journal of a folder for the command `check`, and prints the findings in it. Returns
/// the exit status by them.
fn check_journal<R: Files<File = File> + Clock + Print + Eprint + AllocGlobal>(
    rt: &R,
    folder: &str,
    site: Site,
    site_bytes: &[u8],
) -> Result<u8, ProgramFault> {
    let alloc = rt.alloc();
    let mut reader = JournalCheck {
        rt,
        check: SiteCheck::begin(alloc, site.len())?,
    };
    let following = FollowRequest {
        site,
        folder,
        end: ScriptEnd::Whole,
        noted_with: Some(Sha256::digest(site_bytes)),
    };
    let followed = follow_journal(rt, following, &mut reader)?;
    print_end(rt, &mut reader.check, &followed.machine)?;
    Ok(reader.check.status())
}

/// Prints, for the command `check`, the findings in the state at the end of a journal, and the
/// calls that are left there.
fn print_end<R: Print + Eprint + AllocGlobal>(
    rt: &R,
    check: &mut SiteCheck,
    machine: &Machine,
) -> Result<(), ProgramFault> {
    let mut page = String::new(rt.alloc());
    check.push_findings_at_end(&mut page, machine)?;
    let ending = Ending {
        machine,
        points: check.points(),
        held: &[],
        held_lines: &HeldLines::new(rt.alloc()),
    };
    page.push_str(ending_text(rt.alloc(), &ending)?.as_str())?;
    print_page(rt, page.as_str())
}

/// A check of a journal, which prints its findings as it goes.
// All of them together could fill the memory: a journal may have years.
#[derive(Drop)]
struct JournalCheck<'a, R> {
    rt: &'a R,
    check: SiteCheck,
}

impl<R: Print + Eprint + AllocGlobal> EventReader for JournalCheck<'_, R> {
    fn read(&mut self, machine: &Machine, event: &Event<'_>) -> Result<(), FolderFault> {
        self.check.check_event(machine, event)?;
        Ok(())
    }

    /// Prints the findings in the events since the last time.
    fn end_part(&mut self) -> Result<(), FolderFault> {
        let mut page = String::new(self.rt.alloc());
        self.check.push_findings(&mut page)?;
        match print_page(self.rt, page.as_str()) {
            Ok(()) => Ok(()),
            Err(_) => Err(FolderFault::Print),
        }
    }
}

/// Prints, for the command `check`, the findings in the file of keys, if one is named, given the
/// site file. Returns the exit status by them.
fn check_keys<R: Files<File = File> + Print + Eprint + AllocGlobal>(
    rt: &R,
    path: Option<&str>,
    checked: CheckedSite<'_>,
) -> Result<u8, ProgramFault> {
    let Some(path) = path else {
        return Ok(0);
    };
    let findings = find_in_key_file(rt, path, checked)?;
    let mut page = String::new(rt.alloc());
    push_findings(&mut page, path, findings.as_slice())?;
    print_page(rt, page.as_str())?;
    Ok(exit_status(findings.as_slice()))
}

/// Reads the file of keys at this path for the command `check`, and returns the findings in it,
/// given the site file.
fn find_in_key_file<R: Files<File = File> + Eprint + AllocGlobal>(
    rt: &R,
    path: &str,
    checked: CheckedSite<'_>,
) -> Result<Vec<Finding>, ProgramFault> {
    let bytes = read_key_bytes(rt, path)?;
    let site = checked.site(rt.alloc())?;
    Ok(find_in_keys(rt.alloc(), bytes.as_slice(), site.as_ref())?)
}
