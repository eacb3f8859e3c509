//! The job of `central show`.

use command_io::{
    ProgramFault, note_refused_lines, page_status, print_page, read_digested_site, read_script_of,
    script_end,
};
use jobs::{Showing, Source};
use journal_file::ScriptEnd;
use journal_reader::{FollowRequest, follow_journal};
use show_pages::{PlayedScript, Standing, standing_json, standing_text};
use site_history::SiteCalls;
use site_rules::Site;
use std::alloc::AllocGlobal;
use std::fs::File;
use std::rt::{Clock, Files};

/// Shows the state of each point of a site after a script or a journal. Returns the exit status.
pub fn show_file<R: Files<File = File> + Input + Print + Eprint + Clock + AllocGlobal>(
    rt: &R,
    showing: Showing<'_>,
) -> Result<u8, ProgramFault> {
    let end = script_end(rt, showing.at)?;
    let (site, digest) = read_digested_site(rt, showing.site)?;
    let Source::Journal(folder) = showing.source else {
        return show_script(rt, showing, end, site);
    };
    let following = FollowRequest {
        site,
        folder,
        end,
        noted_with: Some(digest),
    };
    show_journal(rt, showing, following)
}

/// Prints the page of the command `show` with the state of each point after the journal of a
/// folder. Returns the exit status.
fn show_journal<R: Files<File = File> + Print + Eprint + Clock + AllocGlobal>(
    rt: &R,
    showing: Showing<'_>,
    following: FollowRequest<'_>,
) -> Result<u8, ProgramFault> {
    let mut reader = SiteCalls::new(rt.alloc(), following.site.len())?;
    let followed = follow_journal(rt, following, &mut reader)?;
    let standing = Standing {
        machine: &followed.machine,
        points: reader.points(),
        held: &[],
        lines: followed.lines,
        faults: 0,
    };
    print_standing(rt, showing, &standing)?;
    Ok(page_status(followed.is_as_wanted))
}

/// Prints the page of the command `show` with the state of each point after the script of messages
/// from standard input or a file. Returns the exit status.
fn show_script<R: Files<File = File> + Input + Print + Eprint + AllocGlobal>(
    rt: &R,
    showing: Showing<'_>,
    end: ScriptEnd,
    site: Site,
) -> Result<u8, ProgramFault> {
    let script = read_script_of(rt, showing.source)?;
    let last_line = end.last_line(script.as_slice());
    let played = PlayedScript::play(rt.alloc(), script.as_slice(), site, last_line)?;
    let is_whole = note_refused_lines(rt, played.playing());
    print_standing(rt, showing, &played.standing())?;
    Ok(page_status(is_whole))
}

/// Prints the page of the command `show` with the state of each charge point, as tables or as JSON.
fn print_standing<R: Print + Eprint + AllocGlobal>(
    rt: &R,
    showing: Showing<'_>,
    standing: &Standing<'_>,
) -> Result<(), ProgramFault> {
    let page = if showing.json {
        standing_json(rt.alloc(), standing)?
    } else {
        standing_text(rt.alloc(), standing)?
    };
    print_page(rt, page.as_str())
}
