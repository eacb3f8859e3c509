//! The job of `central explain`.

ghost use Rattle.std.specs.Prelude.{◌≡◌, ◌≤◌, length};

use crate::explain_reader::ExplainReader;
use crate::lost_profiles::{known_profiles, say_lost};
use crate::picture_name::{PictureForm, picture_form};
use crate::unconfirmed::say_unconfirmed;
use crate::zone_file::{check_zone, read_clock_shifts};
use command_io::{
    ProgramFault, Screen, note_refused_lines, note_unzoned, now, page_status, print_page,
    read_digested_site, read_script_of, script_end, write_file,
};
use explain_pages::{
    ClockShift, ExplainedRequest, KnownProfile, ZoneClock, not_counted, write_json, write_page,
    write_picture, write_table,
};
use jobs::{Explaining, Source, Start, read_duration};
use journal_file::ScriptEnd;
use journal_reader::{FollowRequest, follow_journal};
use meaning::Ask;
use ocpp_scalars::{Instant, write_instant};
use point_book::PointBook;
use profile::Unit;
use replay::play_quietly;
use site_core::Machine;
use site_rules::Site;
use std::alloc::{AllocError, AllocGlobal, Global};
use std::fs::File;
use std::rt::{Clock, Files};
use sweep_compiler::{Turns, explain};

/// Explains the limits of a connector after a script or a journal. Faults of the names of a picture
/// and a zone, of the instants and of the site file, and names that aren't in it, are reported
/// before the script is read. Returns the exit status.
pub fn explain_file<R: Files<File = File> + Input + Print + Eprint + Clock + AllocGlobal>(
    rt: &R,
    screen: Screen,
    explaining: Explaining<'_>,
) -> Result<u8, ProgramFault> {
    let options = options_of(rt, &explaining)?;
    let shifts = read_clock_shifts(rt, explaining.zone, &options.ask)?;
    let presentation = Presentation {
        explaining: &explaining,
        screen,
        options,
        shifts: shifts.as_slice(),
    };
    explain_site(rt, &presentation)
}

/// Returns the options of the command `explain`, read from their texts.
fn options_of<R: Clock + Eprint>(
    rt: &R,
    explaining: &Explaining<'_>,
) -> Result<ExplainOptions, ProgramFault> {
    let form = form_of_picture(explaining)?;
    check_zone(explaining)?;
    let start = start_of(rt, explaining.start)?;
    Ok(ExplainOptions {
        form,
        ask: ask_of(explaining, start)?,
        end: script_end(rt, explaining.at)?,
    })
}

/// Explains the limits of a connector of a site, once the options of the command `explain` are
/// read. Returns the exit status.
fn explain_site<R: Files<File = File> + Input + Print + Eprint + Clock + AllocGlobal>(
    rt: &R,
    presentation: &Presentation<'_>,
) -> Result<u8, ProgramFault> {
    let explaining = presentation.explaining;
    let (site, digest) = read_digested_site(rt, explaining.site)?;
    check_connector(&site, explaining.point, presentation.options.ask.connector)?;
    let Source::Journal(folder) = explaining.source else {
        return explain_script(rt, presentation, site);
    };
    let following = FollowRequest {
        site,
        folder,
        end: presentation.options.end,
        noted_with: Some(digest),
    };
    explain_journal(rt, presentation, following)
}

/// Explains, for the command `explain`, the limits of a connector after the journal of a folder.
/// Returns the exit status.
fn explain_journal<R: Files<File = File> + Print + Eprint + Clock + AllocGlobal>(
    rt: &R,
    presentation: &Presentation<'_>,
    following: FollowRequest<'_>,
) -> Result<u8, ProgramFault> {
    let point = presentation.explaining.point;
    let start = presentation.options.ask.start;
    let mut reader = ExplainReader::new(rt.alloc(), following.site.len(), point, start)?;
    let followed = follow_journal(rt, following, &mut reader)?;
    explain_followed(rt, presentation, &followed.machine, &reader)?;
    Ok(page_status(followed.is_as_wanted))
}

/// Prints the notes of the command `explain`, and then its table or JSON, by the state after a
/// journal and its events at the point.
fn explain_followed<R: Files + Print + Eprint + AllocGlobal>(
    rt: &R,
    presentation: &Presentation<'_>,
    machine: &Machine,
    reader: &ExplainReader<'_>,
) -> Result<(), ProgramFault> {
    let start = presentation.options.ask.start;
    note_later_changes(rt, presentation.explaining.point, start, reader.changes)?;
    say_unconfirmed(rt, machine, reader)?;
    say_lost(rt, machine, reader)?;
    let known = known_profiles(rt.alloc(), machine, reader)?;
    print_explained(rt, presentation, machine, known.as_slice())
}

/// Explains, for the command `explain`, the limits of a connector after the script of messages from
/// standard input or a file. Returns the exit status.
fn explain_script<R: Files<File = File> + Input + Print + Eprint + AllocGlobal>(
    rt: &R,
    presentation: &Presentation<'_>,
    site: Site,
) -> Result<u8, ProgramFault> {
    let script = read_script_of(rt, presentation.explaining.source)?;
    let last_line = presentation.options.end.last_line(script.as_slice());
    let played = play_quietly(rt.alloc(), script.as_slice(), site, last_line)?;
    let is_whole = note_refused_lines(rt, &played);
    print_explained(rt, presentation, played.machine(), &[])?;
    Ok(page_status(is_whole))
}

/// Prints a note of the command `explain` to standard error if a journal has changes at the point
/// after the first explained instant. The explained state isn't that of the instant then.
fn note_later_changes<R: Eprint + AllocGlobal>(
    rt: &R,
    point: &str,
    start: Instant,
    later: u64,
) -> Result<(), AllocError> {
    if later > 0 {
        let Ok(start) = write_instant(rt.alloc(), start) else {
            return Err(AllocError);
        };
        let _ = eprintln!(rt;
            "central: {later} changes at {point} are later than --start: --at {start} is without them"
        );
    }
    Ok(())
}

/// The options of `explain`, read from their texts.
#[derive(Clone, Copy)]
struct ExplainOptions {
    /// The form of the picture, if one is requested.
    form: Option<PictureForm>,
    ask: Ask,
    end: ScriptEnd,
}

/// How an explanation is presented.
#[derive(Clone, Copy)]
struct Presentation<'a> {
    explaining: &'a Explaining<'a>,
    screen: Screen,
    options: ExplainOptions,
    /// How far the zone's clock is ahead of UTC.
    shifts: &'a [ClockShift],
}

impl<'a> Presentation<'a> {
    /// Returns the clock of the time zone that the options of the command `explain` name, for the
    /// times of its table.
    fn zone_clock(&self) -> Option<ZoneClock<'a>> {
        let name = self.explaining.zone?;
        Some(ZoneClock {
            name,
            shifts: self.shifts,
        })
    }
}

/// Returns the form of the picture that the options of the command `explain` request, SVG or HTML
/// by its file's name.
fn form_of_picture(explaining: &Explaining<'_>) -> Result<Option<PictureForm>, ProgramFault> {
    match explaining.picture {
        Some(path) => Ok(Some(picture_form(path)?)),
        None => Ok(None),
    }
}

/// Refuses, for the command `explain`, a charge point that the site lacks, and a connector that the
/// point lacks.
fn check_connector(site: &Site, point: &str, connector: u32) -> Result<(), ProgramFault> {
    let Some(place) = site.place_of(point) else {
        return Err(ProgramFault::NoSuchPoint);
    };
    let Some(found) = site.point(place) else {
        return Err(ProgramFault::NoSuchPoint);
    };
    if connector as usize > found.ceilings.len() {
        return Err(ProgramFault::NoSuchConnector);
    }
    Ok(())
}

/// Returns the instant from which the command `explain` explains: the present or the one of
/// `--start`. Prints a note to standard error if the latter has no zone.
fn start_of<R: Clock + Eprint>(rt: &R, text: &str) -> Result<Instant, ProgramFault> {
    let Ok(start) = Start::of(text) else {
        return Err(ProgramFault::NoInstant);
    };
    match start.named() {
        Some(instant) => {
            note_unzoned(rt, "--start", text);
            Ok(instant)
        }
        None => now(rt),
    }
}

/// Returns the request for a composite schedule that the options of the command `explain` describe,
/// from this instant on.
fn ask_of(explaining: &Explaining<'_>, start: Instant) -> Result<Ask, ProgramFault> {
    let Some(duration) = read_duration(explaining.duration) else {
        return Err(ProgramFault::NoDuration);
    };
    // clap has checked that the number is in range.
    let Ok(connector) = u32::try_from(explaining.connector) else {
        return Err(ProgramFault::NoSuchConnector);
    };
    match Ask::try_new(connector, start, duration) {
        Ok(ask) => Ok(ask),
        Err(_) => Err(ProgramFault::PastCalendar),
    }
}

/// Prints the table or JSON of the command `explain` for a request by the state of the point, with
/// what is known of its profiles. Writes the picture too.
fn print_explained<R: Files + Print + Eprint + AllocGlobal>(
    rt: &R,
    presentation: &Presentation<'_>,
    machine: &Machine,
    known: &[KnownProfile<'_>],
) -> Result<(), ProgramFault> {
    let ask = &presentation.options.ask;
    let Some(book) = machine.book_of(presentation.explaining.point) else {
        return Err(ProgramFault::NoSuchPoint);
    };
    // A book has the connectors of its point in the site. The check before shows this, though no
    // clause says it.
    if ask.connector > book.connectors() {
        return Err(ProgramFault::NoSuchConnector);
    }
    let unit = machine.site().unit();
    print_explanation(rt, presentation, unit, book, ask, known)
}

/// Prints the table or JSON of the command `explain` for a request by the point's book of installed
/// profiles, with what is known of them. Writes the picture too.
fn print_explanation<R: Files + Print + Eprint + AllocGlobal>(
    rt: &R,
    presentation: &Presentation<'_>,
    unit: Unit,
    book: &PointBook,
    ask: &Ask,
    known: &[KnownProfile<'_>],
) -> Result<(), ProgramFault>
    requires has_connector { ask.now.connector ≤ length book.now.ceilings }
{
    let alloc = rt.alloc();
    let explanation = explain(alloc, book, ask, &mut Turns::new())?;
    let view = book.view();
    let rest = not_counted(alloc, &view, ask, explanation.intervals())?;
    let explained = ExplainedRequest {
        point: presentation.explaining.point,
        unit,
        ask: *ask,
        view,
        intervals: explanation.intervals(),
        not_counted: rest.as_slice(),
        known,
    };
    if let (Some(path), Some(form)) = (presentation.explaining.picture, presentation.options.form) {
        write_drawing(rt, path, form, &explained)?;
    }
    print_page(rt, page_of(alloc, presentation, &explained)?.as_str())
}

/// Writes the picture that the options of the command `explain` request to its file.
fn write_drawing<R: Files + Eprint + AllocGlobal>(
    rt: &R,
    path: &str,
    form: PictureForm,
    explained: &ExplainedRequest<'_>,
) -> Result<(), ProgramFault> {
    let drawn = match form {
        PictureForm::Svg => write_picture(rt.alloc(), explained)?,
        PictureForm::Html => write_page(rt.alloc(), explained)?,
    };
    write_file(rt, path, drawn.as_str())
}

/// Returns what the command `explain` prints of an explained schedule: its table or its JSON.
fn page_of(
    alloc: Global,
    presentation: &Presentation<'_>,
    explained: &ExplainedRequest<'_>,
) -> Result<String, AllocError> {
    if presentation.explaining.json {
        return write_json(alloc, explained);
    }
    write_table(
        alloc,
        explained,
        presentation.screen.columns(),
        presentation.zone_clock(),
    )
}
