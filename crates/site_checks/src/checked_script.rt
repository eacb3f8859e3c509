//! Checks a script as it is played, and reports calls and requests left at its end.

ghost use Rattle.std.specs.Prelude.{◌≤◌, length};
ghost use Rattle.replay.specs.Limits.{max_script_bytes};

use crate::site_check::SiteCheck;
use replay::{Playing, Progress};
use show_pages::{Ending, Trace, ending_text, trace_text};
use site_history::HeldLines;
use site_rules::Site;
use std::alloc::{AllocError, Global};
use std::rt::Clock;

/// A script to play on a site.
#[derive(Clone, Copy)]
pub struct CheckedScript<'a> {
    pub script: &'a [u8],
    pub with_trace: bool,
}

/// Plays a script on a site. Appends the findings, and the calls and requests left at its end.
/// Returns the exit status by the findings. Reports the progress on standard error if that takes
/// long.
pub fn push_checked_script<R: Clock + Eprint>(
    rt: &R,
    page: &mut String,
    site: Site,
    checked: &CheckedScript<'_>,
) -> Result<u8, AllocError>
    requires { length checked.now.script.now ≤ max_script_bytes }
{
    let alloc = *page.allocator();
    let mut reading = ScriptReading {
        check: SiteCheck::begin(alloc, site.len())?,
        playing: Playing::new(alloc, checked.script, site)?,
        held_lines: HeldLines::new(alloc),
        trace: checked.with_trace.then(|| Trace::new(alloc)),
    };
    let mut progress = Progress::of_lines(rt);
    // Each line has at least one byte, so this range ends the loop without a proof.
    for _line in 0..checked.script.len() {
        progress.say_lines(rt, reading.playing.next_line());
        if !reading.read_line()? {
            break;
        }
    }
    reading.push_findings(page)
}

/// The state of a script that is checked.
#[derive(Drop)]
struct ScriptReading<'a> {
    playing: Playing<'a>,
    check: SiteCheck,
    held_lines: HeldLines,
    trace: Option<Trace>,
}

impl ScriptReading<'_> {
    /// Plays the next line of the script that `check` reads, and collects the findings in it.
    /// Returns whether there is one.
    fn read_line(&mut self) -> Result<bool, AllocError> {
        let played = match self.trace {
            Some(_) => self.playing.play_next()?,
            // Only whether a line is refused is needed, so schedules aren't made.
            None => self.playing.skim_next()?,
        };
        let Some(played) = played else {
            return Ok(false);
        };
        self.check.check_line(self.playing.machine(), &played)?;
        self.held_lines.read(&played)?;
        if let Some(trace) = &mut self.trace {
            trace.take_in(&self.held_lines, played)?;
        }
        Ok(true)
    }

    /// Appends the findings of `check` in the script that was played, its trace if one is wanted,
    /// and what waits at its end: calls and requests. Returns the exit status by the findings.
    fn push_findings(self, page: &mut String) -> Result<u8, AllocError> {
        let ScriptReading {
            playing,
            mut check,
            held_lines,
            trace,
        } = self;
        let alloc = *page.allocator();
        let machine = playing.machine();
        check.check_held(playing.held(), &held_lines)?;
        check.push_findings(page)?;
        check.push_findings_at_end(page, machine)?;
        if let Some(trace) = &trace {
            page.push_str(trace_text(alloc, trace)?.as_str())?;
        }
        let ending = Ending {
            machine,
            points: check.points(),
            held: playing.held(),
            held_lines: &held_lines,
        };
        page.push_str(ending_text(alloc, &ending)?.as_str())?;
        Ok(check.status())
    }
}
