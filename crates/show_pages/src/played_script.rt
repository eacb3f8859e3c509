//! A script, played for the state that its lines lead to.

ghost use Rattle.std.specs.Prelude.{◌≤◌, length};
ghost use Rattle.replay.specs.Limits.{max_script_bytes};

use crate::standing::Standing;
use replay::Playing;
use site_history::SiteCalls;
use site_rules::Site;
use std::alloc::{AllocError, Global};

/// A script that was played, with the calls to each point.
#[derive(Drop)]
pub struct PlayedScript<'a> {
    playing: Playing<'a>,
    calls: SiteCalls,
}

impl<'a> PlayedScript<'a> {
    /// Plays a script up to the line of a number, or the whole of it. No schedule is made unless a
    /// request is held.
    pub fn play(
        alloc: Global,
        script: &'a [u8],
        site: Site,
        last_line: Option<u64>,
    ) -> Result<PlayedScript<'a>, AllocError>
        requires { length script.now ≤ max_script_bytes }
    {
        let mut calls = SiteCalls::new(alloc, site.len())?;
        let mut playing = Playing::new(alloc, script, site)?;
        let last_line = last_line.unwrap_or(u64::MAX);
        // Bounds the loop: each line has at least one byte.
        for _line in 0..script.len() {
            if last_line < playing.next_line() {
                break;
            }
            match playing.follow_next()? {
                Some(played) => calls.follow_line(playing.machine(), &played)?,
                None => break,
            }
        }
        Ok(PlayedScript { playing, calls })
    }

    /// Returns the script at the line that it has reached.
    pub fn playing(&self) -> &Playing<'a> {
        &self.playing
    }

    /// Returns the state that is shown of the script.
    pub fn standing(&self) -> Standing<'_> {
        Standing {
            machine: self.playing.machine(),
            points: self.calls.points(),
            held: self.playing.held(),
            lines: self.playing.next_line().saturating_sub(1),
            faults: self.playing.script_faults(),
        }
    }
}
