//! A script that is played line by line without a writer, and the state after N of its lines.

ghost use Rattle.std.specs.Prelude.{◌≡◌, ◌+◌, ◌<◌, ◌≤◌, if◌then◌else◌, IfOk, length};
ghost use Rattle.replay.specs.Limits.{max_script_bytes};
ghost use Rattle.replay.specs.Quiet.{played_up_to};

use crate::player::held::Held;
use crate::player::player::Player;
use crate::player::wanted::NeededResult;
use crate::script::lines::split_line;
use crate::script::play::play_line;
use crate::script::played_line::{LineOutcome, PlayedLine};
use crate::script::skim::skim_line;
use site_core::Machine;
use site_rules::Site;
use std::alloc::{AllocError, Global};
use std::marker::Model;

/// A script on a site, between two of its lines: the state after the lines so far, and the lines
/// that are left.
#[derive(Drop)]
pub struct Playing<'a> {
    player: Player,
    /// The rest of the script.
    rest: &'a [u8],
    /// The number of the next line.
    number: u64,
    script_faults: u64,
    /// The number of lines with a fault or a refused message. A request whose schedule is too long
    /// isn't counted.
    refused_lines: u64,
}

impl<'a> Model for Playing<'a> {
    ghost use Rattle.std.specs.Prelude.{◌+◌, ◌≤◌, length};
    ghost use Rattle.replay.specs.Limits.{max_script_bytes};
    ghost use Rattle.replay.specs.Playing.{PlayingState};

    ghost Value = { PlayingState };

    ghost view = { λ p. record {
      number = p.number;
      faults = p.script_faults;
      state = p.player;
      rest = p.rest.now;
    } };

    ghost invariant = { λ p. (p.script_faults + 1 ≤ p.number)
        × (p.number + length p.rest.now ≤ max_script_bytes + 1) };
}

impl<'a> Playing<'a> {
    ghost use Rattle.replay.specs.Playing.{before_first_line, on_machine};
    ghost use Rattle.replay.specs.Quiet.{IsNext, HasPrinted, is_up_to};

    /// Makes a script on a site, before its first line.
    pub fn new(alloc: Global, script: &'a [u8], site: Site) -> Result<Playing<'a>, AllocError>
        requires { length script.now ≤ max_script_bytes }
        ensures { IfOk result (λ playing. playing ≡ before_first_line site script.entry.now) }
    {
        Ok(Playing::on(alloc, Machine::new(alloc, site)?, script))
    }

    /// Makes a script on a site in this state, before its first line.
    pub fn on(alloc: Global, machine: Machine, script: &'a [u8]) -> Playing<'a>
        requires { length script.now ≤ max_script_bytes }
        ensures { result ≡ on_machine machine script.entry.now }
    {
        Playing {
            player: Player::with_machine(alloc, machine),
            rest: script,
            number: 1,
            script_faults: 0,
            refused_lines: 0,
        }
    }

    /// Plays the next line, if one is left. If memory runs out, the script can't go on.
    pub fn play_next(&mut self) -> Result<Option<PlayedLine<'a>>, AllocError>
        ensures next { IfOk result (λ line. IsNext self.old line self.new) }
        ensures printed { IfOk result (λ line. HasPrinted self.old line) }
    {
        if self.rest.is_empty() {
            return Ok(None);
        }
        let (line, others) = split_line(self.rest);
        let played = play_line(&mut self.player, self.number, line)?;
        self.pass(&played.outcome, others);
        Ok(Some(played))
    }

    /// Plays the next line, if one is left, without schedules: its output has none. Compiles only
    /// the first second of a request if its schedule surely isn't too long and no other request is
    /// held. If memory runs out, the script can't go on.
    pub fn skim_next(&mut self) -> Result<Option<PlayedLine<'a>>, AllocError>
        ensures { IfOk result (λ line. IsNext self.old line self.new) }
    {
        if self.rest.is_empty() {
            return Ok(None);
        }
        let (line, others) = split_line(self.rest);
        let played = skim_line(&mut self.player, self.number, line, NeededResult::Refusal)?;
        self.pass(&played.outcome, others);
        Ok(Some(played))
    }

    /// Plays the next line, if one is left, for its effect. Of a request that is answered at once
    /// while no other is held, only the first second is compiled. The output has no schedule, and
    /// no refusal of one that is too long. If memory runs out, the script can't go on.
    pub fn follow_next(&mut self) -> Result<Option<PlayedLine<'a>>, AllocError>
        ensures { IfOk result (λ line. IsNext self.old line self.new) }
    {
        if self.rest.is_empty() {
            return Ok(None);
        }
        let (line, others) = split_line(self.rest);
        let played = skim_line(&mut self.player, self.number, line, NeededResult::State)?;
        self.pass(&played.outcome, others);
        Ok(Some(played))
    }

    /// Moves past a line of a replayed script that was played with this outcome, and counts its
    /// fault or refusal, for `show`, `check`, `explain` and `call`.
    fn pass(&mut self, outcome: &LineOutcome, others: &'a [u8])
        requires shorter { length others.now < length self.old.rest }
        ensures rest { self.new.rest ≡ others.entry.now }
        ensures state { self.new.state ≡ self.old.state }
        ensures number { self.new.number ≡ self.old.number + 1 }
        ensures faults { self.new.faults
            ≡ self.old.faults + (if outcome.now.is_fault then 1 else 0) }
    {
        self.script_faults += u64::from(outcome.is_fault);
        let is_refused = outcome.printed.iter().any(|line| line.is_refusal());
        // Saturates, since the invariant doesn't bound this number.
        self.refused_lines = self.refused_lines.saturating_add(u64::from(is_refused));
        self.number += 1;
        self.rest = others;
    }

    /// Returns whether the next line of a replayed script is at most the last one that `explain`
    /// plays.
    fn is_up_to(&self, last_line: Option<u64>) -> bool
        ensures { result ≡ is_up_to last_line self.now.number }
    {
        match last_line {
            Some(last) => self.number <= last,
            None => true,
        }
    }

    /// Returns the central system's machine.
    pub fn machine(&self) -> &Machine
        ensures { result.now ≡ self.now.state.machine }
    {
        self.player.machine()
    }

    /// Returns the held requests, in the order of their lines.
    pub fn held(&self) -> &[Held]
        ensures { result.now ≡ self.now.state.held }
    {
        self.player.held()
    }

    /// Returns how many of the lines so far have a fault.
    pub fn script_faults(&self) -> u64
        ensures { result ≡ self.now.faults }
    {
        self.script_faults
    }

    /// Returns how many of the lines so far have a fault or a refused message, by their output. A
    /// request whose schedule is too long isn't counted, since that is unknown if the schedule
    /// wasn't compiled. No clause states this number.
    pub fn refused_lines(&self) -> u64 {
        self.refused_lines
    }

    /// Returns the number of the next line, from 1, even if there is none.
    pub fn next_line(&self) -> u64
        ensures { result ≡ self.now.number }
    {
        self.number
    }
}

/// Plays a script on a site up to the line of a number, or the whole of it, and prints nothing. Of
/// a request that is answered at once while no other is held, only the first second is compiled.
/// The final state is the one that the definition gives for these lines. A shorter script is played
/// whole.
pub fn play_quietly(
    alloc: Global,
    script: &[u8],
    site: Site,
    last_line: Option<u64>,
) -> Result<Playing<'_>, AllocError>
    requires { length script.now ≤ max_script_bytes }
    ensures state { IfOk result
        (λ playing. playing.state ≡ (played_up_to site script.entry.now last_line).state) }
    ensures faults { IfOk result
        (λ playing. playing.faults ≡ (played_up_to site script.entry.now last_line).faults) }
    ensures number { IfOk result
        (λ playing. playing.number ≡ (played_up_to site script.entry.now last_line).number) }
{
    let mut playing = Playing::new(alloc, script, site)?;
    while playing.is_up_to(last_line) {
        let Some(_) = playing.follow_next()? else {
            return Ok(playing);
        };
    }
    Ok(playing)
}
