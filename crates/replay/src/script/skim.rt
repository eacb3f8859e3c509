//! Playing of a line of a script for its effect, without the schedules that it prints.

ghost use Rattle.std.specs.Prelude.{◌≡◌, IfOk};
ghost use Rattle.texts.specs.Asked.{asked_of};
ghost use Rattle.replay.specs.ByCases.Asked.{AsksNoCompile};
ghost use Rattle.replay.specs.Play.{asked_handled, text_handled, text_played, said_on, line_played};
ghost use Rattle.replay.specs.Play.{LeadsTo};

use crate::player::player::Player;
use crate::player::wanted::NeededResult;
use crate::script::line::ScriptLine;
use crate::script::play::{asked_outcome, read_outcome, said_on, step_outcome, text_outcome};
use crate::script::played_line::{LineOutcome, PlayedLine};
use crate::script::printed_line::PrintedLine;
use messages::{Response, Side};
use site_core::Step;
use std::alloc::AllocError;
use texts::{Asked, SentText};

/// Plays the line of this number without schedules: its output has none. Compiles only the first
/// second of a request if no more is wanted and no other request is held. After an error the script
/// can't go on.
pub fn skim_line<'a>(
    player: &mut Player,
    number: u64,
    line: &'a [u8],
    wanted: NeededResult,
) -> Result<PlayedLine<'a>, AllocError>
    ensures number { IfOk result (λ played. played.number ≡ number) }
    ensures line { IfOk result (λ played. played.line.now ≡ line.entry.now) }
    ensures said { IfOk result
        (λ played. played.said ≡ said_on player.old.machine.site line.entry.now) }
    ensures outcome { IfOk result (λ played. LeadsTo
        (line_played player.old number line.entry.now) played.outcome player.new) }
{
    let said = said_on(player.site(), line);
    let mut outcome = match &said {
        Some(Ok(ScriptLine::Text(text))) => skim_text(player, text, wanted)?,
        said => read_outcome(player, number, said)?,
    };
    // A skimmed request may have been answered with the schedule of its first second alone.
    outcome.printed.retain(|line| !has_schedule(line));
    Ok(PlayedLine {
        number,
        line,
        said,
        outcome,
    })
}

/// Returns whether a line that a replayed script prints is an answer with a schedule, which `show`,
/// `check`, `explain` and `call` don't need.
fn has_schedule(line: &PrintedLine) -> bool {
    matches!(
        line,
        PrintedLine::Answer {
            response: Response::Schedule(_),
            ..
        }
    )
}

/// Plays a replayed script's message for its effect, for `show`, `check`, `explain` and `call`.
/// Returns its outcome apart from schedules, which only an operator requests.
fn skim_text(
    player: &mut Player,
    text: &SentText<'_>,
    wanted: NeededResult,
) -> Result<LineOutcome, AllocError>
    ensures { IfOk result (λ outcome. LeadsTo
        (text_played (text_handled player.old text.now.sender text.now)) outcome player.new) }
{
    match text.sender() {
        Side::Operator => {
            let asked = player.asked_of(text)?;
            skim_asked(player, text, asked, wanted)
        }
        Side::Point => text_outcome(player, text),
    }
}

/// Plays the request of a replayed script's message for its effect, for `show`, `check`, `explain`
/// and `call`. Returns its outcome apart from schedules.
fn skim_asked(
    player: &mut Player,
    text: &SentText<'_>,
    asked: Asked,
    wanted: NeededResult,
) -> Result<LineOutcome, AllocError>
    requires { AsksNoCompile asked }
    ensures { IfOk result (λ outcome. LeadsTo
        (text_played (asked_handled player.old text.now asked)) outcome player.new) }
{
    match asked {
        Asked::Step { id, kind, step } => match step {
            Step::Take(take) => {
                let unit = player.site().unit();
                let outcome = player.skim_take(take, wanted)?;
                step_outcome(player.alloc(), unit, id, kind, outcome)
            }
            step => asked_outcome(player, text, Asked::Step { id, kind, step }),
        },
        other => asked_outcome(player, text, other),
    }
}
