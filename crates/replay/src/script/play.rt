//! The outcome of a line of a script: its output, and its effect on the player.

ghost use Rattle.std.specs.Prelude.{◌≡◌, ◌∷◌, [], ◌++◌, true, false, IfOk, OnOk};
ghost use Rattle.replay.specs.declared.script.printed_line.PrintedLine.TheVariants as lines;
ghost use Rattle.replay.specs.Play.{outcome_lines, call_lines};
ghost use Rattle.replay.specs.PointChange.{change_of};
ghost use Rattle.replay.specs.Play.{asked_handled, point_handled, text_handled, hold_handled};
ghost use Rattle.replay.specs.Play.{release_played, said_played, said_on, played_as, line_played};
ghost use Rattle.replay.specs.Play.{IsPlayed, IsHandled};
ghost use Rattle.texts.specs.Asked.{asked_of};
ghost use Rattle.replay.specs.ByCases.Asked.{AsksNoCompile};
ghost use Rattle.replay.specs.Held.{id_held};

use crate::player::held::Held;
use crate::player::machine_steps::StepOutcome;
use crate::player::player::Player;
use crate::script::line::{ScriptLine, ScriptLineFault, read_line};
use crate::script::played_line::{LineOutcome, PlayedLine};
use crate::script::point_change::{PointChange, change_of};
use crate::script::printed_line::PrintedLine;
use messages::{ActionKind, Call, FixedAnswer, Side};
use ocppj_frame::MessageId;
use profile::Unit;
use site_core::{PointId, Reply, Step};
use site_rules::Site;
use std::alloc::{AllocError, Global};
use texts::{Asked, SentText, response_of};

/// Plays the line of this number. After an error the script can't go on.
pub fn play_line<'a>(
    player: &mut Player,
    number: u64,
    line: &'a [u8],
) -> Result<PlayedLine<'a>, AllocError>
    ensures number { IfOk result (λ played. played.number ≡ number) }
    ensures line { IfOk result (λ played. played.line.now ≡ line.entry.now) }
    ensures said { IfOk result
        (λ played. played.said ≡ said_on player.old.machine.site line.entry.now) }
    ensures outcome { IfOk result (λ played. IsPlayed
        (line_played player.old number line.entry.now) played.outcome player.new) }
{
    let said = said_on(player.site(), line);
    let outcome = read_outcome(player, number, &said)?;
    Ok(PlayedLine {
        number,
        line,
        said,
        outcome,
    })
}

/// Reads a line on a site. Returns its contents or its fault, or `None` if it is empty.
pub fn said_on<'a>(site: &Site, line: &'a [u8]) -> Option<Result<ScriptLine<'a>, ScriptLineFault>>
    ensures { result ≡ said_on site.now line.entry.now }
{
    if line.is_empty() {
        return None;
    }
    Some(read_line(line, site))
}

/// Returns the outcome of a line that was read, or of its fault.
pub fn read_outcome(
    player: &mut Player,
    number: u64,
    said: &Option<Result<ScriptLine<'_>, ScriptLineFault>>,
) -> Result<LineOutcome, AllocError>
    ensures { IfOk result
        (λ outcome. IsPlayed (played_as player.old number said.now) outcome player.new) }
{
    match said {
        None => Ok(without_lines(player.alloc(), PointChange::Nothing)),
        Some(Ok(said)) => said_outcome(player, number, said),
        Some(Err(fault)) => fault_outcome(player.alloc(), number, *fault),
    }
}

/// Plays a line of a replayed script, a message or a `release` line. Returns its outcome: what the
/// line prints, and what it changes.
fn said_outcome(
    player: &mut Player,
    number: u64,
    said: &ScriptLine<'_>,
) -> Result<LineOutcome, AllocError>
    ensures { IfOk result
        (λ outcome. IsPlayed (said_played player.old number said.now) outcome player.new) }
{
    match said {
        ScriptLine::Text(text) => text_outcome(player, text),
        ScriptLine::Hold(text) => match player.hold_of(text)? {
            Some(asked) => hold_outcome(player, text, asked),
            None => fault_outcome(player.alloc(), number, ScriptLineFault::NotComposite),
        },
        ScriptLine::Release(request) => release_outcome(player, number, *request),
    }
}

/// Answers the schedule request of this number, which an earlier line of a replayed script holds,
/// as a `release` line says.
fn release_outcome(
    player: &mut Player,
    number: u64,
    request: u64,
) -> Result<LineOutcome, AllocError>
    ensures { IfOk result (λ outcome. IsPlayed
        (release_played player.old number request (id_held request player.old.held))
        outcome player.new) }
{
    let Some(id) = player.remove_held(request) else {
        return fault_outcome(player.alloc(), number, ScriptLineFault::UnknownRequest);
    };
    let unit = player.site().unit();
    let outcome = player.hand_out(request)?;
    let kind = ActionKind::GetCompositeSchedule;
    step_outcome(player.alloc(), unit, id, kind, outcome)
}

/// Returns the outcome of a replayed script's line that prints nothing.
fn without_lines(alloc: Global, change: PointChange) -> LineOutcome
    ensures printed { result.printed.items ≡ [] }
    ensures fault { result.is_fault ≡ false }
    ensures change { result.change ≡ change }
{
    LineOutcome {
        printed: Vec::new(alloc),
        is_fault: false,
        change,
    }
}

/// Returns the outcome of a replayed script's line that prints one line, such as an answer, and has
/// no fault.
fn with_line(
    alloc: Global,
    line: PrintedLine,
    change: PointChange,
) -> Result<LineOutcome, AllocError>
    ensures printed { IfOk result (λ outcome. outcome.printed.items ≡ line ∷ []) }
    ensures fault { IfOk result (λ outcome. outcome.is_fault ≡ false) }
    ensures change { IfOk result (λ outcome. outcome.change ≡ change) }
{
    Ok(LineOutcome {
        printed: vec![in alloc; line]?,
        is_fault: false,
        change,
    })
}

/// Returns the outcome of the line of this number in a replayed script, which has a fault and
/// prints that.
fn fault_outcome(
    alloc: Global,
    number: u64,
    fault: ScriptLineFault,
) -> Result<LineOutcome, AllocError>
    ensures printed { IfOk result
        (λ outcome. outcome.printed.items ≡ lines.Fault number fault ∷ []) }
    ensures fault { IfOk result (λ outcome. outcome.is_fault ≡ true) }
    ensures change { IfOk result (λ outcome. outcome.change ≡ PointChange.Nothing) }
{
    Ok(LineOutcome {
        printed: vec![in alloc;
            PrintedLine::Fault {
                line: number,
                fault
            },
        ]?,
        is_fault: true,
        change: PointChange::Nothing,
    })
}

/// Returns the outcome of a message: its answer, and the call that goes out to its sender.
pub fn text_outcome(player: &mut Player, text: &SentText<'_>) -> Result<LineOutcome, AllocError>
    ensures { IfOk result (λ outcome. IsHandled
        (text_handled player.old text.now.sender text.now) outcome player.new) }
{
    match text.sender() {
        Side::Operator => answer_outcome(player, text),
        Side::Point => point_outcome(player, text),
    }
}

/// Plays a point's message in a replayed script: its answer, and the call that goes out to the
/// point. Gives the point a link if it has none.
fn point_outcome(player: &mut Player, text: &SentText<'_>) -> Result<LineOutcome, AllocError>
    ensures { IfOk result
        (λ outcome. IsHandled (point_handled player.old text.now) outcome player.new) }
{
    // Even a message that isn't answered gives its point a link, and lets a call go out.
    player.attach_once(text.point())?;
    let mut outcome = answer_outcome(player, text)?;
    let call = player.send_first(text.point())?;
    push_call_line(player.alloc(), &mut outcome.printed, text.point(), call)?;
    Ok(outcome)
}

/// Appends the line that a replayed script prints for the call that goes out to a point, if there
/// is one.
fn push_call_line(
    alloc: Global,
    lines: &mut Vec<PrintedLine>,
    point: &str,
    call: Option<Call>,
) -> Result<(), AllocError>
    ensures { OnOk result (lines.new.items ≡ lines.old.items ++ call_lines point.now call) }
{
    if let Some(call) = call {
        let point = PointId::copied(alloc, point)?;
        lines.push(PrintedLine::Call { point, call })?;
    }
    Ok(())
}

/// Plays a message of a replayed script without the call that may go out after it: returns its
/// answer, if it has one.
fn answer_outcome(player: &mut Player, text: &SentText<'_>) -> Result<LineOutcome, AllocError>
    ensures { IfOk result (λ outcome. IsHandled
        (asked_handled player.old text.now (asked_of text.now)) outcome player.new) }
{
    let asked = player.asked_of(text)?;
    asked_outcome(player, text, asked)
}

/// Returns the outcome of a message's request.
pub fn asked_outcome(
    player: &mut Player,
    text: &SentText<'_>,
    asked: Asked,
) -> Result<LineOutcome, AllocError>
    requires { AsksNoCompile asked }
    ensures { IfOk result
        (λ outcome. IsHandled (asked_handled player.old text.now asked) outcome player.new) }
{
    match asked {
        Asked::Nothing => Ok(without_lines(player.alloc(), PointChange::Nothing)),
        Asked::Respond { id, response } => {
            let line = PrintedLine::Answer { id, response };
            with_line(player.alloc(), line, PointChange::Nothing)
        }
        Asked::Step { id, kind, step } => {
            let unit = player.site().unit();
            let outcome = player.step_at_once(step)?;
            step_outcome(player.alloc(), unit, id, kind, outcome)
        }
        Asked::Boot { id, point, moment } => {
            let _ = player.step(Step::Boot { point, moment })?;
            let response = FixedAnswer::BootNotification.response(moment);
            let line = PrintedLine::Answer { id, response };
            with_line(player.alloc(), line, PointChange::Nothing)
        }
        Asked::Confirm {
            point,
            call,
            accepted,
        } => {
            let outcome = player.reply_to_call(text, point, call, accepted)?;
            Ok(without_lines(player.alloc(), change_of(&outcome)))
        }
    }
}

/// Plays the message of a replayed script's `hold` line: returns the number of its request, or the
/// answer if none is kept.
fn hold_outcome(
    player: &mut Player,
    text: &SentText<'_>,
    asked: Asked,
) -> Result<LineOutcome, AllocError>
    requires { AsksNoCompile asked }
    ensures { IfOk result
        (λ outcome. IsHandled (hold_handled player.old text.now asked) outcome player.new) }
{
    match asked {
        Asked::Step { id, kind, step } => {
            let unit = player.site().unit();
            match player.step(step)? {
                Ok(Reply::Taken { number, .. }) => {
                    player.hold(Held { number, id })?;
                    with_line(
                        player.alloc(),
                        PrintedLine::Held(number),
                        PointChange::Nothing,
                    )
                }
                outcome => step_outcome(player.alloc(), unit, id, kind, outcome),
            }
        }
        other => asked_outcome(player, text, other),
    }
}

/// Returns the outcome of the CALL of this id, whose step has this outcome.
pub fn step_outcome(
    alloc: Global,
    unit: Unit,
    id: MessageId,
    kind: ActionKind,
    outcome: StepOutcome,
) -> Result<LineOutcome, AllocError>
    ensures printed { IfOk result (λ line. line.printed.items
        ≡ outcome_lines unit id kind outcome) }
    ensures fault { IfOk result (λ line. line.is_fault ≡ false) }
    ensures change { IfOk result (λ line. line.change ≡ change_of outcome) }
{
    let change = change_of(&outcome);
    match response_of(unit, kind, outcome) {
        Some(response) => with_line(alloc, PrintedLine::Answer { id, response }, change),
        None => Ok(without_lines(alloc, change)),
    }
}
