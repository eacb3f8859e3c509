//! Reading of a line of a script.

ghost use Rattle.std.specs.Prelude.{◌≡◌, ◌↔◌, Some};
ghost use Rattle.replay.specs.Form.{Form, IsOfForm};
ghost use Rattle.replay.specs.ByCases.Form.{form_of, words_view};
ghost use Rattle.replay.specs.Line.{instant_in, is_stranger, text_of, said_at, line_of_form, line_of, fault_name};

use crate::script::form::{ScriptLineWords, ScriptWord, split_words};
use messages::Side;
use ocpp_scalars::{Instant, read_instant};
use site_rules::Site;
use std::fmt;
use texts::SentText;

/// The longest line of a script, in bytes.
const MAX_LINE_BYTES: usize = 1_048_576;

/// The longest message that has room on a line, in bytes.
// 128 bytes are more than the longest instant, word and identity before the frame.
pub const LONGEST_FRAME: usize = MAX_LINE_BYTES - 128;

/// The reason why a line of a script can't be played. The variants are in the order of the checks.
#[derive(Clone, Copy, PartialEq, Eq)]
pub enum ScriptLineFault {
    /// The line has more than 1,048,576 bytes.
    TooLong,
    /// The line isn't UTF-8.
    BadText,
    /// The line has none of the forms of [`ScriptLine`].
    BadLine,
    /// The first word isn't an instant.
    BadInstant,
    /// The site lacks the point that a point's line names.
    UnknownPoint,
    /// The frame of a `hold` isn't a CALL of GetCompositeSchedule.
    NotComposite,
    /// No request of this number is held.
    UnknownRequest,
}

impl ScriptLineFault {
    /// Returns the fault's name, as the output prints it.
    pub fn name(self) -> &'static str
        ensures { result.now ≡ fault_name self }
    {
        match self {
            ScriptLineFault::TooLong => "TooLong",
            ScriptLineFault::BadText => "BadText",
            ScriptLineFault::BadLine => "BadLine",
            ScriptLineFault::BadInstant => "BadInstant",
            ScriptLineFault::UnknownPoint => "UnknownPoint",
            ScriptLineFault::NotComposite => "NotComposite",
            ScriptLineFault::UnknownRequest => "UnknownRequest",
        }
    }
}

impl fmt::Display for ScriptLineFault {
    ghost output = { λ fault. Some (fault_name fault) };

    fn fmt<W: fmt::Write>(&self, f: &mut fmt::Formatter<W>) -> fmt::Result {
        f.write_str(self.name())
    }
}

/// The contents of a line of a script, by its form.
#[derive(Drop)]
pub enum ScriptLine<'a> {
    /// `INSTANT operator ID FRAME` or `INSTANT point ID FRAME`: a message to the central system.
    Text(SentText<'a>),
    /// `INSTANT hold ID FRAME`: an operator's request for a schedule that is answered later.
    Hold(SentText<'a>),
    /// `INSTANT release N`: the held request of this number is answered.
    Release(u64),
}

/// Reads a line of a script on a site.
#[tactic(auto, unfolding(crate::specs::Line::line_of))]
pub fn read_line<'a>(line: &'a [u8], site: &Site) -> Result<ScriptLine<'a>, ScriptLineFault>
    ensures value { result ≡ line_of site.now line.entry.now }
    ensures form { (form : Form)
        → ((form_of line.entry.now ≡ Some form) ↔ IsOfForm line.entry.now form) }
{
    if line.len() > MAX_LINE_BYTES {
        return Err(ScriptLineFault::TooLong);
    }
    match std::str::from_utf8(line) {
        Ok(text) => read_text(text, site),
        Err(_) => Err(ScriptLineFault::BadText),
    }
}

/// Reads a line of a script for `replay` that is UTF-8 and not too long.
fn read_text<'a>(text: &'a str, site: &Site) -> Result<ScriptLine<'a>, ScriptLineFault>
    ensures { result ≡ line_of_form site.now (form_of text.entry.now) }
{
    let Some(words) = split_words(text) else {
        return Err(ScriptLineFault::BadLine);
    };
    match read_instant(instant_of(&words)) {
        Ok(moment) => read_words(words, moment, site),
        Err(_) => Err(ScriptLineFault::BadInstant),
    }
}

/// Returns the first word of a replayed script's line, the instant of its message.
fn instant_of<'a>(words: &ScriptLineWords<'a>) -> &'a str
    ensures { result.now ≡ instant_in (words_view words.now) }
{
    match words {
        ScriptLineWords::Text { instant, .. } | ScriptLineWords::Release { instant, .. } => instant,
    }
}

/// Returns the contents of a replayed script's line whose instant is read, or a fault for a point's
/// line with an unknown point.
fn read_words<'a>(
    words: ScriptLineWords<'a>,
    moment: Instant,
    site: &Site,
) -> Result<ScriptLine<'a>, ScriptLineFault>
    ensures { result ≡ said_at site.now moment (words_view words.entry) }
{
    match words {
        ScriptLineWords::Text {
            word,
            point,
            frame,
            ..
        } => {
            if is_stranger(site, word, point) {
                return Err(ScriptLineFault::UnknownPoint);
            }
            Ok(text_line(moment, word, point, frame))
        }
        ScriptLineWords::Release { number, .. } => Ok(ScriptLine::Release(number)),
    }
}

/// Returns whether a `point` line of a replayed script names a point that the site lacks.
fn is_stranger(site: &Site, word: ScriptWord, point: &str) -> bool
    ensures { result ≡ is_stranger site.now word point.now }
{
    match word {
        ScriptWord::Point => site.place_of(point).is_none(),
        // The machine answers an operator who names an unknown point.
        ScriptWord::Operator | ScriptWord::Hold => false,
    }
}

/// Returns the contents of a replayed script's line that has a message, by its second word:
/// `operator`, `point` or `hold`.
fn text_line<'a>(
    moment: Instant,
    word: ScriptWord,
    point: &'a str,
    frame: &'a str,
) -> ScriptLine<'a>
    ensures { result ≡ text_of moment word point.entry.now frame.entry.now }
{
    match word {
        ScriptWord::Operator => {
            ScriptLine::Text(SentText::new(moment, Side::Operator, point, frame))
        }
        ScriptWord::Point => ScriptLine::Text(SentText::new(moment, Side::Point, point, frame)),
        ScriptWord::Hold => ScriptLine::Hold(SentText::new(moment, Side::Operator, point, frame)),
    }
}
