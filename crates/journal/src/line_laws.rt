//! Written lines are read back: a law about definitions only.

ghost use Rattle.std.specs.Prelude.{◌≡◌, Ok};
ghost use Rattle.journal.specs.ByCases.Line.{line_of};
ghost use Rattle.journal.specs.Line.{CanBeWritten, HasNoBreak, HasNoLineFeed, LineState, line_on_one_line, line_words};

use ocpp_scalars::instant_texts;

/// Each line that can be written is read back as it was, but with a tab for each line break of its
/// message. No line feed is inside, so the lines of a text are those that were written.
pub fn lines_read_back()
    ensures read { (line : LineState) → CanBeWritten line
        → line_of (line_words line) ≡ Ok (line_on_one_line line) }
    ensures same { (line : LineState) → CanBeWritten line → HasNoBreak line
        → line_of (line_words line) ≡ Ok line }
    ensures one { (line : LineState) → CanBeWritten line → HasNoLineFeed (line_words line) }
{
    // This call makes the law available to the proof. It does nothing at run time.
    instant_texts();
}
