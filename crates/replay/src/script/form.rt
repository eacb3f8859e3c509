//! The forms of a line of a script: its words with one space between them.

ghost use Rattle.std.specs.Prelude.{◌≡◌, option_map};
ghost use Rattle.replay.specs.ByCases.Form.{word_at, word_named, words_view, form_of};

use texts::number_of;

/// The kind of a line with a message, by its second word.
#[derive(Clone, Copy, PartialEq, Eq)]
pub enum ScriptWord {
    /// `operator`: an operator's message for a point.
    Operator,
    /// `point`: a point's own message.
    Point,
    /// `hold`: an operator's request whose answer is held.
    Hold,
}

/// The words of a line, by its form.
#[derive(Drop)]
pub enum ScriptLineWords<'a> {
    /// `INSTANT operator ID FRAME`, `INSTANT point ID FRAME` or `INSTANT hold ID FRAME`.
    Text {
        instant: &'a str,
        word: ScriptWord,
        point: &'a str,
        frame: &'a str,
    },
    /// `INSTANT release N`.
    Release {
        instant: &'a str,
        number: u64,
    },
}

/// Splits a line into its words, if it has one of the forms.
#[tactic(auto, unfolding(crate::specs::ByCases::Form::form_of))]
pub fn split_words(text: &str) -> Option<ScriptLineWords<'_>>
    ensures { option_map words_view result ≡ form_of text.now }
{
    let (instant, text) = split_word(text)?;
    let (word, text) = split_word(text)?;
    if word == "release" {
        let number = number_of(text)?;
        return Some(ScriptLineWords::Release { instant, number });
    }
    let word = word_named(word)?;
    let (point, frame) = split_word(text)?;
    Some(ScriptLineWords::Text {
        instant,
        word,
        point,
        frame,
    })
}

/// Returns the kind of a replayed script's line that has this second word, `operator`, `point` or
/// `hold`.
fn word_named(word: &str) -> Option<ScriptWord>
    ensures { result ≡ word_named word.now }
{
    if word == "operator" {
        Some(ScriptWord::Operator)
    } else if word == "point" {
        Some(ScriptWord::Point)
    } else if word == "hold" {
        Some(ScriptWord::Hold)
    } else {
        None
    }
}

/// Splits off the first word of a replayed script's line. Returns that word and the text after the
/// one space behind it.
fn split_word(text: &str) -> Option<(&str, &str)>
    ensures { option_map (λ parts. (parts.0.now, parts.1.now)) result ≡ word_at text.now }
{
    let (word, rest) = text.split_once(' ')?;
    if word.is_empty() {
        return None;
    }
    Some((word, rest))
}
