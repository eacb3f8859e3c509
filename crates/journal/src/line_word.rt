//! The second word of a line, which gives its kind.

ghost use Rattle.std.specs.Prelude.{◌≡◌};
ghost use Rattle.journal.specs.ByCases.Line.{word_named};

/// The kind of a line, by its second word.
#[derive(Clone, Copy, PartialEq, Eq)]
pub(crate) enum LineWord {
    Operator,
    Point,
    Reply,
    Verdict,
    Attached,
    Sent,
    Lost,
}

impl LineWord {
    /// Returns the kind of a journal's line that has this second word, if there is one.
    pub(crate) fn named(word: &str) -> Option<LineWord>
        ensures { result ≡ word_named word.now }
    {
        match word {
            "operator" => Some(LineWord::Operator),
            "point" => Some(LineWord::Point),
            "reply" => Some(LineWord::Reply),
            "verdict" => Some(LineWord::Verdict),
            "attached" => Some(LineWord::Attached),
            "sent" => Some(LineWord::Sent),
            "lost" => Some(LineWord::Lost),
            _ => None,
        }
    }
}
