//! The output of each line of a script, beside the line.

use crate::table::Table;
use crate::words::{cut, text};
use messages::Side;
use page_text::Page;
use replay::{PlayedLine, PrintedLine, ScriptLine, print_lines};
use site_history::HeldLines;
use std::alloc::{AllocError, Global};
use texts::SentText;

/// The maximum number of characters that a trace shows of a text.
const SHOWN_CHARACTERS: usize = 60;

/// A line of a script that printed something.
#[derive(Drop)]
struct TracedLine {
    /// Its number, from 1.
    number: u64,
    /// The word for its moment, if the line can be read.
    moment: Option<String>,
    /// The identity of the point that it is for or from, if it names one.
    point: Option<String>,
    /// The line without its instant and its point, shortened.
    text: String,
    printed: Vec<PrintedLine>,
}

/// The lines of a script that printed something.
#[derive(Drop)]
pub struct Trace {
    alloc: Global,
    lines: Vec<TracedLine>,
}

impl Trace {
    /// Returns a trace before the first line.
    pub fn new(alloc: Global) -> Trace {
        Trace {
            alloc,
            lines: Vec::new(alloc),
        }
    }

    /// Keeps the next line if it printed something, given the lines so far that held a request.
    pub fn take_in(&mut self, held: &HeldLines, played: PlayedLine<'_>) -> Result<(), AllocError> {
        if played.outcome.printed.is_empty() {
            return Ok(());
        }
        let moment = moment_word(self.alloc, &played)?;
        let (point, text) = words_of(self.alloc, held, &played)?;
        self.lines.push(TracedLine {
            number: played.number,
            moment,
            point,
            text,
            printed: played.outcome.printed,
        })?;
        Ok(())
    }
}

/// Returns the charge point that a script's line is from or for, and its message, for the table of
/// lines and answers of `check --trace`.
fn words_of(
    alloc: Global,
    held: &HeldLines,
    played: &PlayedLine<'_>,
) -> Result<(Option<String>, String), AllocError> {
    match &played.said {
        Some(Ok(ScriptLine::Text(sent))) => {
            let sender = match sent.sender() {
                Side::Operator => "operator",
                Side::Point => "point",
            };
            text_words(alloc, sender, sent)
        }
        Some(Ok(ScriptLine::Hold(sent))) => text_words(alloc, "hold", sent),
        Some(Ok(ScriptLine::Release(request))) => {
            let point = match held.line_of(*request) {
                Some(line) => Some(text(alloc, line.point.as_str())?),
                None => None,
            };
            Ok((point, format!(in alloc; "release {request}")?))
        }
        Some(Err(_)) | None => {
            // A line that can't be read needn't be UTF-8.
            let whole = String::from_utf8_lossy(alloc, played.line)?;
            Ok((None, cut(alloc, whole.as_str(), SHOWN_CHARACTERS)?))
        }
    }
}

/// Returns the word for the instant of a script's line in the table of lines and answers of `check
/// --trace`, if it is readable.
fn moment_word(alloc: Global, played: &PlayedLine<'_>) -> Result<Option<String>, AllocError> {
    if !matches!(played.said, Some(Ok(_))) {
        return Ok(None);
    }
    let line = String::from_utf8_lossy(alloc, played.line)?;
    match line.as_str().split_once(' ') {
        Some((moment, _rest)) => Ok(Some(text(alloc, moment)?)),
        None => Ok(None),
    }
}

/// Returns the charge point of a script's line with a message, and that message, for the table of
/// lines and answers of `check --trace`.
fn text_words(
    alloc: Global,
    word: &str,
    sent: &SentText<'_>,
) -> Result<(Option<String>, String), AllocError> {
    let shown = cut(alloc, sent.frame(), SHOWN_CHARACTERS)?;
    let point = text(alloc, sent.point())?;
    Ok((Some(point), format!(in alloc; "{word} {shown}")?))
}

/// Returns a table of the lines that printed something, each beside its output.
pub fn trace_text(alloc: Global, trace: &Trace) -> Result<String, AllocError> {
    let mut table = Table::new(alloc, &["line", "moment", "point", "message", "answer"]);
    for line in &trace.lines {
        table.begin_row();
        table.cell(line.number);
        table.cell(shown(&line.moment));
        table.cell(shown(&line.point));
        table.cell(line.text.as_str());
        table.made_cell(print_lines(alloc, line.printed.as_slice()));
    }
    let mut page = Page::new(alloc);
    table.push_to(&mut page, 0);
    page.finish()
}

/// Returns the text of a cell in the table of lines and answers of `check --trace`, or `-` if there
/// is none.
fn shown(text: &Option<String>) -> &str {
    match text {
        Some(text) => text.as_str(),
        None => "-",
    }
}
