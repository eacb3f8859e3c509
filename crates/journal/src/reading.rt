//! Reading of a line of a journal.

ghost use Rattle.std.specs.Prelude.{◌≡◌, option_map};
ghost use Rattle.std.specs.Result.{result_map_both};
ghost use Rattle.journal.specs.ByCases.Line.{kind_of, kind_view, line_in, line_of, message_in, noted_in, number_at, number_or_fault, word_at, words_of, words_view};
ghost use Rattle.journal.specs.Line.{noted_state, sender_state};

use crate::line::{Line, Noted, Sender};
use crate::line_fault::LineFault;
use crate::line_word::LineWord;
use ocpp_scalars::read_instant;
use texts::number_of;

/// The kind of a line, by its second word.
#[derive(Clone, Copy)]
struct Kind<'a> {
    word: LineWord,
    /// The name of an operator's key, behind a colon.
    name: Option<&'a str>,
}

/// The words of a line.
#[derive(Clone, Copy)]
struct Words<'a> {
    instant: &'a str,
    kind: Kind<'a>,
    point: &'a str,
    /// The text after the point.
    rest: &'a str,
}

/// Reads a line, without its line feed, from bytes that may not be UTF-8.
pub fn read_bytes(line: &[u8]) -> Result<Line<'_>, LineFault>
    ensures { result ≡ line_in line.entry.now }
{
    match std::str::from_utf8(line) {
        Ok(text) => read_line(text),
        Err(_) => Err(LineFault::NotUtf8),
    }
}

/// Reads a line, without its line feed.
#[tactic(auto, unfolding(crate::specs::ByCases::Line::line_of))]
pub fn read_line(text: &str) -> Result<Line<'_>, LineFault>
    ensures { result ≡ line_of text.entry.now }
{
    let words = match split_words(text) {
        Ok(words) => words,
        Err(fault) => return Err(fault),
    };
    let Ok(moment) = read_instant(words.instant) else {
        return Err(LineFault::Moment);
    };
    match read_noted(words.kind, words.rest) {
        Ok(noted) => Ok(Line {
            moment,
            point: words.point,
            noted,
        }),
        Err(fault) => Err(fault),
    }
}

/// Splits a line of the journal into its words: instant, kind, point, and the rest.
fn split_words(text: &str) -> Result<Words<'_>, LineFault>
    ensures { result_map_both words_view (λ fault. fault) result ≡ words_of text.entry.now }
{
    let (instant, text) = split_word(text)?;
    let (word, text) = split_word(text)?;
    let (point, rest) = split_word(text)?;
    match read_kind(word) {
        Some(kind) => Ok(Words {
            instant,
            kind,
            point,
            rest,
        }),
        None => Err(LineFault::Form),
    }
}

/// Reads the second word of a journal's line, such as `operator:ann` or `sent`.
fn read_kind(word: &str) -> Option<Kind<'_>>
    ensures { option_map kind_view result ≡ kind_of word.entry.now }
{
    match word.split_once(':') {
        Some(("operator", name)) => Some(Kind {
            word: LineWord::Operator,
            name: Some(name),
        }),
        Some(_) => None,
        None => {
            let word = LineWord::named(word)?;
            Some(Kind { word, name: None })
        }
    }
}

/// Reads the event of a journal's line of this kind, from the text after its point.
fn read_noted<'a>(kind: Kind<'a>, text: &'a str) -> Result<Noted<'a>, LineFault>
    ensures { result_map_both noted_state (λ fault. fault) result
        ≡ noted_in (kind_view kind.entry) text.entry.now }
{
    match kind.word {
        LineWord::Operator => read_message(Sender::Operator { name: kind.name }, text),
        LineWord::Point => read_message(Sender::Point, text),
        LineWord::Reply => {
            let (link, frame) = split_number(text)?;
            Ok(Noted::Reply { link, frame })
        }
        LineWord::Verdict => {
            let (call, frame) = split_number(text)?;
            Ok(Noted::Verdict { call, frame })
        }
        LineWord::Attached => Ok(Noted::Attached {
            link: read_number(text)?,
        }),
        LineWord::Sent => {
            let (link, call) = split_number(text)?;
            let call = read_number(call)?;
            Ok(Noted::Sent { link, call })
        }
        LineWord::Lost => Ok(Noted::Lost {
            link: read_number(text)?,
        }),
    }
}

/// Reads the event of a journal's line with a message from this sender: the number that its step
/// drew, and the message.
fn read_message<'a>(sender: Sender<'a>, text: &'a str) -> Result<Noted<'a>, LineFault>
    ensures { result_map_both noted_state (λ fault. fault) result
        ≡ message_in (sender_state sender.entry) text.entry.now }
{
    let (number, frame) = split_number(text)?;
    Ok(Noted::Message {
        sender,
        number,
        frame,
    })
}

/// Splits a number off the rest of a journal's line. Returns it and the text after the one space
/// behind it.
fn split_number(text: &str) -> Result<(u64, &str), LineFault>
    ensures { result_map_both (λ parts. (parts.0, parts.1.now)) (λ fault. fault) result
        ≡ number_at text.now }
{
    let (word, rest) = split_word(text)?;
    Ok((read_number(word)?, rest))
}

/// Reads a number in a line of the journal, from 0 on, in decimal without leading zeros.
fn read_number(word: &str) -> Result<u64, LineFault>
    ensures { result ≡ number_or_fault word.now }
{
    // Calls are counted from 0, and `number_of` reads the numbers from 1 on.
    if word == "0" {
        return Ok(0);
    }
    match number_of(word) {
        Some(number) => Ok(number),
        None => Err(LineFault::Number),
    }
}

/// Splits the first word off the rest of a journal's line. Returns it and the text after the one
/// space behind it.
fn split_word(text: &str) -> Result<(&str, &str), LineFault>
    ensures { result_map_both (λ parts. (parts.0.now, parts.1.now)) (λ fault. fault) result
        ≡ word_at text.now }
{
    match text.split_once(' ') {
        Some((word, rest)) if !word.is_empty() => Ok((word, rest)),
        _ => Err(LineFault::Form),
    }
}
