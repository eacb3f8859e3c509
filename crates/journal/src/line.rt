//! A line of a journal, and its text.

ghost use Rattle.std.specs.Prelude.{◌≡◌, option_copied, string_bytes};
ghost use Rattle.ocpp_scalars.specs.Appending.{Appends};
ghost use Rattle.journal.specs.Entry.{before_number, behind_number, drawn_text, noted_before, noted_behind};
ghost use Rattle.journal.specs.ByCases.Line.{without_returns};
ghost use Rattle.journal.specs.Line.{line_text, noted_state, name_of_sender, number_written, numbered_frame, on_one_line, sender_state, sender_word, side_of_sender, word_of};

use messages::Side;
use ocpp_scalars::{Instant, push_instant, push_integer};
use std::alloc::AllocError;
use std::marker::Model;

/// The sender of a message.
#[derive(Clone, Copy, PartialEq, Eq)]
pub enum Sender<'a> {
    /// The point itself.
    Point,
    /// An operator, or the central system as one. The name is that of the key, if there are keys.
    Operator { name: Option<&'a str> },
}

impl<'a> Sender<'a> {
    /// Returns the side that sends.
    pub fn side(self) -> Side
        ensures { result ≡ side_of_sender (sender_state self.entry) }
    {
        match self {
            Sender::Point => Side::Point,
            Sender::Operator { .. } => Side::Operator,
        }
    }

    /// Returns the name of an operator's key, if there is one.
    pub fn name(self) -> Option<&'a str>
        ensures { option_copied result ≡ name_of_sender (sender_state self.entry) }
    {
        match self {
            Sender::Operator { name } => name,
            Sender::Point => None,
        }
    }
}

/// The event that a line notes of its point.
#[derive(Clone, Copy, PartialEq, Eq)]
pub enum Noted<'a> {
    /// A message from this sender whose step was made. The number is the one that the step drew: of
    /// the transaction that began, of the call that was added for an audit or a remote start, or
    /// else the version of the store after it.
    Message {
        sender: Sender<'a>,
        number: u64,
        frame: &'a str,
    },
    /// The point's reply that confirmed its call, over this link.
    Reply {
        link: u64,
        frame: &'a str,
    },
    /// The reply to the audit whose call has this number was judged.
    Verdict {
        call: u64,
        frame: &'a str,
    },
    /// The point got this link.
    Attached {
        link: u64,
    },
    /// The call of this number went out over this link.
    Sent {
        link: u64,
        call: u64,
    },
    /// This link was lost.
    Lost {
        link: u64,
    },
}

/// A line of a journal.
#[derive(Drop)]
pub struct Line<'a> {
    pub moment: Instant,
    /// The identity of the point.
    pub point: &'a str,
    pub noted: Noted<'a>,
}

impl<'a> Model for Line<'a> {
    ghost use Rattle.journal.specs.Line.{LineState, noted_state};

    ghost Value = { LineState };

    ghost view = { λ l. record {
      moment = l.moment;
      point = l.point.now;
      noted = noted_state l.noted;
    } };
}

impl Noted<'_> {
    /// Returns the number in a journal's line that the step of its event drew, if it draws one.
    pub(crate) fn number(&self) -> Option<u64>
        ensures { result ≡ number_written (noted_state self.now) }
    {
        match self {
            Noted::Message { number, .. } => Some(*number),
            Noted::Attached { link } => Some(*link),
            Noted::Sent { call, .. } => Some(*call),
            Noted::Reply { .. } | Noted::Verdict { .. } | Noted::Lost { .. } => None,
        }
    }
}

/// Appends a line, with its line feed.
pub fn push_line(text: &mut String, line: &Line<'_>) -> Result<(), AllocError>
    ensures { Appends result (string_bytes text.old) (string_bytes text.new) (line_text line.now) }
{
    push_before_number(text, line)?;
    push_drawn(text, line.noted.number())?;
    push_behind_number(text, line)
}

/// Appends to the text of a journal's line the number that its step drew, if it drew one.
fn push_drawn(text: &mut String, number: Option<u64>) -> Result<(), AllocError>
    ensures { Appends result (string_bytes text.old) (string_bytes text.new) (drawn_text number) }
{
    match number {
        Some(number) => push_integer(text, number),
        None => Ok(()),
    }
}

/// Appends the text of a journal's line up to the number that its step draws. If the step draws
/// none, only the line feed is missing.
pub(crate) fn push_before_number(text: &mut String, line: &Line<'_>) -> Result<(), AllocError>
    ensures { Appends result (string_bytes text.old) (string_bytes text.new)
        (before_number line.now) }
{
    push_instant(text, line.moment)?;
    text.push(' ')?;
    push_word(text, &line.noted)?;
    text.push(' ')?;
    text.push_str(line.point)?;
    text.push(' ')?;
    push_noted_before(text, &line.noted)
}

/// Appends the second word of a journal's line by its event, such as `operator:ann` or `sent`.
fn push_word(text: &mut String, noted: &Noted<'_>) -> Result<(), AllocError>
    ensures { Appends result (string_bytes text.old) (string_bytes text.new)
        (word_of (noted_state noted.now)) }
{
    match noted {
        Noted::Message { sender, .. } => push_sender(text, *sender),
        Noted::Reply { .. } => text.push_str("reply"),
        Noted::Verdict { .. } => text.push_str("verdict"),
        Noted::Attached { .. } => text.push_str("attached"),
        Noted::Sent { .. } => text.push_str("sent"),
        Noted::Lost { .. } => text.push_str("lost"),
    }
}

/// Appends the second word of a message's line in the journal: its sender.
fn push_sender(text: &mut String, sender: Sender<'_>) -> Result<(), AllocError>
    ensures { Appends result (string_bytes text.old) (string_bytes text.new)
        (sender_word (sender_state sender.entry)) }
{
    match sender {
        Sender::Point => text.push_str("point"),
        Sender::Operator { name: None } => text.push_str("operator"),
        Sender::Operator { name: Some(name) } => {
            text.push_str("operator:")?;
            text.push_str(name)
        }
    }
}

/// Appends the part of a journal's line between the point's identity and the drawn number, or up to
/// the line's end.
fn push_noted_before(text: &mut String, noted: &Noted<'_>) -> Result<(), AllocError>
    ensures { Appends result (string_bytes text.old) (string_bytes text.new)
        (noted_before (noted_state noted.now)) }
{
    match noted {
        Noted::Message { .. } | Noted::Attached { .. } => Ok(()),
        Noted::Sent { link, .. } => {
            push_integer(text, *link)?;
            text.push(' ')?;
            Ok(())
        }
        Noted::Reply { link, frame } => push_numbered_frame(text, *link, frame),
        Noted::Verdict { call, frame } => push_numbered_frame(text, *call, frame),
        Noted::Lost { link } => push_integer(text, *link),
    }
}

/// Appends the part of a journal's line after the number that its step drew, and the line feed.
pub(crate) fn push_behind_number(text: &mut String, line: &Line<'_>) -> Result<(), AllocError>
    ensures { Appends result (string_bytes text.old) (string_bytes text.new)
        (behind_number line.now) }
{
    if let Noted::Message { frame, .. } = &line.noted {
        text.push(' ')?;
        push_on_one_line(text, frame)?;
    }
    text.push('\n')?;
    Ok(())
}

/// Appends to a line of the journal the number of a link or call, and then the point's reply
/// without its line breaks.
fn push_numbered_frame(text: &mut String, number: u64, frame: &str) -> Result<(), AllocError>
    ensures { Appends result (string_bytes text.old) (string_bytes text.new)
        (numbered_frame number frame.now) }
{
    push_integer(text, number)?;
    text.push(' ')?;
    push_on_one_line(text, frame)
}

/// Appends a message to a line of the journal, with a tab for each line feed and each carriage
/// return.
fn push_on_one_line(text: &mut String, frame: &str) -> Result<(), AllocError>
    ensures { Appends result (string_bytes text.old) (string_bytes text.new)
        (on_one_line frame.now) }
{
    // To JSON all three are blanks (RFC 8259, 2), and no string has one unescaped (RFC 8259, 7).
    let mut rest = frame;
    while let Some((piece, others)) = rest.split_once('\n') {
        push_without_returns(text, piece)?;
        text.push('\t')?;
        rest = others;
    }
    push_without_returns(text, rest)
}

/// Appends a piece of a message to a line of the journal, with a tab for each carriage return.
fn push_without_returns(text: &mut String, piece: &str) -> Result<(), AllocError>
    ensures { Appends result (string_bytes text.old) (string_bytes text.new)
        (without_returns piece.now) }
{
    let mut rest = piece;
    while let Some((before, others)) = rest.split_once('\r') {
        text.push_str(before)?;
        text.push('\t')?;
        rest = others;
    }
    text.push_str(rest)
}
