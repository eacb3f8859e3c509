//! Answers that are handed out.

ghost use Rattle.std.specs.Prelude.{◌≡◌};
ghost use Rattle.std.specs.Arc.{arc_value};

use meaning::{Ask, Composite};
use ocpp_scalars::Refusal;
use point_book::PointBook;
use site_core::SharedBook;
use std::marker::Model;
use std::sync::Arc;

/// The answer to a request for a composite schedule (chapter 5.7), with the request's number, the
/// book that its point had when it was taken, and the `Ask`.
#[derive(Drop)]
pub struct Answer {
    number: u64,
    book: Arc<PointBook>,
    ask: Ask,
    answer: Result<Composite, Refusal>,
}

impl Model for Answer {
    ghost use Rattle.std.specs.Arc.{arc_value};
    ghost use Rattle.version_store.specs.Answers.{HandedAnswer};

    ghost Value = { HandedAnswer };

    ghost view = { λ a. record {
      number = a.number;
      book = arc_value a.book;
      ask = a.ask;
      answer = a.answer;
    } };
}

impl Answer {
    /// Makes the answer that a session collects from the book for its request for a composite
    /// schedule, with the request's number, book and `Ask`.
    pub(crate) fn new(
        number: u64,
        book: SharedBook,
        ask: Ask,
        answer: Result<Composite, Refusal>,
    ) -> Answer
        ensures number { result.number ≡ number }
        ensures book { result.book ≡ book }
        ensures ask { result.ask ≡ ask }
        ensures answer { result.answer ≡ answer }
    {
        Answer {
            number,
            book: book.into_arc(),
            ask,
            answer,
        }
    }

    /// Returns the request's number.
    pub fn number(&self) -> u64
        ensures { result ≡ self.now.number }
    {
        self.number
    }

    /// Returns the book that the point had when the request was taken.
    pub fn book(&self) -> &PointBook
        ensures { result.now ≡ self.now.book }
    {
        &self.book
    }

    /// Returns the request's `Ask`.
    pub fn ask(&self) -> &Ask
        ensures { result.now ≡ self.now.ask }
    {
        &self.ask
    }

    /// Returns the answer: the exact schedule, or the refusal that it is too long, that memory ran
    /// out, or that the central system was stopped before.
    pub fn answer(&self) -> &Result<Composite, Refusal>
        ensures { result.now ≡ self.now.answer }
    {
        &self.answer
    }

    /// Returns the answer without the rest.
    pub fn into_answer(self) -> Result<Composite, Refusal>
        ensures { result ≡ self.answer }
    {
        self.answer
    }
}
