//! Compiled answers, each with the book and the request for which it is right.

ghost use Rattle.std.specs.Prelude.{◌≡◌, ◌≤◌, length, Ok, Err};
ghost use Rattle.std.specs.Arc.{arc_value};
ghost use Rattle.ocpp_scalars.specs.declared.refusal.Refusal.{Refusal};
ghost use Rattle.sweep_compiler.specs.Right.{IsCompiledFor};

use crate::compiler::compile;
use crate::turns::Turns;
use meaning::{Ask, Composite};
use ocpp_scalars::Refusal;
use point_book::PointBook;
use std::alloc::Global;
use std::marker::Model;
use std::sync::Arc;

/// The answer to a request to a book (chapter 5.7): the exact schedule, that it is too long, or
/// that memory ran out. By its type it is right for this book and this request, so its maker
/// needn't be trusted. It is held twice, so that it can be handed out and kept in a history without
/// memory.
#[derive(Drop)]
pub struct Compiled {
    book: Arc<PointBook>,
    ask: Ask,
    answer: Result<Composite, Refusal>,
    again: Result<Composite, Refusal>,
}

impl Model for Compiled {
    ghost use Rattle.std.specs.Prelude.{◌≡◌};
    ghost use Rattle.std.specs.Arc.{arc_value};
    ghost use Rattle.sweep_compiler.specs.Compiled.{CompiledAnswer};
    ghost use Rattle.sweep_compiler.specs.Right.{IsCompiledFor};

    ghost Value = { CompiledAnswer };

    ghost view = { λ compiled. record {
      book = arc_value compiled.book;
      ask = compiled.ask;
      answer = compiled.answer;
    } };

    ghost invariant = { λ compiled.
        IsCompiledFor (arc_value compiled.book) compiled.ask compiled.answer
        × (compiled.again ≡ compiled.answer) };
}

impl Compiled {
    /// Compiles the answer to a request to a book that has its connector. If memory runs out, that
    /// is the answer.
    pub fn make(alloc: Global, book: Arc<PointBook>, ask: Ask) -> Compiled
        requires has_connector { ask.connector ≤ length (arc_value book).ceilings }
        ensures book { result.book ≡ arc_value book }
        ensures ask { result.ask ≡ ask }
        ensures right { IsCompiledFor (arc_value book) ask result.answer }
    {
        match compile(alloc, &book, &ask, &mut Turns::new()) {
            Ok(schedule) => Compiled::of_schedule(book, ask, schedule),
            Err(refusal) => Compiled {
                book,
                ask,
                answer: Err(refusal),
                again: Err(refusal),
            },
        }
    }

    /// Makes the answer to an abandoned request: that memory ran out, which is right for every
    /// request. It takes neither time nor memory.
    pub fn unmade(book: Arc<PointBook>, ask: Ask) -> Compiled
        ensures book { result.book ≡ arc_value book }
        ensures ask { result.ask ≡ ask }
        ensures answer { result.answer ≡ Err Refusal.OutOfMemory }
    {
        Compiled {
            book,
            ask,
            answer: Err(Refusal::OutOfMemory),
            again: Err(Refusal::OutOfMemory),
        }
    }

    /// Makes the schedule compiler's answer to a request for a composite schedule with this
    /// schedule, or that there is no memory to hold it twice.
    fn of_schedule(book: Arc<PointBook>, ask: Ask, schedule: Composite) -> Compiled
        requires right { IsCompiledFor (arc_value book) ask (Ok schedule) }
        ensures book { result.book ≡ arc_value book }
        ensures ask { result.ask ≡ ask }
    {
        // Copied here and not when the answer is posted, so that a post, which is made under the
        // lock, needs no memory.
        let (answer, again) = match schedule.copy() {
            Ok(copy) => (Ok(schedule), Ok(copy)),
            Err(_) => (Err(Refusal::OutOfMemory), Err(Refusal::OutOfMemory)),
        };
        Compiled {
            book,
            ask,
            answer,
            again,
        }
    }

    /// Returns the book of the request.
    pub fn book(&self) -> &PointBook
        ensures { result.now ≡ self.now.book }
    {
        &self.book
    }

    /// Returns the request.
    pub fn ask(&self) -> &Ask
        ensures { result.now ≡ self.now.ask }
    {
        &self.ask
    }

    /// Returns the answer, twice.
    pub fn into_answers(self) -> (Result<Composite, Refusal>, Result<Composite, Refusal>)
        ensures one { result.0 ≡ self.answer }
        ensures other { result.1 ≡ self.answer }
        ensures right { IsCompiledFor self.book self.ask self.answer }
    {
        (self.answer, self.again)
    }
}
