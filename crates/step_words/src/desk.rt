//! A book that makes steps as the calls of its one session.

ghost use Rattle.std.specs.Prelude.{◌≡◌};
ghost use Rattle.site_core.specs.Step.{HasAskedConnector};

use crate::said::{Said, said_of, said_of_answer};
use meaning::Ask;
use point_book::PointBook;
use site_core::{Refused, Reply, Step};
use site_rules::Site;
use std::alloc::{AllocError, Global};
use std::sync::Arc;
use std::sync::ledger::{Blank, Ledger};
use sweep_compiler::Compiled;
use version_store::{Answer, Book, Pass};

/// The most answers that are kept until they are posted.
const ROOM: usize = 128;

/// A book with the pass of its one session.
#[derive(Drop)]
pub struct Desk<C: Ledger, A: Ledger> {
    pub alloc: Global,
    pub book: Book<C, A>,
    pub pass: Pass<C, A>,
    /// The answers that are compiled and not posted yet, each with the number of its request.
    compiled: Vec<(u64, Compiled)>,
    /// The answer to post if none is kept: one without a schedule to the last request.
    spare: Option<Compiled>,
    /// The answer that the book returned last.
    pub answered: Option<Answer>,
}

impl<C: Ledger, A: Ledger> Desk<C, A> {
    /// Makes the book of a site and its pass.
    pub fn new(
        alloc: Global,
        changes: Blank,
        answers: Blank,
        site: Site,
    ) -> Result<Desk<C, A>, AllocError>
        requires changes { (changes.name ≡ C.name) × (changes.parts ≡ C.parts)
            × (changes.parts ≡ 1) }
        requires answers { (answers.name ≡ A.name) × (answers.parts ≡ A.parts)
            × (answers.parts ≡ 1) }
    {
        let compiled = Vec::with_capacity(alloc, ROOM)?;
        let (book, mut passes) = Book::make(alloc, changes, answers, site, 1)?;
        let Some(pass) = passes.pop() else {
            return Err(AllocError);
        };
        Ok(Desk {
            alloc,
            book,
            pass,
            compiled,
            spare: None,
            answered: None,
        })
    }

    /// Makes a step as the call of a session on the book, and returns its outcome in words.
    pub fn said(&mut self, step: Step) -> Said {
        match self.make(step) {
            Ok(said) => said,
            Err(refused) => (refused.refusal.name(), None),
        }
    }

    /// Makes a step as the call of a session on the book, and returns its outcome, or the step if
    /// it is refused. A request is compiled at once, and its answer is posted by its Compile.
    pub fn make(&mut self, step: Step) -> Result<Said, Refused> {
        match step {
            Step::Compile(number) => Ok(self.bring(number, number)),
            Step::Answer(number) => Ok(self.collect(number)),
            Step::Finish => {
                self.book.finish();
                Ok(("Finished", None))
            }
            step => match self.book.make_step(&mut self.pass, step) {
                Ok(reply) => Ok(self.keep(reply)),
                Err(refused) => Err(refused),
            },
        }
    }

    /// Returns the outcome of a step of the tests' tables, and compiles the schedule of a request
    /// that was taken.
    fn keep(&mut self, reply: Reply) -> Said
        requires { HasAskedConnector reply }
    {
        match reply {
            Reply::Taken { number, book, ask } => {
                let book = book.into_arc();
                self.spare = unmade(&book, &ask);
                let compiled = Compiled::make(self.alloc, book, ask);
                self.put_back(number, compiled);
                ("Taken", Some(number))
            }
            reply => said_of(&reply),
        }
    }

    /// Keeps the answer compiled for a request of the book, if there is room, for the tests' steps.
    /// The spare answer has the number 0.
    fn put_back(&mut self, number: u64, compiled: Compiled) {
        if number == 0 {
            self.spare = Some(compiled);
        } else if self.compiled.len() < ROOM {
            drop(self.compiled.push((number, compiled)));
        }
    }

    /// Removes and returns the answer compiled for a request of the book, or otherwise the spare
    /// answer, for the tests' steps.
    fn take_out(&mut self, number: u64) -> Option<(u64, Compiled)> {
        match self.compiled.iter().position(|kept| kept.0 == number) {
            Some(place) => Some(self.compiled.remove(place)),
            None => self.spare.take().map(|compiled| (0, compiled)),
        }
    }

    /// Posts to the book, for the request of a number, the answer compiled for request `own`.
    pub fn bring(&mut self, own: u64, number: u64) -> Said {
        let Some((own, compiled)) = self.take_out(own) else {
            return ("nothing to bring", None);
        };
        match self.book.post(number, compiled) {
            Ok(()) => ("Compiled", None),
            Err((refusal, compiled)) => {
                self.put_back(own, compiled);
                (refusal.name(), None)
            }
        }
    }

    /// Collects the book's answer to a request, for the tests' steps. Keeps the answer, and returns
    /// its outcome in words.
    fn collect(&mut self, number: u64) -> Said {
        match self.book.collect(&mut self.pass, number) {
            Ok(Some(answer)) => {
                let said = said_of_answer(answer.answer());
                self.answered = Some(answer);
                said
            }
            Ok(None) => ("NotYet", None),
            Err(refusal) => (refusal.name(), None),
        }
    }
}

/// Makes the answer without a schedule to a request, for the tests' steps, if there is memory for a
/// share of the point's book.
fn unmade(book: &Arc<PointBook>, ask: &Ask) -> Option<Compiled> {
    let share = Arc::try_clone(book).ok()?;
    Some(Compiled::unmade(share, *ask))
}
