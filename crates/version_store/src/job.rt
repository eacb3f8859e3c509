//! Jobs to compile.

ghost use Rattle.std.specs.Prelude.{◌≡◌, ◌≤◌, IfOk, length};
ghost use Rattle.std.specs.Arc.{arc_value};

use meaning::Ask;
use point_book::PointBook;
use site_core::SharedBook;
use std::alloc::AllocError;
use std::marker::Model;
use std::sync::Arc;

/// A taken request for a composite schedule (chapter 5.7): its number, its point's book at that
/// time, and the `Ask`. The point has the connector of the `Ask`.
#[derive(Drop)]
pub struct Job {
    number: u64,
    book: Arc<PointBook>,
    ask: Ask,
}

impl Model for Job {
    ghost use Rattle.std.specs.Prelude.{◌≤◌, length};
    ghost use Rattle.std.specs.Arc.{arc_value};
    ghost use Rattle.version_store.specs.Answers.{RequestedJob};

    ghost Value = { RequestedJob };

    ghost view = { λ job. record { number = job.number; book = arc_value job.book; ask = job.ask } };

    ghost invariant = { λ job. job.ask.connector ≤ length (arc_value job.book).ceilings };
}

impl Job {
    /// Makes the job to compile a request for a composite schedule that the book has taken: its
    /// number, its point's book and its `Ask`.
    pub(crate) fn new(number: u64, book: SharedBook, ask: Ask) -> Job
        requires { ask.connector ≤ length book.ceilings }
        ensures number { result.number ≡ number }
        ensures book { result.book ≡ book }
        ensures ask { result.ask ≡ ask }
    {
        Job {
            number,
            book: book.into_arc(),
            ask,
        }
    }

    /// Returns the request's number.
    pub fn number(&self) -> u64
        ensures { result ≡ self.now.number }
    {
        self.number
    }

    /// Returns the book that its point had when the request was taken, with one more owner. Copies
    /// nothing.
    pub fn share_book(&self) -> Result<Arc<PointBook>, AllocError>
        ensures { IfOk result (λ book. arc_value book ≡ self.now.book) }
    {
        Arc::try_clone(&self.book)
    }

    /// Returns the `Ask`.
    pub fn ask(&self) -> &Ask
        ensures { result.now ≡ self.now.ask }
    {
        &self.ask
    }

    /// Returns the request's number, the book that its point had when it was taken, and the `Ask`.
    pub fn into_parts(self) -> (u64, Arc<PointBook>, Ask)
        ensures number { result.0 ≡ self.number }
        ensures book { arc_value result.1 ≡ self.book }
        ensures ask { result.2 ≡ self.ask }
        ensures has_connector { self.ask.connector ≤ length self.book.ceilings }
    {
        (self.number, self.book, self.ask)
    }
}
