//! The book of a charge point, shared by the machine and by requests for schedules.

ghost use Rattle.std.specs.Prelude.{◌≡◌, ◌≤◌, ◌<◌, None, IfOk, OnErr, OnOk, length};
ghost use Rattle.point_book.specs.Changes.{install_refusal, book_installed, book_cleared, book_started, book_stopped};

use point_book::PointBook;
use profile::{Criteria, Profile, Row};
use std::alloc::{AllocError, Global};
use std::marker::Model;
use std::sync::Arc;
use transactions::Begin;

/// The book of a charge point with several owners. A change first copies a book that has another
/// owner, so that the other keeps the book unchanged.
#[derive(Drop)]
pub struct SharedBook {
    book: Arc<PointBook>,
}

// Clauses see the book.
impl Model for SharedBook {
    ghost use Rattle.std.specs.Arc.{arc_value};
    ghost use Rattle.point_book.specs.Book.{BookState};

    ghost Value = { BookState };

    ghost view = { λ shared. arc_value shared.book };
}

impl SharedBook {
    ghost use Rattle.std.specs.Arc.{arc_value};

    /// Makes a book with one owner.
    pub fn new(alloc: Global, book: PointBook) -> Result<SharedBook, AllocError>
        ensures { IfOk result (λ shared. shared ≡ book) }
    {
        Ok(SharedBook {
            book: Arc::new(alloc, book)?,
        })
    }

    /// Returns the same book with one more owner. Copies nothing.
    pub fn share(&self) -> Result<SharedBook, AllocError>
        ensures { IfOk result (λ shared. shared ≡ self.now) }
    {
        Ok(SharedBook {
            book: Arc::try_clone(&self.book)?,
        })
    }

    /// Returns the book.
    pub fn book(&self) -> &PointBook
        ensures { result.now ≡ self.now }
    {
        &self.book
    }

    /// Returns the book, shared with its other owners. Copies nothing.
    pub fn into_arc(self) -> Arc<PointBook>
        ensures { arc_value result ≡ self }
    {
        self.book
    }

    /// Installs a row (a charging profile at a connector) in the machine's book of a charge point.
    /// Copies the book first if it is shared. The row must be one that may be installed (chapter
    /// 5.16).
    pub(crate) fn install(&mut self, row: Row) -> Result<(), AllocError>
        requires connector { row.connector ≤ length self.old.ceilings }
        requires allowed { install_refusal self.old row ≡ None }
        ensures book { OnOk result (self.new ≡ book_installed self.old row) }
        ensures kept { OnErr result (self.new ≡ self.old) }
    {
        match Arc::make_mut(&mut self.book)?.install(row) {
            Ok(()) => Ok(()),
            Err(_) => Err(AllocError),
        }
    }

    /// Removes the profiles that match each given criterion (chapter 5.5) from the machine's book
    /// of a charge point. Copies the book first if a request or an audit shares it.
    pub(crate) fn clear(&mut self, criteria: &Criteria) -> Result<(), AllocError>
        ensures book { OnOk result (self.new ≡ book_cleared self.old criteria.now) }
        ensures kept { OnErr result (self.new ≡ self.old) }
    {
        Arc::make_mut(&mut self.book)?.clear(criteria);
        Ok(())
    }

    /// Begins a transaction of this number at a connector (chapter 4.8) in the machine's book of a
    /// charge point, with a profile if one is given (chapter 5.11). Copies the book first if it is
    /// shared.
    pub(crate) fn start(
        &mut self,
        connector: u32,
        begin: Begin,
        number: i32,
        profile: Option<Profile>,
    ) -> Result<(), AllocError>
        requires above { 0 < connector }
        requires has { connector ≤ length self.old.ceilings }
        ensures book { OnOk result
            (self.new ≡ book_started self.old connector begin number profile) }
        ensures kept { OnErr result (self.new ≡ self.old) }
    {
        match Arc::make_mut(&mut self.book)?.start(connector, begin, number, profile) {
            Ok(_) => Ok(()),
            Err(_) => Err(AllocError),
        }
    }

    /// Ends the transaction of this number, if it is active (chapter 4.10), in the machine's book
    /// of a charge point. Copies the book first if a request or an audit shares it.
    pub(crate) fn stop(&mut self, number: i32) -> Result<(), AllocError>
        ensures book { OnOk result (self.new ≡ book_stopped self.old number) }
        ensures kept { OnErr result (self.new ≡ self.old) }
    {
        Arc::make_mut(&mut self.book)?.stop(number);
        Ok(())
    }
}
