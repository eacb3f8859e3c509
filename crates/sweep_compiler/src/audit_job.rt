//! The request of an audit, with the book to compare the reply with.

ghost use Rattle.std.specs.Prelude.{◌≡◌, ◌↔◌, ◌≤◌, length, IfOk, IsTrue};
ghost use Rattle.std.specs.Arc.{arc_value};

use point_book::PointBook;
use profile::Unit;
use std::alloc::AllocError;
use std::marker::Model;
use std::sync::Arc;

/// The request of an audit to a charge point (chapter 5.7): for its schedule of a connector for a
/// number of seconds, with the book to compare the reply with. The book has the connector.
#[derive(Drop)]
pub struct AuditJob {
    book: Arc<PointBook>,
    connector: u32,
    /// Seconds.
    duration: u32,
    unit: Unit,
}

impl Model for AuditJob {
    ghost use Rattle.std.specs.Prelude.{◌≤◌, length};
    ghost use Rattle.std.specs.Arc.{arc_value};
    ghost use Rattle.sweep_compiler.specs.Verdict.{AuditRequest};

    ghost Value = { AuditRequest };

    ghost view = { λ job. record {
      book = arc_value job.book;
      connector = job.connector;
      duration = job.duration;
      unit = job.unit;
    } };

    ghost invariant = { λ job. job.connector ≤ length (arc_value job.book).ceilings };
}

impl AuditJob {
    /// Makes the audit of a connector that a book has, for a number of seconds, in a unit.
    pub fn new(book: Arc<PointBook>, connector: u32, duration: u32, unit: Unit) -> AuditJob
        requires has_connector { connector ≤ length (arc_value book).ceilings }
        ensures { result ≡ record {
          book = arc_value book;
          connector = connector;
          duration = duration;
          unit = unit;
        } }
    {
        AuditJob {
            book,
            connector,
            duration,
            unit,
        }
    }

    /// Returns the book to compare the reply with.
    pub fn book(&self) -> &PointBook
        ensures value { result.now ≡ self.now.book }
        ensures has_connector { self.now.connector ≤ length self.now.book.ceilings }
    {
        &self.book
    }

    /// Returns the same book with another owner. Copies nothing.
    pub fn shared_book(&self) -> Result<Arc<PointBook>, AllocError>
        ensures { IfOk result (λ book. arc_value book ≡ self.now.book) }
    {
        Arc::try_clone(&self.book)
    }

    /// Returns the requested connector; 0 is the whole point.
    pub fn connector(&self) -> u32
        ensures { result ≡ self.now.connector }
    {
        self.connector
    }

    /// Returns the requested number of seconds.
    pub fn duration(&self) -> u32
        ensures { result ≡ self.now.duration }
    {
        self.duration
    }

    /// Returns the requested unit, which is that of the book's limits.
    pub fn unit(&self) -> Unit
        ensures { result ≡ self.now.unit }
    {
        self.unit
    }

    /// Returns the same audit with another owner of its book. Copies nothing.
    pub fn share(&self) -> Result<AuditJob, AllocError>
        ensures { IfOk result (λ job. job ≡ self.now) }
    {
        Ok(AuditJob {
            book: self.shared_book()?,
            connector: self.connector,
            duration: self.duration,
            unit: self.unit,
        })
    }

    /// Whether two audits are equal, including their books.
    pub fn same(&self, other: &AuditJob) -> bool
        ensures { IsTrue result ↔ (self.now ≡ other.now) }
    {
        self.connector == other.connector
            && self.duration == other.duration
            && self.unit == other.unit
            && self.book.same(&other.book)
    }
}
