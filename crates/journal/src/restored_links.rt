//! The restore of lines about links and about sent calls.

ghost use Rattle.std.specs.Prelude.{None, Some};
ghost use Rattle.site_core.specs.declared.step.Step.TheVariants as steps;
ghost use Rattle.journal.specs.ByCases.Restore.{Leads};
ghost use Rattle.journal.specs.Restore.{KeepsPass, made_with};

use crate::drawn_number::compare;
use crate::restore_fault::RestoreFault;
use ghost_list::ListName;
use site_core::PointId;
use std::alloc::Global;
use std::sync::ledger::Ledger;
use version_store::{Book, Pass};

/// Restores an `attached` line of the journal: gives the point a new link, which has to have this
/// number.
pub(crate) fn attach<C: Ledger, A: Ledger, N: ListName>(
    alloc: Global,
    book: &mut Book<C, A, N>,
    pass: &mut Pass<C, A>,
    point: &str,
    link: u64,
) -> Result<(), RestoreFault>
    ensures leads { Leads (made_with book.old.present (Some link) (steps.Attach point.now))
        book.old.present result book.new.present }
    ensures pass { KeepsPass pass.old pass.new }
{
    let point = PointId::copied(alloc, point)?;
    match book.attach(pass, point) {
        Ok(drawn) => compare(link, Some(drawn)),
        Err(refusal) => Err(RestoreFault::from(refusal)),
    }
}

/// Restores a `sent` line of the journal: sends a call over this link. The call has to have this
/// number.
pub(crate) fn send<C: Ledger, A: Ledger, N: ListName>(
    alloc: Global,
    book: &mut Book<C, A, N>,
    point: &str,
    link: u64,
    call: u64,
) -> Result<(), RestoreFault>
    ensures { Leads (made_with book.old.present (Some call) (steps.Send point.now link))
        book.old.present result book.new.present }
{
    let point = PointId::copied(alloc, point)?;
    match book.send(point, link) {
        Ok(Some(sent)) => compare(call, Some(sent.number)),
        Ok(None) => Err(RestoreFault::Unchanged),
        Err(refusal) => Err(RestoreFault::from(refusal)),
    }
}

/// Restores a `lost` line of the journal: ends this link of the point.
pub(crate) fn lose<C: Ledger, A: Ledger, N: ListName>(
    alloc: Global,
    book: &mut Book<C, A, N>,
    point: &str,
    link: u64,
) -> Result<(), RestoreFault>
    ensures { Leads (made_with book.old.present None (steps.Lost point.now link))
        book.old.present result book.new.present }
{
    let point = PointId::copied(alloc, point)?;
    match book.lost(point, link) {
        Ok(()) => Ok(()),
        Err(refusal) => Err(RestoreFault::from(refusal)),
    }
}
