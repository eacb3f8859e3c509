//! The loss of all links after a restore.

ghost use Rattle.std.specs.Prelude.{◌≡◌, None, OnOk, string_bytes};
ghost use Rattle.site_core.specs.State.{link_of};
ghost use Rattle.journal.specs.ByCases.LostLinks.{GivesNoLink, HasNoLinkAt};
ghost use Rattle.journal.specs.LostLinks.{HasNoLinks, LosesLinks};

use crate::line::{Line, Noted, push_line};
use ghost_list::ListName;
use ocpp_scalars::{Instant, Refusal};
use site_core::PointId;
use std::alloc::Global;
use std::sync::ledger::Ledger;
use version_store::Book;

/// Ends the link of each point that has one. Appends the lines that say so at this moment to a
/// text, for the journal. Calls that were in flight wait again.
pub fn lose_links<C: Ledger, A: Ledger, N: ListName>(
    alloc: Global,
    book: &mut Book<C, A, N>,
    moment: Instant,
    text: &mut String,
) -> Result<(), Refusal>
    ensures none { OnOk result (HasNoLinks book.new.present) }
    ensures lines { OnOk result (LosesLinks moment book.old.present book.new.present
        (string_bytes text.old) (string_bytes text.new)) }
{
    // With these lines, a later restart comes to this state too.
    let points = book.present().site().len();
    for place in 0..points {
        lose_link(alloc, book, place, moment, text)?;
    }
    Ok(())
}

/// Ends the link of the point at a place of the site file, if it has one, after a restore from the
/// journal.
fn lose_link<C: Ledger, A: Ledger, N: ListName>(
    alloc: Global,
    book: &mut Book<C, A, N>,
    place: usize,
    moment: Instant,
    text: &mut String,
) -> Result<(), Refusal>
    ensures here { OnOk result (HasNoLinkAt book.new.present place) }
    ensures others { OnOk result (GivesNoLink book.old.present book.new.present) }
    ensures lines { OnOk result (LosesLinks moment book.old.present book.new.present
        (string_bytes text.old) (string_bytes text.new)) }
{
    let Some(point) = book.present().site().point(place) else {
        return Ok(());
    };
    let Some(link) = book.link_of(point.id) else {
        return Ok(());
    };
    let point = PointId::copied(alloc, point.id)?;
    lose(book, point, link, moment, text)
}

/// Ends this link of a point after a restore from the journal, and appends a `lost` line to the
/// text for the journal.
fn lose<C: Ledger, A: Ledger, N: ListName>(
    book: &mut Book<C, A, N>,
    point: PointId,
    link: u64,
    moment: Instant,
    text: &mut String,
) -> Result<(), Refusal>
    ensures here { OnOk result (link_of book.new.present point ≡ None) }
    ensures others { OnOk result (GivesNoLink book.old.present book.new.present) }
    ensures lines { OnOk result (LosesLinks moment book.old.present book.new.present
        (string_bytes text.old) (string_bytes text.new)) }
{
    let line = Line {
        moment,
        point: point.as_str(),
        noted: Noted::Lost { link },
    };
    push_line(text, &line)?;
    match book.lost(point, link) {
        Ok(()) => Ok(()),
        Err(refusal) => Err(refusal),
    }
}
