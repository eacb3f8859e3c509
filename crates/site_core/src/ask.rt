//! The `Ask` of a Take, or why there is none.

ghost use Rattle.std.specs.Prelude.{◌≡◌, ◌≤◌, length, IfOk};
ghost use Rattle.site_core.specs.Ask.{is_other_unit, ask_at};

use crate::step::Take;
use meaning::Ask;
use ocpp_scalars::Refusal;
use point_book::PointBook;
use profile::Unit;

/// Returns the `Ask` for which the machine keeps a Take (a request for a composite schedule), from
/// its point's book and the site's unit. If there is none, the refusal is the first cause:
/// `UnknownConnector`, `WrongUnit`, `BadDuration` or `PastCalendar`.
pub(crate) fn ask_at(unit: Unit, book: &PointBook, take: &Take) -> Result<Ask, Refusal>
    ensures ask { result ≡ ask_at unit book.now take.now }
    ensures connector { IfOk result (λ ask. ask.connector ≤ length book.now.ceilings) }
{
    if take.connector > book.connectors() {
        return Err(Refusal::UnknownConnector);
    }
    if is_other_unit(take.unit, unit) {
        return Err(Refusal::WrongUnit);
    }
    Ask::try_new(take.connector, take.start, take.duration)
}

/// Whether a Take (the machine's step for a request for a composite schedule) asks for another unit
/// (A or W) than that of the site.
fn is_other_unit(asked: Option<Unit>, unit: Unit) -> bool
    ensures { result ≡ is_other_unit asked unit }
{
    match asked {
        None => false,
        Some(asked) => !asked.is_same(unit),
    }
}
