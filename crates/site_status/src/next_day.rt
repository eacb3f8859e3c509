//! The limits of a connector over the next 24 hours.

ghost use Rattle.std.specs.Prelude.{◌≡◌, ◌≤◌, IfOk, IfSome, is_some, length};
ghost use Rattle.point_book.specs.Book.{state_of};
ghost use Rattle.site_status.specs.Found.{asked_day, day, has_picture};
ghost use Rattle.sweep_compiler.specs.Explained.{IsExplanation};

use crate::site_report::SiteReport;
use explain_pages::{ExplainedRequest, not_counted, write_picture};
use meaning::Ask;
use ocpp_scalars::Instant;
use point_book::PointBook;
use std::alloc::{AllocError, Global};
use sweep_compiler::{Explanation, Turns, explain};

/// Seconds in a day.
const DAY: u32 = 86_400;

/// Returns the request for a connector's limits over the day from a moment on, for the status port.
/// Returns `None` if the book doesn't have the connector, or in the last day of the calendar.
fn ask_of(book: &PointBook, connector: u32, moment: Instant) -> Option<Ask>
    ensures asked { result ≡ asked_day book.now connector moment }
    ensures within { IfSome result (λ ask. ask.connector ≤ length book.now.ceilings) }
{
    if connector > book.connectors() {
        return None;
    }
    match Ask::try_new(connector, moment, DAY) {
        Ok(ask) => Some(ask),
        Err(_) => None,
    }
}

/// Explains the limit of a connector over the next 24 hours for the status page, if the book has
/// the connector.
pub(crate) fn explained_day(
    alloc: Global,
    book: &PointBook,
    connector: u32,
    moment: Instant,
) -> Result<Option<Explanation>, AllocError>
    ensures { IfOk result (λ found. IfSome found (λ explained.
        IsExplanation (state_of book.now) connector moment day explained)) }
{
    let Some(ask) = ask_of(book, connector, moment) else {
        return Ok(None);
    };
    Ok(Some(explain(alloc, book, &ask, &mut Turns::new())?))
}

/// Draws the limit of a connector over the next 24 hours, as `central explain` draws it: a whole
/// SVG file. Returns `None` if the site doesn't have the point, or the point the connector.
pub fn connector_picture(
    alloc: Global,
    report: &SiteReport<'_>,
    point: &str,
    connector: u32,
) -> Result<Option<String>, AllocError>
    ensures { IfOk result (λ picture. is_some picture
        ≡ has_picture report.now.machine.now point.now connector report.now.moment) }
{
    let Some(book) = report.machine.book_of(point) else {
        return Ok(None);
    };
    let Some(ask) = ask_of(book, connector, report.moment) else {
        return Ok(None);
    };
    let explanation = explain(alloc, book, &ask, &mut Turns::new())?;
    let view = book.view();
    let rest = not_counted(alloc, &view, &ask, explanation.intervals())?;
    let explained = ExplainedRequest {
        point,
        unit: report.machine.site().unit(),
        ask,
        view,
        intervals: explanation.intervals(),
        not_counted: rest.as_slice(),
        known: &[],
    };
    Ok(Some(write_picture(alloc, &explained)?))
}
