//! A point's rows, as they are checked in a request.

ghost use Rattle.std.specs.Prelude.{◌≡◌, Some, slice_get};
ghost use Rattle.meaning.specs.Cause.{counts_for};

use meaning::{Ask, View};
use profile::Row;

/// A row of a view, with the request in which it is checked.
#[derive(Clone, Copy)]
pub(crate) struct RowInRequest<'a> {
    pub view: View<'a>,
    pub ask: Ask,
    pub place: usize,
    pub row: &'a Row,
    pub ghost stands: { slice_get view.rows.now place ≡ Some row.now },
}

/// A row of a view, as it is checked for a connector in a request.
#[derive(Clone, Copy)]
pub(crate) struct RowAtConnector<'a> {
    pub view: View<'a>,
    pub ask: Ask,
    pub place: usize,
    pub row: &'a Row,
    pub connector: u32,
    /// The connector for which the row counts: 0 for a ChargePointMaxProfile.
    pub at: usize,
    pub ghost stands: { slice_get view.rows.now place ≡ Some row.now },
    pub ghost counts: { at ≡ counts_for row.now.profile.purpose connector },
}
