//! The site that a status port reports.

use crate::seat_context::SeatContext;
use ghost_list::ListName;
use ocpp_scalars::Moments;
use server_core::Seen;
use site_status::{
    Health, JournalReport, SiteCounts, SiteReport, StatusAnswer, StatusPath, WatchedJournal,
    answer_of, health_answer,
};
use std::alloc::AllocError;
use std::rt::Clock;
use std::sync::Wait;
use std::sync::ledger::Ledger;

/// A site that a status port reports.
pub trait WatchedSite {
    /// Returns the status port's answer at a path.
    fn answer(&self, path: StatusPath<'_>) -> Result<StatusAnswer, AllocError>;
}

impl<C: Ledger, A: Ledger, R: Wait + Clock, J: WatchedJournal, N: ListName> WatchedSite
    for SeatContext<C, A, R, J, N> {
    fn answer(&self, path: StatusPath<'_>) -> Result<StatusAnswer, AllocError> {
        let journal = self.journal.report();
        if let StatusPath::Health = path {
            return health_answer(self.seats.alloc, Health::of(Some(journal.state)));
        }
        state_answer(self, journal, path)
    }
}

/// Returns the answer of the server's status port at a path that reports the state of the site. The
/// book is locked while it is copied, and not while a text is made.
fn state_answer<C: Ledger, A: Ledger, R: Wait + Clock, J, N: ListName>(
    site: &SeatContext<C, A, R, J, N>,
    journal: JournalReport,
    path: StatusPath<'_>,
) -> Result<StatusAnswer, AllocError> {
    let seats = &site.seats;
    let Some(moment) = seats.clock.now() else {
        return Err(AllocError);
    };
    let Seen { points, counts } = seats.watch.copy(&seats.rt, seats.alloc)?;
    let free_seats = seats.free.count(&seats.rt);
    let book = site.shared.lock(&seats.rt);
    let (copied, totals) = (book.present().copy(), book.totals());
    drop(book);
    let machine = copied?;
    let waiting_since = seats.watch.waiting_since(&seats.rt, seats.alloc, &machine)?;
    let report = SiteReport {
        moment,
        machine: &machine,
        points: points.as_slice(),
        waiting_since: waiting_since.as_slice(),
        counts: SiteCounts {
            free_seats,
            changes: totals.changes,
            answers: totals.answers,
            ..counts
        },
        journal,
    };
    answer_of(seats.alloc, path, &report)
}
