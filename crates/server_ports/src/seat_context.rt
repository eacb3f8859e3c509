//! A site that seats serve: its book, its journal, and the state of its seats.

use crate::seats::{SeatOptions, Seats};
use ghost_list::ListName;
use journal::Journal;
use ocpp_scalars::Moments;
use site_status::RestoredCalls;
use std::alloc::{AllocError, Global};
use std::rt::Clock;
use std::sync::ledger::Ledger;
use std::sync::{Arc, Wait};
use version_store::Shared;

/// A site that seats serve.
#[derive(Drop)]
pub struct SeatContext<C: Ledger, A: Ledger, R, J, N: ListName> {
    pub seats: Arc<Seats<R>, Global>,
    pub shared: Arc<Shared<C, A, N>, Global>,
    pub journal: Arc<J, Global>,
}

impl<
    C: Ledger,
    A: Ledger,
    R: Wait + Clock + Copy + Drop,
    J: Journal<N> + Drop,
    N: ListName,
> SeatContext<C, A, R, J, N> {
    /// Makes the site of this book, with this journal.
    pub fn make(
        rt: R,
        alloc: Global,
        shared: Shared<C, A, N>,
        journal: Arc<J, Global>,
        options: SeatOptions,
    ) -> Result<SeatContext<C, A, R, J, N>, AllocError> {
        let points = shared.lock(&rt).present().site().len();
        let seats = Seats::make(rt, alloc, points, options)?;
        Ok(SeatContext {
            seats: Arc::new(alloc, seats)?,
            shared: Arc::new(alloc, shared)?,
            journal,
        })
    }

    /// Resumes the calls to each point, in the order of the site, as its journal has them. A call
    /// that the journal doesn't have, as call 0 of a point without a line, counts from now.
    pub fn resume(&self, restored: Vec<RestoredCalls>) -> Result<(), AllocError> {
        let seats = &self.seats;
        let copied = self.shared.lock(&seats.rt).present().copy();
        let machine = copied?;
        for (place, calls) in restored.into_iter().enumerate() {
            seats.watch.resume(&seats.rt, place, calls);
        }
        if let Some(moment) = seats.clock.now() {
            seats.watch.see_all_calls(&seats.rt, &machine, moment);
        }
        Ok(())
    }
}
