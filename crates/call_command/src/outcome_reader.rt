//! Waits for the replies of points, which come to a site's journal after their calls were sent.

use journal_file::FolderFault;
use journal_reader::EventReader;
use operator_calls::Visit;
use site_core::Machine;
use site_history::{Event, SiteCalls};
use std::alloc::{AllocError, Global};
use std::rt::Clock;
use std::thread;
use std::time::{Duration, Instant};

/// The milliseconds between two looks at the journal.
const PAUSE: u64 = 200;

/// A reader of a journal that waits until the visited points have replied to their calls.
#[derive(Drop)]
pub(crate) struct OutcomeReader<'a, R> {
    rt: &'a R,
    visits: &'a [Visit],
    pub(crate) calls: SiteCalls,
    /// For how long it waits at most, in seconds, and since when.
    pub(crate) seconds: u64,
    begun: Option<Instant>,
    /// For each visit the number behind its last call, once the journal was read to its end.
    ends: Vec<u64>,
}

impl<'a, R: Clock> OutcomeReader<'a, R> {
    /// Returns a reader before the first event of the journal, for a site of this many points. It
    /// waits this many seconds at most for the points' replies to the calls of the command `call
    /// --wait`.
    pub(crate) fn new(
        rt: &'a R,
        alloc: Global,
        points: usize,
        visits: &'a [Visit],
        seconds: u64,
    ) -> Result<OutcomeReader<'a, R>, AllocError> {
        Ok(OutcomeReader {
            rt,
            visits,
            calls: SiteCalls::new(alloc, points)?,
            seconds,
            begun: Instant::now(rt).ok(),
            ends: Vec::with_capacity(alloc, visits.len())?,
        })
    }

    /// Records the number after the last call to each visited point, so that `call --wait` knows
    /// its calls. The journal has these before the central system answers the command `call`.
    fn note_ends(&mut self, machine: &Machine) {
        let visits = self.visits;
        for visit in visits.iter().skip(self.ends.len()) {
            let end = match machine.outbox_of(visit.id.as_str()) {
                Some(outbox) => outbox.next_number(),
                None => 0,
            };
            if self.ends.push(end).is_err() {
                return;
            }
        }
    }

    /// Returns whether the point of the visit at this index hasn't replied to all calls of the
    /// command `call`. If none was for the point, such as with a PointStatus, returns false.
    pub(crate) fn is_awaited(&self, machine: &Machine, place: usize) -> bool {
        let (Some(visit), Some(end)) = (self.visits.get(place), self.ends.get(place)) else {
            return false;
        };
        match machine.outbox_of(visit.id.as_str()) {
            Some(outbox) => visit.next_call < *end && outbox.first_number() < *end,
            None => false,
        }
    }

    /// Returns whether a point hasn't replied to all calls of the command `call`, so that `call
    /// --wait` goes on waiting.
    fn awaits_any(&self, machine: &Machine) -> bool {
        for place in 0..self.visits.len() {
            if self.is_awaited(machine, place) {
                return true;
            }
        }
        false
    }

    /// Returns whether the command `call` has waited as long as its option `--wait` says. Without a
    /// clock it doesn't wait.
    fn is_over(&self) -> bool {
        let (Some(begun), Ok(now)) = (self.begun, Instant::now(self.rt)) else {
            return true;
        };
        match now.checked_duration_since(begun) {
            Some(since) => since.as_secs() >= self.seconds,
            None => false,
        }
    }
}

impl<R: Clock> EventReader for OutcomeReader<'_, R> {
    fn read(&mut self, machine: &Machine, event: &Event<'_>) -> Result<(), FolderFault> {
        self.calls.follow(machine, event)?;
        Ok(())
    }

    /// Pauses and returns true, if a visited point hasn't replied to all its calls and time is
    /// left.
    fn waits(&mut self, machine: &Machine) -> bool {
        self.note_ends(machine);
        if !self.awaits_any(machine) || self.is_over() {
            return false;
        }
        thread::sleep(self.rt, Duration::from_millis(PAUSE));
        true
    }
}
