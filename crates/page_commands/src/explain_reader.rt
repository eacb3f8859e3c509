//! Reads the events of a journal for `explain`: what becomes of one point.

use journal_file::FolderFault;
use journal_reader::EventReader;
use ocpp_scalars::Instant;
use site_core::Machine;
use site_history::{Event, EventKind, ProfileStates, SiteCalls};
use std::alloc::{AllocError, Global};

/// A reader of the events at a point of a journal.
#[derive(Drop)]
pub(crate) struct ExplainReader<'a> {
    /// The identity of the point.
    pub(crate) point: &'a str,
    pub(crate) states: ProfileStates<'a>,
    calls: SiteCalls,
    /// The moment after which changes are counted, and how many came.
    counted_from: Instant,
    pub(crate) changes: u64,
    /// The version of the site's store before the line that is read.
    version: u64,
}

impl<'a> ExplainReader<'a> {
    /// Returns a reader of the journal for the command `explain`, before the first event, for a
    /// site of this many points. It counts the changes at a point after this moment.
    pub(crate) fn new(
        alloc: Global,
        points: usize,
        point: &'a str,
        counted_from: Instant,
    ) -> Result<ExplainReader<'a>, AllocError> {
        Ok(ExplainReader {
            point,
            states: ProfileStates::new(alloc, point),
            calls: SiteCalls::new(alloc, points)?,
            counted_from,
            changes: 0,
            version: 0,
        })
    }

    /// Returns, for a note of the command `explain`, since when the first call that waits for the
    /// explained point waits. None for call 0, which waits from the beginning.
    pub(crate) fn waiting_since(&self, machine: &Machine) -> Option<Instant> {
        let place = machine.site().place_of(self.point)?;
        self.calls.points().get(place)?.waiting_since()
    }

    /// Returns, for a note of the command `explain`, whether an event of the journal at the
    /// explained point is a later change. An audit, a remote start and a boot change no limit.
    fn counts(&self, machine: &Machine, event: &Event<'_>) -> bool {
        match event.kind {
            EventKind::Message { .. } => {
                event.moment > self.counted_from && machine.version() > self.version
            }
            _ => false,
        }
    }
}

impl EventReader for ExplainReader<'_> {
    fn before(&mut self, machine: &Machine, _line: u64, _point: &str) -> Result<(), FolderFault> {
        self.version = machine.version();
        Ok(())
    }

    fn read(&mut self, machine: &Machine, event: &Event<'_>) -> Result<(), FolderFault> {
        if event.point != self.point {
            return Ok(());
        }
        if self.counts(machine, event) {
            self.changes = self.changes.saturating_add(1);
        }
        self.states.read(machine, event)?;
        self.calls.follow(machine, event)?;
        Ok(())
    }
}
