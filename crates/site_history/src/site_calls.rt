//! The calls to each point of a site.

use crate::event::{Event, call_after, change_in};
use crate::point_calls::PointCalls;
use ocppj_frame::ReadingMemory;
use replay::PlayedLine;
use site_core::Machine;
use std::alloc::{AllocError, Global};

/// The calls to each point of a site, by their progress after the events so far.
#[derive(Drop)]
pub struct SiteCalls {
    alloc: Global,
    memory: ReadingMemory,
    /// The calls to each point, at its index in the site file.
    points: Vec<PointCalls>,
}

impl SiteCalls {
    /// Returns the calls to this many points before the first event: call 0 waits for each.
    pub fn new(alloc: Global, points: usize) -> Result<SiteCalls, AllocError> {
        let mut calls = Vec::with_capacity(alloc, points)?;
        for _place in 0..points {
            calls.push(PointCalls::new(alloc)?)?;
        }
        Ok(SiteCalls {
            alloc,
            memory: ReadingMemory::new(alloc),
            points: calls,
        })
    }

    /// Reads an event, given the state after it.
    pub fn follow(&mut self, machine: &Machine, event: &Event<'_>) -> Result<(), AllocError> {
        let (Some(place), Some(outbox)) = (
            machine.site().place_of(event.point),
            machine.outbox_of(event.point),
        ) else {
            return Ok(());
        };
        match self.points.get_mut(place) {
            Some(calls) => calls.read(self.alloc, &mut self.memory, outbox, event),
            None => Ok(()),
        }
    }

    /// Reads the events of a script's line, given the state after it.
    pub fn follow_line(
        &mut self,
        machine: &Machine,
        played: &PlayedLine<'_>,
    ) -> Result<(), AllocError> {
        if let Some(event) = change_in(played) {
            self.follow(machine, &event)?;
        }
        match call_after(played) {
            Some(event) => self.follow(machine, &event),
            None => Ok(()),
        }
    }

    /// Returns the calls to each point, in the order of the site file.
    pub fn points(&self) -> &[PointCalls] {
        self.points.as_slice()
    }
}
