//! The state that all seats of a site share, without its book and its journal.

use ocpp_scalars::SystemClock;
use server_core::{
    FastClients, FreeSeats, LongMessages, Notices, PresentStreams, SiteWatch, UnfinishedHandshakes,
};
use site_keys::Keys;
use std::alloc::{AllocError, Global};
use std::sync::{Mutex, Wait};

/// The options of a site that runs.
#[derive(Drop)]
pub struct SeatOptions {
    /// The time that a point has to reply to a call, in seconds. Then its connection is closed.
    pub call_timeout: u64,
    /// The keys of all clients. Without keys, each client except a web page may connect if its
    /// request is for this machine.
    pub keys: Option<Keys>,
    /// The address at which the site listens, as it was given.
    pub address: String,
    /// Whether the profiles of a point are installed again after it has booted.
    pub installs_again: bool,
}

/// The state that all seats of a site share, without its book and its journal.
#[derive(Drop)]
pub struct Seats<R> {
    pub rt: R,
    pub alloc: Global,
    pub clock: SystemClock<R>,
    pub present: PresentStreams,
    pub free: FreeSeats,
    pub long_messages: LongMessages,
    pub handshakes: UnfinishedHandshakes,
    pub watch: SiteWatch,
    pub notices: Notices,
    pub options: SeatOptions,
    pub ahead: FastClients,
    /// The lock that a thread holds while it reads a long message.
    pub reading: Mutex<()>,
}

impl<R: Wait + Copy + Drop> Seats<R> {
    /// Makes the state of seats for a site with this number of points.
    pub fn make(
        rt: R,
        alloc: Global,
        points: usize,
        options: SeatOptions,
    ) -> Result<Seats<R>, AllocError> {
        Ok(Seats {
            rt,
            alloc,
            clock: SystemClock { rt },
            present: PresentStreams::make(alloc, points)?,
            free: FreeSeats::new(),
            long_messages: LongMessages::new(),
            handshakes: UnfinishedHandshakes::new(alloc),
            watch: SiteWatch::make(alloc, points)?,
            notices: Notices::new(alloc),
            options,
            ahead: FastClients::new(),
            reading: Mutex::new(()),
        })
    }
}
