//! The state that all sessions share.

use compile_pool::Jobs;
use crossbeam_channel::Sender;
use journal::NoJournal;
use ocpp_scalars::Moments;
use std::alloc::Global;
use std::sync::ledger::Ledger;
use std::sync::{Mutex, Wait};
use version_store::{Job, Shared};
use world::{Unrecorded, World};

/// The state that all sessions share, borrowed by each function that serves one.
#[derive(Drop)]
pub struct Context<'a, W: World> {
    pub rt: &'a W::Runtime,
    pub alloc: Global,
    /// The book of the site.
    pub shared: &'a Shared<W::Changes, W::Answers, W::Name>,
    /// The channels to the workers.
    pub jobs: Jobs<'a>,
    pub clock: &'a W::Clock,
    pub journal: &'a W::Journal,
    /// The lock that a session holds while it reads a long message.
    pub reading: &'a Mutex<()>,
}

impl<'a, C: Ledger + 'a, A: Ledger + 'a, R: Wait + 'a, M: Moments + 'a> Context<
    'a,
    Unrecorded<C, A, R, M>,
> {
    /// Returns the context of sessions whose changes aren't noted.
    pub fn unrecorded(
        rt: &'a R,
        alloc: Global,
        shared: &'a Shared<C, A>,
        jobs: &'a Sender<Job>,
        clock: &'a M,
        journal: &'a NoJournal,
        reading: &'a Mutex<()>,
    ) -> Context<'a, Unrecorded<C, A, R, M>> {
        Context {
            rt,
            alloc,
            shared,
            jobs: Jobs::one(jobs),
            clock,
            journal,
            reading,
        }
    }
}
