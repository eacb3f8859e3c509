//! The channels to the workers.

ghost use Rattle.std.specs.Prelude.{◌≡◌, ◌⊎◌, IfErr, IsTrue};
ghost use Rattle.compile_pool.specs.Unsent.{job_of};
ghost use Rattle.compile_pool.specs.Work.{IsShort};

use crate::work::short_work;
use crossbeam_channel::{Sender, TrySendError};
use std::sync::Wait;
use version_store::Job;

/// The channels to the workers. Short jobs have a channel of their own, so that they don't wait
/// behind long ones. Both may be the same channel.
#[derive(Clone, Copy, Drop)]
pub struct Jobs<'a> {
    short: &'a Sender<Job>,
    long: &'a Sender<Job>,
}

/// A job that wasn't sent.
#[derive(Drop)]
pub enum Unsent {
    /// Its channel is full.
    NoRoom(Job),
    /// Its channel has no worker any more.
    NoWorker(Job),
}

impl<'a> Jobs<'a> {
    /// Takes the channels of short jobs and of long ones.
    pub fn new(short: &'a Sender<Job>, long: &'a Sender<Job>) -> Jobs<'a>
        ensures { (result.short ≡ short.entry) × (result.long ≡ long.entry) }
    {
        Jobs { short, long }
    }

    /// Takes one channel for all jobs.
    pub fn one(all: &'a Sender<Job>) -> Jobs<'a> {
        Jobs {
            short: all,
            long: all,
        }
    }

    /// Returns the channel to the workers that compile a job. Only a short job gets that of short
    /// ones.
    fn channel_of(&self, job: &Job, short: bool) -> &'a Sender<Job>
        requires { IsTrue short → IsShort job.now }
        ensures { (result ≡ self.now.long)
            ⊎ ((result ≡ self.now.short) × IsShort job.now) }
    {
        if short { self.short } else { self.long }
    }

    /// Sends a job to its channel as soon as that has room. Returns the job if the channel has no
    /// worker any more.
    pub fn send<R: Wait>(&self, rt: &R, job: Job) -> Result<(), Job>
        ensures back { IfErr result (λ back. back ≡ job) }
    {
        let short = short_work(&job).is_some();
        match self.channel_of(&job, short).send(rt, job) {
            Ok(()) => Ok(()),
            Err(unsent) => Err(unsent.into_inner()),
        }
    }

    /// Sends a job to its channel if there is room now. `short` may be true only for a short job.
    pub fn try_send<R: Wait>(&self, rt: &R, job: Job, short: bool) -> Result<(), Unsent>
        requires short { IsTrue short → IsShort job }
        ensures back { IfErr result (λ unsent. job_of unsent ≡ job) }
    {
        match self.channel_of(&job, short).try_send(rt, job) {
            Ok(()) => Ok(()),
            Err(TrySendError::Full(job)) => Err(Unsent::NoRoom(job)),
            Err(unsent) => Err(Unsent::NoWorker(unsent.into_inner())),
        }
    }
}
