//! Workers on threads, which compile requests for schedules (OCPP 1.6, chapter 5.7) outside the
//! lock of the shared book, and sessions that wait for the answers.
#![tactic(auto)]

mod gate;
mod jobs;
mod wait;
mod work;
mod workers;

pub use gate::{Gate, Open};
pub use jobs::{Jobs, Unsent};
pub use wait::{collect_answer, wait_answer};
pub use work::short_work;
pub use workers::{answer_job, answer_unmade, run_pool, worker};

/// The most jobs that wait for a worker: as many as kept requests.
// Each kept request is in a channel at most once, so with this room a session needn't wait to send.
pub const MAX_JOBS: usize = 64;
