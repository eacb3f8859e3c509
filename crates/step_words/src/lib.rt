//! Steps of the central system in words, and their outcomes: steps as lines, replies and refusals
//! as a name with its number, and a book whose one session makes the steps. Tests and `play_steps`
//! use it.
#![tactic(auto)]

mod desk;
mod said;
mod steps;

pub use desk::Desk;
pub use said::{Said, said_of};
pub use steps::{judging, step_of};
