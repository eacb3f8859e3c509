//! A simulated charge point (OCPP 1.6, chapters 3.13, 4.6, 4.8, 4.10, 5.5, 5.7, 5.11 and 5.16).
//! Like a real point it has a book of its own. The central system's calls change that book and are
//! answered from it. The point makes the calls of a list of steps, one after another; remote starts
//! come first. `specs/SimPoint.antt` defines the effect of a message.
#![tactic(auto)]

mod answer;
mod own_book;
mod point;
mod point_call;
mod point_call_text;
mod remote_start;
mod request;
mod sim_step;

pub use point::SimPoint;
pub use sim_step::SimStep;
