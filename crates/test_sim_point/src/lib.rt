//! Tests of `sim_point` from outside, by its public names alone: what a simulated charge point
//! answers and calls, and how it ends over streams in memory.
#![tactic(auto)]

#[cfg(test)]
mod day_texts;
#[cfg(test)]
mod days;
#[cfg(test)]
mod same;
#[cfg(test)]
mod sockets;
