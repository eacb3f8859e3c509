//! Tests of `site_core` and `version_store` from outside, by their public names only, of what no
//! table of `play_steps` shows: failed allocations, numbers at their end, calls that no session
//! makes, and random histories of a point that forgets. They are in a crate of their own, since a
//! crate that has tests is proved twice.
#![tactic(auto)]

#[cfg(test)]
mod book_calls;
#[cfg(test)]
mod callers;
#[cfg(test)]
mod forgetting_point;
#[cfg(test)]
mod last_numbers;
#[cfg(test)]
mod obeying_point;
#[cfg(test)]
mod played;
#[cfg(test)]
mod refused_memory;
#[cfg(test)]
mod same;
