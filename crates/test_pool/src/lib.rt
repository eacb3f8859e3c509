//! Tests of `compile_pool` and of the shared book of `version_store` from outside, by their public
//! names only: workers on threads beside sessions. Each test ends, with the same result in whatever
//! order the threads run.
#![tactic(auto)]

#[cfg(test)]
mod desk;
#[cfg(test)]
mod gates;
#[cfg(test)]
mod stories;
#[cfg(test)]
mod threads;
