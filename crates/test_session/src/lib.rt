//! Tests of `session` by its public names alone: sessions over bytes in memory, on a shared book.
#![tactic(auto)]

#[cfg(test)]
mod clients;
#[cfg(test)]
mod desk;
#[cfg(test)]
mod named_texts;
#[cfg(test)]
mod sessions;
#[cfg(test)]
mod streams;
