//! Tests of `journal` by its public names alone: books that are restored from a journal written by
//! hand.
#![tactic(auto)]

#[cfg(test)]
mod journal_texts;
#[cfg(test)]
mod restored_books;
#[cfg(test)]
mod same;
