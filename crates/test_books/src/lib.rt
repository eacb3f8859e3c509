//! Tests of the crates of a point's book, from `profile` to `sweep_compiler`, by their public
//! names only, of what neither a clause nor a case of the program shows. They are in a crate of
//! their own, since a crate that has tests is proved twice. It also exports to other test crates
//! the values that are made from words.
#![tactic(auto)]

pub use row_words::{
    LONGEST_TAG, MIDNIGHT, UnreadWords, Words, begin_of, criteria_of, instant_at, profile_of,
    row_of, site_text,
};

#[cfg(test)]
mod books_at_random;
#[cfg(test)]
mod callers;
#[cfg(test)]
mod largest_books;
#[cfg(test)]
mod same;
#[cfg(test)]
mod scripted_books;
