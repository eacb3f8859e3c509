//! Test data in words: rows and profiles, starts of transactions, site files. This crate has no
//! tests of its own, and so is proved once. Other test crates get it from `test_books`.
#![tactic(auto)]

mod fixtures;
mod words;

pub use fixtures::{
    LONGEST_TAG, UnreadWords, begin_of, criteria_of, instant_at, profile_of, row_of, site_text,
};
pub use words::{MIDNIGHT, Words};
