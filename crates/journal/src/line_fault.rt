//! The reasons why a text isn't a line of a journal.

use thiserror::Error;

/// The reason why a text isn't a line of a journal. The variants are in the order of the checks.
#[derive(Clone, Copy, Debug, PartialEq, Eq, Error)]
pub enum LineFault {
    /// It isn't UTF-8.
    #[error("not UTF-8")]
    NotUtf8,
    /// It has none of the forms of a line.
    #[error("not a line of a journal")]
    Form,
    /// Its first word isn't an instant.
    #[error("its first word is no instant")]
    Moment,
    /// A number of its form isn't one from 0 to 1,000,000,000,000 in decimal.
    #[error("a number is missing or too high")]
    Number,
}
