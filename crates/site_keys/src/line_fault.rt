//! The faults of a line of a file of keys.

use thiserror::Error;

/// The reason why a line of a file of keys has no key. The variants are checked in this order.
#[derive(Clone, Copy, Debug, PartialEq, Eq, Error)]
pub enum KeyLineFault {
    /// It has fewer than four words, with one space between them.
    #[error("not ROLE NAME SALT DIGEST")]
    Words,
    /// Its first word is neither `point` nor `operator`.
    #[error("its first word is neither point nor operator")]
    Role,
    /// Its user's name is empty, isn't UTF-8, or has a blank, a colon or a control character.
    #[error("its user's name is empty, not UTF-8, or has a blank, a colon or a control character")]
    Name,
    /// Its salt isn't 32 hex digits.
    #[error("its salt isn't 32 hex digits")]
    Salt,
    /// Its digest isn't 64 hex digits.
    #[error("its digest isn't 64 hex digits")]
    Digest,
}
