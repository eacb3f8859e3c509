//! The first line of a journal.

ghost use Rattle.std.specs.Prelude.{ℕ, ◌≡◌, ◌≢◌, ◌++◌, List, string_bytes, IfNone, IfOk, IfSome, OnErr};
ghost use Rattle.hex.specs.Hex.{encode_lower};
ghost use Rattle.ocpp_scalars.specs.Appending.{Appends};
ghost use Rattle.journal.specs.Header.{IsDigest, beginning, header_text, header_words};
ghost use Rattle.journal.specs.declared.header.Format.{Format};

use hex::FromHex;
use std::alloc::{AllocError, Global};
use thiserror::Error;

/// The reason why a text isn't the first line of a journal.
#[derive(Clone, Copy, Debug, PartialEq, Eq, Error)]
pub enum HeaderFault {
    /// It doesn't begin as a journal does.
    #[error("not a journal")]
    NotAJournal,
    /// Its format is unknown here.
    #[error("a journal of another format")]
    OtherFormat,
    /// It doesn't name the SHA-256 of a site file.
    #[error("no digest of a site file")]
    NoDigest,
}

/// The format of a journal.
#[derive(Clone, Copy, PartialEq, Eq)]
pub enum Format {
    /// Without the boots of points.
    First,
    /// The present one.
    Second,
}

/// The contents of the first line of a journal.
#[derive(Clone, Copy, PartialEq, Eq)]
pub struct Header {
    pub format: Format,
    /// The SHA-256 of the bytes of the site file.
    pub digest: [u8; 32],
}

impl Format {
    /// Returns the beginning of the first line of a journal in this format.
    fn beginning(self) -> &'static str
        ensures { result.now ≡ beginning self }
    {
        match self {
            Format::First => "central journal 1 sha256:",
            Format::Second => "central journal 2 sha256:",
        }
    }
}

/// Appends the first line of a journal in the present format, with its line feed. The digest is the
/// SHA-256 of the bytes of the site file.
#[tactic(auto, unfolding(crate::specs::Header::header_words))]
pub fn push_header(alloc: Global, text: &mut String, digest: &[u8; 32]) -> Result<(), AllocError>
    ensures { Appends result (string_bytes text.old) (string_bytes text.new)
        (header_text digest.now) }
{
    let digits = hex::encode(alloc, digest.as_slice())?;
    text.push_str(Format::Second.beginning())?;
    text.push_str(digits.as_str())?;
    text.push('\n')?;
    Ok(())
}

/// Reads the first line of a journal, without its line feed.
pub fn read_header(line: &str) -> Result<Header, HeaderFault>
    ensures read { IfOk result (λ header. header_words header.format header.digest ≡ line.now) }
    ensures none { OnErr result ((format : Format) (digest : List ℕ) → IsDigest digest
        → header_words format digest ≢ line.now) }
{
    let (format, digest) = match digest_in(line, Format::Second) {
        Some(digest) => (Format::Second, digest),
        None => match digest_in(line, Format::First) {
            Some(digest) => (Format::First, digest),
            None => return Err(fault_of(line)),
        },
    };
    Ok(Header { format, digest })
}

/// Reads the digest of the site file from the first line of a journal of this format.
#[tactic(auto, unfolding(crate::specs::Header::header_words))]
fn digest_in(line: &str, format: Format) -> Option<[u8; 32]>
    ensures some { IfSome result (λ digest. header_words format digest ≡ line.now) }
    ensures none { IfNone result
        ((digest : List ℕ) → IsDigest digest → header_words format digest ≢ line.now) }
{
    let Some(digits) = strip(line, format.beginning()) else {
        return None;
    };
    read_digest(digits)
}

/// Returns why a file's first line isn't that of a journal in a known format with a digest.
fn fault_of(line: &str) -> HeaderFault {
    let Some(rest) = line.strip_prefix("central journal ") else {
        return HeaderFault::NotAJournal;
    };
    match rest.split_once(' ') {
        Some(("1" | "2", _)) => HeaderFault::NoDigest,
        Some(_) => HeaderFault::OtherFormat,
        None => HeaderFault::NotAJournal,
    }
}

/// Returns the rest of a journal's first line after this beginning, if the line begins so.
fn strip<'a>(text: &'a str, beginning: &str) -> Option<&'a str>
    ensures some { IfSome result (λ rest. beginning.now ++ rest.now ≡ text.entry.now) }
    ensures none { IfNone result ((rest : List ℕ) → beginning.now ++ rest ≢ text.entry.now) }
{
    text.strip_prefix(beginning)
}

/// Reads the SHA-256 of the site file in a journal's first line, from its hex digits in lower case.
fn read_digest(text: &str) -> Option<[u8; 32]>
    ensures some { IfSome result (λ digest. encode_lower digest ≡ text.now) }
    ensures none { IfNone result
        ((digest : List ℕ) → IsDigest digest → encode_lower digest ≢ text.now) }
{
    let Ok(digest) = <[u8; 32] as FromHex>::from_hex(text) else {
        return None;
    };
    // `from_hex` accepts digits in upper case too.
    let mut digits = [0u8; 64];
    let Ok(()) = hex::encode_to_slice(digest, &mut digits) else {
        return None;
    };
    if digits.as_slice() == text.as_bytes() {
        Some(digest)
    } else {
        None
    }
}
