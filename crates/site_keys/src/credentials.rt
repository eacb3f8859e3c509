//! HTTP Basic (RFC 7617): the user and the password of an Authorization header.

ghost use Rattle.std.specs.Prelude.{ℕ, ◌≡◌, ◌↔◌, List, Some, IfOk};
ghost use Rattle.std.specs.Option.{option_copied, option_map};
ghost use Rattle.std.specs.String.{string_bytes};
ghost use Rattle.site_keys.specs.ByCases.Credentials.{credentials_of, credentials_view, token_in};
ghost use Rattle.site_keys.specs.Credentials.{HasSent, HasUser, IsBase64};

use crate::bytes::{cut, without_spaces};
use crate::name::text_in;
use base64::DecodeAllocError;
use base64::engine::general_purpose::STANDARD;
use std::alloc::{AllocError, Global};

/// A user and a password.
#[derive(Clone, Copy)]
pub(crate) struct Credentials<'a> {
    pub(crate) user: &'a str,
    pub(crate) password: &'a [u8],
}

/// Decodes the base64 of an Authorization header with the scheme Basic (RFC 7617), or returns
/// `None` if it has none.
pub(crate) fn sent_bytes(alloc: Global, header: &[u8]) -> Result<Option<Vec<u8>>, AllocError>
    ensures { IfOk result (λ sent. (bytes : List ℕ)
        → (option_map (λ v. v.items) sent ≡ Some bytes) ↔ HasSent header.now bytes) }
{
    match token_in(header) {
        Some(token) => base64_bytes(alloc, token),
        None => Ok(None),
    }
}

/// Returns the token after the scheme Basic of an Authorization header (RFC 7617), if that is its
/// scheme.
fn token_in(header: &[u8]) -> Option<&[u8]>
    ensures { option_copied result ≡ token_in header.entry.now }
{
    match cut(header, b' ') {
        Some((scheme, rest)) => {
            // RFC 9110, 11: the case of a scheme doesn't matter, and several spaces may follow it.
            if scheme.eq_ignore_ascii_case(b"basic") {
                Some(without_spaces(rest))
            } else {
                None
            }
        }
        None => None,
    }
}

/// Decodes the token of a Basic Authorization header. `None` if it isn't base64.
fn base64_bytes(alloc: Global, text: &[u8]) -> Result<Option<Vec<u8>>, AllocError>
    ensures { IfOk result (λ decoded. (bytes : List ℕ)
        → (option_map (λ v. v.items) decoded ≡ Some bytes) ↔ IsBase64 text.now bytes) }
{
    // The engine is strict: it decodes only texts that it would encode, padding included.
    match STANDARD.decode(alloc, text) {
        Ok(bytes) => Ok(Some(bytes)),
        Err(DecodeAllocError::DecodeError(_)) => Ok(None),
        Err(DecodeAllocError::OutOfMemory) => Err(AllocError),
    }
}

/// Splits the decoded bytes of a Basic Authorization header into the user before the first colon
/// and the password after it.
pub(crate) fn credentials_of(bytes: &[u8]) -> Option<Credentials<'_>>
    ensures { option_map credentials_view result ≡ credentials_of bytes.entry.now }
{
    // A password may have colons, a user may not (RFC 7617, 2).
    let (user, password) = cut(bytes, b':')?;
    let user = text_in(user)?;
    Some(Credentials { user, password })
}

/// Returns the user in an `Authorization` header with the scheme Basic, whatever the password.
pub fn user_in(alloc: Global, header: &[u8]) -> Result<Option<String>, AllocError>
    ensures { IfOk result (λ found. (user : List ℕ)
        → (option_map string_bytes found ≡ Some user) ↔ HasUser header.now user) }
{
    match sent_bytes(alloc, header)? {
        Some(bytes) => user_of(alloc, bytes.as_slice()),
        None => Ok(None),
    }
}

/// Copies the user before the first colon in the decoded bytes of a Basic Authorization header.
fn user_of(alloc: Global, bytes: &[u8]) -> Result<Option<String>, AllocError>
    ensures { IfOk result (λ found. option_map string_bytes found
        ≡ option_map (λ sent. sent.user) (credentials_of bytes.now)) }
{
    match credentials_of(bytes) {
        Some(sent) => Ok(Some(String::from_str(alloc, sent.user)?)),
        None => Ok(None),
    }
}
