//! Reads a line of a file of keys.

ghost use Rattle.std.specs.Prelude.{◌≡◌};
ghost use Rattle.std.specs.Result.{result_map_both};
ghost use Rattle.site_keys.specs.ByCases.KeyFile.{digest_in, key_in, line_in, name_in, role_named, salt_in, word_at, words_of, words_view};
ghost use Rattle.site_keys.specs.KeyFile.{is_left_out};

use crate::bytes::cut;
use crate::line_fault::KeyLineFault;
use crate::name::{is_name, text_in};
use crate::role::Role;
use hex::FromHex;
use std::marker::Model;

/// A line with a key.
#[derive(Drop)]
pub(crate) struct KeyLine<'a> {
    pub(crate) role: Role,
    pub(crate) user: &'a str,
    pub(crate) salt: [u8; 16],
    pub(crate) digest: [u8; 32],
}

impl<'a> Model for KeyLine<'a> {
    ghost use Rattle.site_keys.specs.Key.{KeyState};

    ghost Value = { KeyState };

    ghost view = { λ l. record {
      role = l.role;
      user = l.user.now;
      salt = l.salt;
      digest = l.digest;
    } };
}

/// The words of a line.
#[derive(Clone, Copy)]
struct Words<'a> {
    role: &'a [u8],
    user: &'a [u8],
    salt: &'a [u8],
    /// The rest of the line after the salt.
    digest: &'a [u8],
}

/// Reads a line of the key file, given without its line end. Returns `None` for an empty line or a
/// comment.
pub(crate) fn read_line(line: &[u8]) -> Result<Option<KeyLine<'_>>, KeyLineFault>
    ensures { result ≡ line_in line.entry.now }
{
    if is_left_out(line) {
        return Ok(None);
    }
    Ok(Some(read_key(line)?))
}

/// Returns whether a line of the key file is empty or a comment.
fn is_left_out(line: &[u8]) -> bool
    ensures { result ≡ is_left_out line.now }
{
    match line.first() {
        Some(first) => *first == b'#',
        None => true,
    }
}

/// Reads a line of the key file that has a key: role, user, salt and digest.
#[tactic(auto, unfolding(crate::specs::ByCases::KeyFile::key_in))]
fn read_key(line: &[u8]) -> Result<KeyLine<'_>, KeyLineFault>
    ensures { result ≡ key_in line.entry.now }
{
    let words = split_words(line)?;
    let role = role_named(words.role)?;
    let user = read_name(words.user)?;
    let salt = read_salt(words.salt)?;
    let digest = read_digest(words.digest)?;
    Ok(KeyLine {
        role,
        user,
        salt,
        digest,
    })
}

/// Splits a line of the key file into its words: role, user, salt and digest.
fn split_words(line: &[u8]) -> Result<Words<'_>, KeyLineFault>
    ensures { result_map_both words_view (λ fault. fault) result ≡ words_of line.entry.now }
{
    let (role, rest) = split_word(line)?;
    let (user, rest) = split_word(rest)?;
    let (salt, digest) = split_word(rest)?;
    Ok(Words {
        role,
        user,
        salt,
        digest,
    })
}

/// Splits the rest of a line of the key file into the word before the first space and the text
/// after it.
fn split_word(text: &[u8]) -> Result<(&[u8], &[u8]), KeyLineFault>
    ensures { result_map_both (λ parts. (parts.0.now, parts.1.now)) (λ fault. fault) result
        ≡ word_at text.entry.now }
{
    match cut(text, b' ') {
        Some(parts) => Ok(parts),
        None => Err(KeyLineFault::Words),
    }
}

/// Returns the role that the first word in a line of the key file names, `point` or `operator`.
fn role_named(word: &[u8]) -> Result<Role, KeyLineFault>
    ensures { result ≡ role_named word.now }
{
    if word == b"point".as_slice() {
        Ok(Role::Point)
    } else if word == b"operator".as_slice() {
        Ok(Role::Operator)
    } else {
        Err(KeyLineFault::Role)
    }
}

/// Reads the second word in a line of the key file as a user's name.
fn read_name(bytes: &[u8]) -> Result<&str, KeyLineFault>
    ensures { result_map_both (λ name. name.now) (λ fault. fault) result ≡ name_in bytes.entry.now }
{
    let Some(name) = text_in(bytes) else {
        return Err(KeyLineFault::Name);
    };
    if is_name(name) {
        Ok(name)
    } else {
        Err(KeyLineFault::Name)
    }
}

/// Decodes the salt in a line of the key file from its 32 hex digits.
fn read_salt(digits: &[u8]) -> Result<[u8; 16], KeyLineFault>
    ensures { result ≡ salt_in digits.now }
{
    match <[u8; 16] as FromHex>::from_hex(digits) {
        Ok(salt) => Ok(salt),
        Err(_) => Err(KeyLineFault::Salt),
    }
}

/// Decodes the password's digest in a line of the key file from its 64 hex digits.
fn read_digest(digits: &[u8]) -> Result<[u8; 32], KeyLineFault>
    ensures { result ≡ digest_in digits.now }
{
    match <[u8; 32] as FromHex>::from_hex(digits) {
        Ok(digest) => Ok(digest),
        Err(_) => Err(KeyLineFault::Digest),
    }
}
