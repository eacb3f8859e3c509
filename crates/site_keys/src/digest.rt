//! Digests of passwords, and their comparison.

ghost use Rattle.std.specs.Prelude.{◌≡◌, ◌++◌, ◌↔◌, IsTrue};
ghost use Rattle.sha2.specs.Sha256.{sha256};
ghost use Rattle.site_keys.specs.Key.{key_bytes};

use hex::FromHex;
use sha2::{Digest, Sha256};

/// Computes the digest of a client's password under the salt of a key, to compare it with the one
/// in the key file.
pub(crate) fn digest_of(salt: &[u8; 16], password: &[u8]) -> [u8; 32]
    ensures { result ≡ sha256 (salt.now ++ key_bytes password.now) }
{
    // A station may send its AuthorizationKey of 20 bytes itself, or as 40 hex digits (OCPP-J 1.6,
    // 6.2).
    match <[u8; 20] as FromHex>::from_hex(password) {
        Ok(key) => salted_digest(salt, key.as_slice()),
        Err(_) => salted_digest(salt, password),
    }
}

/// Computes the SHA-256 of a salt and a key, as a line of the key file has it.
pub(crate) fn salted_digest(salt: &[u8; 16], key: &[u8]) -> [u8; 32]
    ensures { result ≡ sha256 (salt.now ++ key.now) }
{
    // One salted SHA-256 is enough for the 20 random bytes of a key, and the kit has no slow hash.
    let mut hasher = Sha256::new();
    hasher.update(salt.as_slice());
    hasher.update(key);
    hasher.finalize()
}

/// Returns whether the digest of a client's password is the same as that of a key. Compares each
/// byte, whatever the others are.
pub(crate) fn is_same(one: &[u8; 32], other: &[u8; 32]) -> bool
    ensures { IsTrue result ↔ (one.now ≡ other.now) }
{
    // Without an exit at the first difference, the time reveals less of how many bytes agree.
    let mut differing = 0u8;
    for place in 0..32 {
        differing |= one[place] ^ other[place];
    }
    differing == 0
}
