//! A key, and the check of a password by it.

ghost use Rattle.std.specs.Prelude.{◌≡◌};
ghost use Rattle.site_keys.specs.ByCases.Key.{has_right_key, is_of, is_same_role, opens};

use crate::digest::{digest_of, is_same};
use crate::role::Role;
use std::marker::Model;

/// A key: the digest of its user's password under a salt.
#[derive(Drop)]
pub(crate) struct Key {
    pub(crate) role: Role,
    pub(crate) user: String,
    pub(crate) salt: [u8; 16],
    pub(crate) digest: [u8; 32],
}

impl Model for Key {
    ghost use Rattle.std.specs.String.{string_bytes};
    ghost use Rattle.site_keys.specs.Key.{KeyState};

    ghost Value = { KeyState };

    ghost view = { λ k. record {
      role = k.role;
      user = string_bytes k.user;
      salt = k.salt;
      digest = k.digest;
    } };
}

impl Key {
    /// Returns whether a key of the site is for this user in this role, point or operator.
    fn is_of(&self, role: Role, user: &str) -> bool
        ensures { result ≡ is_of role user.now self.now }
    {
        is_same_role(self.role, role) && self.user.as_str() == user
    }

    /// Returns whether a client's password is that of this key of the site, by its salted digest.
    fn opens(&self, password: &[u8]) -> bool
        ensures { result ≡ opens password.now self.now }
    {
        is_same(&digest_of(&self.salt, password), &self.digest)
    }
}

/// Returns whether two roles of a key's user in the key file are the same, point or operator.
fn is_same_role(one: Role, other: Role) -> bool
    ensures { result ≡ is_same_role one other }
{
    match (one, other) {
        (Role::Point, Role::Point) | (Role::Operator, Role::Operator) => true,
        _ => false,
    }
}

/// Returns whether this is a password of this user in this role, by the keys of a site. Tries each
/// key of the user. For an unknown user it computes and compares a digest all the same, so that the
/// time reveals less of which users exist. It may still reveal something.
pub(crate) fn has_right_key(keys: &[Key], role: Role, user: &str, password: &[u8]) -> bool
    ensures { result ≡ has_right_key role user.now password.now keys.now }
{
    let mut is_known = false;
    let mut is_right = false;
    // Goes on after a right key: an exit there would reveal by its time which key was right.
    for key in keys {
        if key.is_of(role, user) {
            is_known = true;
            is_right |= key.opens(password);
        }
    }
    if !is_known {
        // `is_right` is false here, and stays so whatever the comparison returns.
        is_right &= is_same(&digest_of(&[0; 16], password), &[0; 32]);
    }
    is_right
}
