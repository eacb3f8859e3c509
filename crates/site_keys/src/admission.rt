//! Admission of clients by their credentials.

ghost use Rattle.std.specs.Prelude.{◌≡◌, Some, IfOk};
ghost use Rattle.site_keys.specs.ByCases.Admission.{decided_of, decided_of_user, decision, is_own};
ghost use Rattle.site_keys.specs.ByCases.Credentials.{credentials_of};
ghost use Rattle.site_keys.specs.Admission.{Decides};

use crate::credentials::{credentials_of, sent_bytes};
use crate::key::{Key, has_right_key};
use crate::role::Role;
use std::alloc::{AllocError, Global};

/// The result of checking the credentials of an HTTP request.
#[derive(Drop)]
pub enum Admission {
    /// This user is admitted.
    Admitted(String),
    /// 401: there are no credentials of the scheme Basic, or they aren't right.
    Unauthorized,
    /// 403: the credentials are right, but the user isn't the identity of the path.
    Forbidden,
}

/// Decides by the keys of a site whether the server admits the client with this Authorization
/// header to the URL of a charge point.
pub(crate) fn decide(
    alloc: Global,
    keys: &[Key],
    role: Role,
    identity: &str,
    header: &[u8],
) -> Result<Admission, AllocError>
    ensures { IfOk result (λ admission.
        Decides admission keys.now role identity.now (Some header.now)) }
{
    match sent_bytes(alloc, header)? {
        Some(bytes) => decide_decoded(alloc, keys, role, identity, bytes.as_slice()),
        None => Ok(Admission::Unauthorized),
    }
}

/// Decides by the keys of a site whether the server admits a client, from the user and the password
/// in the decoded bytes of its Authorization header.
fn decide_decoded(
    alloc: Global,
    keys: &[Key],
    role: Role,
    identity: &str,
    bytes: &[u8],
) -> Result<Admission, AllocError>
    ensures { IfOk result (λ admission. decision admission
        ≡ decided_of keys.now role identity.now (credentials_of bytes.now)) }
{
    let Some(sent) = credentials_of(bytes) else {
        return Ok(Admission::Unauthorized);
    };
    if has_right_key(keys, role, sent.user, sent.password) {
        decide_identity(alloc, role, identity, sent.user)
    } else {
        Ok(Admission::Unauthorized)
    }
}

/// Decides whether a user with a right key is admitted to the URL of the charge point of this
/// identity: a point only to its own.
fn decide_identity(
    alloc: Global,
    role: Role,
    identity: &str,
    user: &str,
) -> Result<Admission, AllocError>
    ensures { IfOk result (λ admission. decision admission
        ≡ decided_of_user role identity.now user.now) }
{
    if is_own(role, identity, user) {
        Ok(Admission::Admitted(String::from_str(alloc, user)?))
    } else {
        Ok(Admission::Forbidden)
    }
}

/// Returns whether a user of a key, in this role, may connect to the URL of this charge point: a
/// point only to its own, an operator to each.
fn is_own(role: Role, identity: &str, user: &str) -> bool
    ensures { result ≡ is_own role identity.now user.now }
{
    // A point's user is its identity (OCPP-J 1.6, 6.2), so one point's key can't open another's
    // URL. An operator, whom OCPP lacks, serves each point of the site.
    match role {
        Role::Point => user == identity,
        Role::Operator => true,
    }
}
