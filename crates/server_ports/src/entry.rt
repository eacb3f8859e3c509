//! Which clients are let in.

ghost use Rattle.std.specs.Prelude.{◌≡◌, ◌↔◌, List, ℕ, None, IfOk, option_copied};
ghost use Rattle.site_keys.specs.Admission.{IsAdmittedAs, IsAdmitted};
ghost use Rattle.server_ports.specs.PathRole.{identity_of, role_of};

use crate::own_host::is_for_this_machine;
use crate::path::{PathPeer, peer_of_path};
use http::{Request, StatusCode};
use site_keys::{Admission, Keys, Role};
use std::alloc::{AllocError, Global};

/// The header that web pages send with each WebSocket handshake (RFC 6455, section 10.2).
const ORIGIN: &str = "origin";

/// The header with a user and a password (RFC 7617).
pub const AUTHORIZATION: &str = "authorization";

/// The clients that a server lets in.
#[derive(Clone, Copy)]
pub enum Access<'a> {
    /// Every client.
    Open,
    /// No web page. With keys, only the clients that they admit. Without keys, the clients whose
    /// request is for this machine, which listens at this address.
    Guarded {
        keys: Option<&'a Keys>,
        address: &'a str,
    },
}

impl Access<'_> {
    /// Returns whether the server lets in only clients that have a key of the site.
    pub(crate) fn has_keys(self) -> bool {
        matches!(self, Access::Guarded { keys: Some(_), .. })
    }

    /// Returns the status that refuses a request (RFC 9110, sections 15.5.2, 15.5.4 and 15.5.20),
    /// or None if its client is let in.
    pub fn refusal(
        self,
        alloc: Global,
        request: &Request<()>,
    ) -> Result<Option<StatusCode>, AllocError> {
        let Access::Guarded { keys, address } = self else {
            return Ok(None);
        };
        let headers = request.headers();
        // Browsers let each web page open a WebSocket to any host, also to this machine.
        if headers.contains_key(ORIGIN) {
            return Ok(Some(StatusCode::FORBIDDEN));
        }
        let Some(keys) = keys else {
            // With keys the Host may be any, as behind a proxy: a web page that rebinds its own
            // name to this machine knows no key.
            return Ok(if is_for_this_machine(headers, address) {
                None
            } else {
                Some(StatusCode::MISDIRECTED_REQUEST)
            });
        };
        let peer = peer_of_path(request.uri().path());
        match headers.get(AUTHORIZATION) {
            Some(value) => refusal_by_keys(alloc, keys, peer, Some(value.as_bytes())),
            None => refusal_by_keys(alloc, keys, peer, None),
        }
    }
}

/// Returns the HTTP status by which the server refuses a connecting client, a point or an operator,
/// by the site's keys. None if they admit it.
fn refusal_by_keys(
    alloc: Global,
    keys: &Keys,
    peer: PathPeer<'_>,
    authorization: Option<&[u8]>,
) -> Result<Option<StatusCode>, AllocError>
    ensures { IfOk result (λ refusal. (refusal ≡ None) ↔ ((user : List ℕ)
        × IsAdmitted keys.now (role_of peer.entry) (identity_of peer.entry)
        (option_copied authorization.entry) user)) }
{
    let admission = admission_of(alloc, keys, peer, authorization)?;
    Ok(refusal_of(&admission))
}

/// Checks the credentials of a client that connects to the server against the site's keys: a point
/// needs its own key, an operator an operator's.
fn admission_of(
    alloc: Global,
    keys: &Keys,
    peer: PathPeer<'_>,
    authorization: Option<&[u8]>,
) -> Result<Admission, AllocError>
    ensures { IfOk result (λ admission. (user : List ℕ) → IsAdmittedAs admission user
        ↔ IsAdmitted keys.now (role_of peer.entry) (identity_of peer.entry)
        (option_copied authorization.entry) user) }
{
    match peer {
        PathPeer::Point(id) => keys.admit(alloc, Role::Point, id, authorization),
        PathPeer::Operator(id) => keys.admit(alloc, Role::Operator, id, authorization),
    }
}

/// Returns the HTTP status by which the server refuses a connecting client that the site's keys
/// don't admit.
fn refusal_of(admission: &Admission) -> Option<StatusCode>
    ensures { (result ≡ None) ↔ ((user : List ℕ) × IsAdmittedAs admission.now user) }
{
    match admission {
        Admission::Admitted(_) => None,
        Admission::Unauthorized => Some(StatusCode::UNAUTHORIZED),
        Admission::Forbidden => Some(StatusCode::FORBIDDEN),
    }
}
