//! Checks whether a request is for this machine.

use http::{HeaderMap, HeaderValue};
use std::net::IpAddr;

/// The header with the host that a request is for (RFC 9110, section 7.2).
const HOST: &str = "host";

/// The name that each machine has for itself (RFC 6761, section 6.3).
const LOCALHOST: &str = "localhost";

/// Returns whether a request with these headers is for this machine, which listens at this address.
/// A request without a `Host` field passes: it is no browser's.
pub fn is_for_this_machine(headers: &HeaderMap<HeaderValue>, address: &str) -> bool {
    headers
        .get_all(HOST)
        .into_iter()
        .all(|value| match value.to_str() {
            Ok(host) => is_own_host(host, address),
            Err(_) => false,
        })
}

/// Returns whether a `Host` field with this value is for this machine, which listens at this
/// address: the value is an IP address, `localhost`, or the name in that address. A web page whose
/// own name resolves to this machine sends that name (DNS rebinding), so it is refused.
pub fn is_own_host(host: &str, address: &str) -> bool {
    let name = name_of(host);
    // A web page can rebind its own name to this machine, but no address.
    name.parse::<IpAddr>().is_ok()
        || name.eq_ignore_ascii_case(LOCALHOST)
        || name.eq_ignore_ascii_case(name_of(address))
}

/// Returns the name or the IP address of the host in an HTTP request to the server, or in the
/// address at which it listens. Leaves out the port and the brackets of an IPv6 address (RFC 3986,
/// section 3.2.2).
fn name_of(host: &str) -> &str {
    if let Some(bracketed) = host.strip_prefix('[') {
        return match bracketed.split_once(']') {
            Some((address, port)) if port.is_empty() || port.starts_with(':') => address,
            _ => host,
        };
    }
    match host.rsplit_once(':') {
        Some((name, _)) => name,
        None => host,
    }
}
