//! The peer that the path of a connection names (OCPP-J 1.6, chapter 3.1.1).

/// The peer that connects, by the path of its URL: an operator for a charge point, or the point
/// itself. The site may have no point of that identity.
#[derive(Clone, Copy, PartialEq, Eq)]
pub enum PathPeer<'a> {
    Operator(&'a str),
    Point(&'a str),
}

/// Returns the peer that a path without a query names. `/operator/ID` is an operator for the point
/// of that identity. Any other path is the point whose identity is its last segment.
pub fn peer_of_path(path: &str) -> PathPeer<'_> {
    match path.strip_prefix("/operator/") {
        Some(id) if !id.contains('/') => PathPeer::Operator(id),
        _ => PathPeer::Point(last_segment(path)),
    }
}

/// Returns the last segment of the path at which a client connects to the server: the identity of
/// the charge point.
// A charge point appends its identity to the URL that it is given, whatever path that has.
fn last_segment(path: &str) -> &str {
    match path.rsplit_once('/') {
        Some((_, last)) => last,
        None => path,
    }
}
