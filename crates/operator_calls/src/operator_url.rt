//! The URL of an operator, with or without the identity of a point.

use std::alloc::{AllocError, Global};

/// Returns whether an operator's URL lacks the point's identity.
pub fn is_without_point(url: &str) -> bool {
    url.trim_end_matches('/').ends_with("/operator")
}

/// Returns the identity of the point that an operator's URL names, if it names one.
pub fn point_of_url(url: &str) -> Option<&str> {
    if is_without_point(url) {
        None
    } else {
        Some(last_segment(url))
    }
}

/// Returns the URL of the operator of a point.
pub fn url_of_point(alloc: Global, base: &str, point: &str) -> Result<String, AllocError> {
    let base = base.trim_end_matches('/');
    format!(in alloc; "{base}/{point}")
}

/// Returns the last segment of the URL that an operator gives `call`, which may be the identity of
/// a point.
pub(crate) fn last_segment(url: &str) -> &str {
    match url.rsplit_once('/') {
        Some((_base, segment)) => segment,
        None => url,
    }
}
