//! Lines for people about requests for a session.

use crate::entry::AUTHORIZATION;
use http::{Request, StatusCode};
use site_keys::user_in;
use std::alloc::{AllocError, Global};

/// The maximum number of characters of a path or a user in a line.
const LONGEST_NAME: usize = 100;

/// The number of digits of a key.
const KEY_DIGITS: usize = 40;

/// Returns the line about a request that is refused with this status: its path and its user, but
/// not its password.
pub fn said_of(
    alloc: Global,
    status: StatusCode,
    request: &Request<()>,
) -> Result<String, AllocError> {
    let status = status.as_u16();
    let mut said = format!(in alloc; "refused, HTTP {status}: ")?;
    push_path(&mut said, request.uri().path())?;
    push_user(&mut said, &user_of(alloc, request)?)?;
    Ok(said)
}

/// Returns the line about an operator's session: the path and the user of its request.
pub fn said_of_operator(
    alloc: Global,
    path: &str,
    user: &Option<String>,
) -> Result<String, AllocError> {
    let mut said = String::from_str(alloc, "connected: ")?;
    push_path(&mut said, path)?;
    push_user(&mut said, user)?;
    Ok(said)
}

/// Returns the user of a request, if it gives one.
pub fn user_of(alloc: Global, request: &Request<()>) -> Result<Option<String>, AllocError> {
    match request.headers().get(AUTHORIZATION) {
        Some(value) => user_in(alloc, value.as_bytes()),
        None => Ok(None),
    }
}

/// Appends a path, or only its end if it is long: the end names the point.
pub fn push_path(said: &mut String, path: &str) -> Result<(), AllocError> {
    let left_out = path.chars().count().saturating_sub(LONGEST_NAME);
    for character in path.chars().skip(left_out) {
        said.push(character)?;
    }
    Ok(())
}

/// Appends the user in a connecting client's request to the request's line in the server's log.
/// Only the beginning of a long user is written, and nothing of a user that looks like a key.
// A client may send its key in place of its user, and keys must not get into the log.
fn push_user(said: &mut String, user: &Option<String>) -> Result<(), AllocError> {
    let Some(user) = user else {
        return said.push_str(", no user");
    };
    if is_like_a_key(user.as_str()) {
        return said.push_str(", a user that looks like a key");
    }
    said.push_str(", user ")?;
    for character in user.as_str().chars().take(LONGEST_NAME) {
        said.push(character)?;
    }
    Ok(())
}

/// Returns whether the user that a connecting client gives has the length of a key and only
/// hexadecimal digits. Then the server doesn't log it.
fn is_like_a_key(text: &str) -> bool {
    text.len() == KEY_DIGITS && text.bytes().all(|byte| byte.is_ascii_hexdigit())
}
