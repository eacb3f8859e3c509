//! The responses of a running site's status port.

use command_io::ProgramFault;
use http::Uri;
use http::uri::UriError;
use httparse::Status;
use httparse::spans::{EMPTY_HEADER_SPAN, parse_response};
use std::alloc::{AllocError, AllocGlobal, Global};
use std::io;
use std::io::{Read, Write};
use std::net::{Net, TcpStream};
use std::time::Duration;

/// The port of an `http` URL without one (RFC 9110, section 4.2.1).
const DEFAULT_PORT: u16 = 80;

/// Timeout for the rest of the response, in seconds.
const LONGEST_WAIT: u64 = 10;

/// The largest size of a response, in bytes.
const LONGEST_ANSWER: u64 = 64 * 1_048_576;

/// The largest number of header fields in a response.
const MAX_FIELDS: usize = 64;

/// A response of the status port.
#[derive(Drop)]
pub struct StatusReply {
    /// Its status (RFC 9110, section 15).
    pub status: u16,
    pub body: String,
}

/// Sends a GET of this path to the status port of a URL, and returns the response.
pub fn ask_status<R: AllocGlobal + Eprint + Net<Stream = TcpStream>>(
    rt: &R,
    url: &str,
    path: &str,
) -> Result<StatusReply, ProgramFault> {
    let alloc = rt.alloc();
    let uri = uri_of(alloc, url)?;
    let (Some("http"), Some(host)) = (uri.scheme_str(), uri.host()) else {
        return Err(ProgramFault::StatusUrl);
    };
    let port = uri.port_u16().unwrap_or(DEFAULT_PORT);
    // With HTTP/1.0, a response ends with its connection: no length or chunks have to be read.
    let request = format!(in alloc; "GET {path} HTTP/1.0\r\nHost: {host}:{port}\r\n\r\n")?;
    let answer = match exchange(rt, (host, port), request.as_str()) {
        Ok(answer) => answer,
        Err(error) => {
            let _ = eprintln!(rt; "central: {url}: {error}");
            return Err(ProgramFault::NoStatus);
        }
    };
    reply_in(alloc, answer.as_slice())
}

/// Reads the URL of a running site's status port, for the command `status`.
fn uri_of(alloc: Global, url: &str) -> Result<Uri, ProgramFault> {
    match Uri::from_bytes(alloc, url.as_bytes()) {
        Ok(uri) => Ok(uri),
        Err(UriError::OutOfMemory) => Err(ProgramFault::OutOfMemory),
        Err(_) => Err(ProgramFault::StatusUrl),
    }
}

/// Sends the HTTP request of the command `status` to a running site's status port, and reads the
/// response until the connection ends.
fn exchange<R: AllocGlobal + Net<Stream = TcpStream>>(
    rt: &R,
    address: (&str, u16),
    request: &str,
) -> io::Result<Vec<u8>> {
    let mut stream = TcpStream::connect(rt, address)?;
    let longest = Some(Duration::from_secs(LONGEST_WAIT));
    stream.set_read_timeout(longest)?;
    stream.set_write_timeout(longest)?;
    stream.write_all(request.as_bytes())?;
    let mut answer = Vec::new(rt.alloc());
    stream.take(LONGEST_ANSWER).read_to_end(&mut answer)?;
    Ok(answer)
}

/// Returns the status port's HTTP response in these bytes, for the command `status`: its code, and
/// the text after its head.
fn reply_in(alloc: Global, bytes: &[u8]) -> Result<StatusReply, ProgramFault> {
    let mut fields = [EMPTY_HEADER_SPAN; MAX_FIELDS];
    let Ok(Status::Complete(head)) = parse_response(bytes, &mut fields) else {
        return Err(ProgramFault::NoStatus);
    };
    let Some(body) = bytes.get(head.len..) else {
        return Err(ProgramFault::NoStatus);
    };
    match String::from_utf8_lossy(alloc, body) {
        Ok(body) => Ok(StatusReply {
            status: head.code,
            body,
        }),
        Err(AllocError) => Err(ProgramFault::OutOfMemory),
    }
}
