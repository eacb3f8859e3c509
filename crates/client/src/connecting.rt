//! Connections to a central system (OCPP-J 1.6, chapter 3.1).

use base64::engine::general_purpose::STANDARD;
use client_lines::ClientFault;
use http::{HeaderName, HeaderValue, Request, StatusCode, Uri};
use std::alloc::{Alloc, Global};
use std::net::{Net, TcpStream};
use std::random::RandomSource;
use tungstenite::handshake::client::request_of;
use tungstenite::{Error, HandshakeError, RandomKeys, WebSocket, client};

/// A connection after its handshake.
pub type ClientSocket<R> = WebSocket<TcpStream, RandomKeys<R>>;

/// The port of a `ws` URL without one (RFC 6455, section 3).
const DEFAULT_PORT: u16 = 80;

/// The address to which a client connects, with the request of its handshake.
#[derive(Drop)]
pub struct Address {
    request: Request<()>,
    /// Whether the request has a name and a key.
    has_login: bool,
}

impl Address {
    /// Returns the address of a URL.
    pub fn of_url(alloc: Global, url: &str) -> Result<Address, ClientFault> {
        let request = request_to(alloc, url)?;
        Ok(Address {
            request,
            has_login: false,
        })
    }

    /// Returns the address of an operator's URL.
    pub fn of_operator(alloc: Global, url: &str) -> Result<Address, ClientFault> {
        let address = Address::of_url(alloc, url)?;
        if !is_operators(address.request.uri().path()) {
            return Err(ClientFault::NotOperator);
        }
        Ok(address)
    }

    /// Adds the name and the key that were read to the request, if any were.
    pub fn log_in(&mut self, alloc: Global, login: &Option<String>) -> Result<(), ClientFault> {
        let Some(login) = login else {
            return Ok(());
        };
        // The file's last line feed isn't part of the key.
        let credentials = credentials_of(alloc, login.as_str().trim_end())?;
        let name = HeaderName::from_static("authorization");
        add_header(&mut self.request, name, credentials)?;
        self.has_login = true;
        Ok(())
    }
}

/// Returns the credentials of a client (`call` or `point`) for the central system: a name, a colon
/// and a password (HTTP Basic, RFC 7617).
fn credentials_of(alloc: Global, login: &str) -> Result<HeaderValue, ClientFault> {
    let coded = STANDARD.encode(alloc, login.as_bytes())?;
    let text = format!(in alloc; "Basic {coded}")?;
    match HeaderValue::from_str(alloc, text.as_str()) {
        Ok(value) => Ok(value),
        Err(_) => Err(ClientFault::OutOfMemory),
    }
}

/// Adds a header to the request of a client's WebSocket handshake with the central system.
fn add_header(
    request: &mut Request<()>,
    name: HeaderName,
    value: HeaderValue,
) -> Result<(), ClientFault> {
    match request.headers_mut().insert(name, value) {
        Ok(_) => Ok(()),
        Err(_) => Err(ClientFault::OutOfMemory),
    }
}

/// Returns whether the path of a client's URL ends in `/operator/ID`, at which the central system
/// takes an operator's calls.
fn is_operators(path: &str) -> bool {
    match path.rsplit_once('/') {
        Some((before, id)) => !id.is_empty() && before.ends_with("/operator"),
        None => false,
    }
}

/// Connects to an address, and performs the handshake with the subprotocol of OCPP 1.6.
pub fn connect<R: Net<Stream = TcpStream> + RandomSource + Copy + Drop>(
    rt: &R,
    alloc: Global,
    address: Address,
) -> Result<ClientSocket<R>, ClientFault> {
    let has_login = address.has_login;
    let stream = stream_to(rt, address.request.uri())?;
    match client(alloc, *rt, address.request, stream) {
        Ok((socket, _)) => Ok(socket),
        Err(HandshakeError::Failure(Error::Http(response))) => Err(refusal_of(
            response.status(),
            has_login,
        )),
        Err(_) => Err(ClientFault::Handshake),
    }
}

/// Opens the TCP connection of a client (`call` or `point`) to the host and the port in the central
/// system's URL.
fn stream_to<R: Net<Stream = TcpStream>>(rt: &R, uri: &Uri) -> Result<TcpStream, ClientFault> {
    let Some(host) = uri.host() else {
        return Err(ClientFault::Url);
    };
    let port = uri.port_u16().unwrap_or(DEFAULT_PORT);
    let Ok(stream) = TcpStream::connect(rt, (host, port)) else {
        return Err(ClientFault::Connection);
    };
    // Messages leave at once. If this option can't be set, they only leave later.
    let _ = stream.set_nodelay(true);
    Ok(stream)
}

/// Returns why the central system refused a client (`call` or `point`) with or without a login, by
/// the HTTP status of its response.
fn refusal_of(status: StatusCode, has_login: bool) -> ClientFault {
    match status.as_u16() {
        401 if has_login => ClientFault::WrongLogin,
        401 => ClientFault::Unauthorized,
        403 => ClientFault::Forbidden,
        _ => ClientFault::Handshake,
    }
}

/// Builds the request of a client's WebSocket handshake with the central system at a URL, still
/// without a subprotocol.
fn plain_request(alloc: Global, url: &str) -> Result<Request<()>, ClientFault> {
    match request_of(alloc, url) {
        Ok(request) => Ok(request),
        Err(Error::OutOfMemory) => Err(ClientFault::OutOfMemory),
        Err(_) => Err(ClientFault::Url),
    }
}

/// Builds the request of a client's WebSocket handshake with the central system at a URL, which
/// offers OCPP 1.6.
fn request_to(alloc: Global, url: &str) -> Result<Request<()>, ClientFault> {
    let mut request = plain_request(alloc, url)?;
    // This program has no TLS, so it refuses `wss`.
    if request.uri().scheme_str() != Some("ws") {
        return Err(ClientFault::Url);
    }
    let name = HeaderName::from_static("sec-websocket-protocol");
    let value = HeaderValue::from_static("ocpp1.6");
    add_header(&mut request, name, value)?;
    Ok(request)
}
