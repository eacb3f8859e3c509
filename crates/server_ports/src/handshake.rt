//! The handshake of a connection (RFC 6455, section 4.2): which client connects, and whether it
//! offers OCPP 1.6.

use crate::entry::Access;
use crate::request_words::{said_of, user_of};
use http::{HeaderMap, HeaderName, HeaderValue, Request, Response, StatusCode};
use std::alloc::{AllocError, Global};
use std::io::{Read, Write};
use tungstenite::handshake::server::ErrorResponse;
use tungstenite::{Callback, NoMask, WebSocket, accept_hdr};

const SUBPROTOCOLS: &str = "sec-websocket-protocol";

/// The subprotocol of OCPP-J 1.6 (chapter 3.1.2).
const OCPP_16: &str = "ocpp1.6";

/// A client's request for a session, from its handshake.
#[derive(Drop)]
pub struct ClientRequest {
    /// The path of its URL, without the query.
    pub path: String,
    /// Whether it offered OCPP 1.6 among its subprotocols.
    pub offers_ocpp: bool,
    /// The user that it gave, if it gave one.
    pub user: Option<String>,
    /// Whether it was let in by the key of this user.
    has_key: bool,
}

impl ClientRequest {
    /// Returns the name of the key that let the client in, if there are keys. It is a word of the
    /// journal: a name in a file of keys has no blank, line break or colon.
    pub fn key_name(&self) -> Option<&str> {
        match &self.user {
            Some(user) if self.has_key => Some(user.as_str()),
            _ => None,
        }
    }
}

/// The challenge to a client without a valid key (RFC 7617).
const CHALLENGE: &str = "Basic realm=\"central\", charset=\"UTF-8\"";

/// The callback of a handshake: it refuses the request, or accepts OCPP 1.6 if that is offered.
#[derive(Drop)]
struct RequestReader<'a> {
    alloc: Global,
    entry: Access<'a>,
    asked: &'a mut Option<ClientRequest>,
    /// The line for people about the request, if it is refused.
    refused: &'a mut Option<Result<String, AllocError>>,
}

/// Why a connection gets no session.
#[derive(Drop)]
pub enum HandshakeFailure {
    /// Its request was refused. This is the line for people about it.
    Refused(Result<String, AllocError>),
    /// The handshake wasn't complete in time, or was malformed, or memory ran out.
    Failed,
}

impl Callback for RequestReader<'_> {
    fn on_request(
        self,
        request: &Request<()>,
        response: Response<()>,
    ) -> Result<Response<()>, ErrorResponse> {
        let RequestReader {
            alloc,
            entry,
            asked,
            refused,
        } = self;
        let status = match entry.refusal(alloc, request) {
            Ok(None) => return Ok(accepted(alloc, entry, request, response, asked)),
            Ok(Some(status)) => status,
            Err(AllocError) => StatusCode::SERVICE_UNAVAILABLE,
        };
        *refused = Some(said_of(alloc, status, request));
        Err(refusal(alloc, status))
    }
}

/// Accepts a client's WebSocket handshake with the server: stores the client's request in `asked`,
/// and returns the response. If memory runs out, it stores nothing.
fn accepted(
    alloc: Global,
    entry: Access<'_>,
    request: &Request<()>,
    response: Response<()>,
    asked: &mut Option<ClientRequest>,
) -> Response<()> {
    let mut response = response;
    let offers_ocpp = offers_ocpp(request.headers());
    let (Ok(path), Ok(user)) = (
        String::from_str(alloc, request.uri().path()),
        user_of(alloc, request),
    ) else {
        return response;
    };
    // Without OCPP 1.6 the handshake is completed too, before the socket is closed: OCPP-J 1.6,
    // chapter 3.2, demands it.
    if offers_ocpp {
        let name = HeaderName::from_static(SUBPROTOCOLS);
        let value = HeaderValue::from_static(OCPP_16);
        let Ok(_) = response.headers_mut().insert(name, value) else {
            return response;
        };
    }
    *asked = Some(ClientRequest {
        path,
        offers_ocpp,
        user,
        has_key: entry.has_keys(),
    });
    response
}

/// Returns whether a client's handshake with the server offers OCPP 1.6 as a WebSocket subprotocol,
/// in any of the headers for them.
fn offers_ocpp(headers: &HeaderMap<HeaderValue>) -> bool {
    headers
        .get_all(SUBPROTOCOLS)
        .into_iter()
        .any(|value| match value.to_str() {
            Ok(offers) => offers.split(',').any(|offer| offer.trim() == OCPP_16),
            Err(_) => false,
        })
}

/// Returns the HTTP response with this status by which the server refuses a client's WebSocket
/// handshake. If memory runs out for a header, the response lacks it.
fn refusal(alloc: Global, status: StatusCode) -> ErrorResponse {
    let mut response = Response::new(alloc, None);
    *response.status_mut() = status;
    let headers = response.headers_mut();
    let _ = headers.insert(
        HeaderName::from_static("connection"),
        HeaderValue::from_static("close"),
    );
    let _ = headers.insert(
        HeaderName::from_static("content-length"),
        HeaderValue::from_static("0"),
    );
    if status == StatusCode::UNAUTHORIZED {
        let _ = headers.insert(
            HeaderName::from_static("www-authenticate"),
            HeaderValue::from_static(CHALLENGE),
        );
    }
    response
}

/// Does the handshake with a client, if it is let in.
pub fn shake_hands<S: Read + Write + Drop>(
    alloc: Global,
    entry: Access<'_>,
    stream: S,
) -> Result<(WebSocket<S, NoMask>, ClientRequest), HandshakeFailure> {
    // The callback is consumed, and returns only a response: its findings come out through these.
    let (mut asked, mut refused) = (None, None);
    let reading = RequestReader {
        alloc,
        entry,
        asked: &mut asked,
        refused: &mut refused,
    };
    let socket = accept_hdr(alloc, stream, reading).ok();
    if let Some(said) = refused {
        return Err(HandshakeFailure::Refused(said));
    }
    match (socket, asked) {
        (Some(socket), Some(asked)) => Ok((socket, asked)),
        _ => Err(HandshakeFailure::Failed),
    }
}
