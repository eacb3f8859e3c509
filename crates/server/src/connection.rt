//! A connection, from its handshake on.

ghost use Rattle.session.specs.Serving.{KeepsPass};

use server_ports::{Access, ClientRequest, PathPeer, peer_of_path, shake_hands};
use session::{Context, SessionCore, serve_session};
use std::alloc::AllocError;
use std::io::{Read, Write};
use tungstenite::{CloseCode, CloseFrame, NoMask, Utf8Bytes, WebSocket};
use version_store::Pass;
use world::World;

/// Serves a WebSocket connection of `serve` from its handshake until it ends. Returns the session's
/// pass, whose counts of changes and answers never decrease.
pub(crate) fn run_connection<W: World, S: Read + Write + Drop>(
    context: &Context<'_, W>,
    stream: S,
    pass: Pass<W::Changes, W::Answers>,
) -> Pass<W::Changes, W::Answers>
    ensures { KeepsPass pass result }
{
    let Ok((socket, asked)) = shake_hands(context.alloc, Access::Open, stream) else {
        return pass;
    };
    match admit(context, &asked) {
        Ok(Some(admitted)) => {
            let (_, pass) = serve_session(context, socket, admitted.core, pass);
            pass
        }
        Ok(None) => {
            close_at_once(socket);
            pass
        }
        Err(AllocError) => pass,
    }
}

/// A session that is admitted.
#[derive(Drop)]
pub(crate) struct Admitted {
    pub(crate) core: SessionCore,
    /// The place of its point in the site.
    pub(crate) place: usize,
}

/// Returns the session of the server that a WebSocket client asks for, if it offers OCPP 1.6 and
/// names a point of the site.
pub(crate) fn admit<W: World>(
    context: &Context<'_, W>,
    asked: &ClientRequest,
) -> Result<Option<Admitted>, AllocError> {
    let peer = peer_of_path(asked.path.as_str());
    let (PathPeer::Operator(id) | PathPeer::Point(id)) = peer;
    let book = context.shared.lock(context.rt);
    let site = book.present().site();
    // An unknown point is refused after the handshake as well, and not with HTTP 404: a missing
    // subprotocol has to be, and one way is enough.
    let (true, Some(place)) = (asked.offers_ocpp, site.place_of(id)) else {
        return Ok(None);
    };
    let core = match peer {
        PathPeer::Operator(id) => SessionCore::operator(
            context.alloc,
            id,
            asked.key_name(),
            site.unit(),
        )?,
        PathPeer::Point(id) => SessionCore::point(context.alloc, id)?,
    };
    Ok(Some(Admitted { core, place }))
}

/// Closes the WebSocket of a client that the server doesn't serve (RFC 6455, section 7.4.1, policy
/// violation). It doesn't wait for the client's close frame.
pub(crate) fn close_at_once<S: Read + Write + Drop>(mut socket: WebSocket<S, NoMask>) {
    let frame = CloseFrame {
        code: CloseCode::Policy,
        reason: Utf8Bytes::from_static(""),
    };
    let _ = socket.close(Some(frame));
}
