//! The ports of a site: accepts connections, does their handshakes (OCPP-J 1.6, chapter 3), and
//! answers the status port. This crate has no sessions.
#![tactic(auto)]

mod accepting;
mod arrivals;
mod entry;
mod handshake;
mod incoming_stream;
mod own_host;
mod path;
mod request_words;
mod seat_context;
mod seat_world;
mod seats;
mod serve_fault;
mod status_port;
mod status_service;
mod watched_site;
mod workers;

pub use accepting::accept_connections;
pub use arrivals::{note_handshake_failure, note_operator, note_unknown};
pub use entry::Access;
pub use handshake::{ClientRequest, HandshakeFailure, shake_hands};
pub use incoming_stream::IncomingStream;
pub use own_host::is_own_host;
pub use path::{PathPeer, peer_of_path};
pub use seat_context::SeatContext;
pub use seat_world::SeatWorld;
pub use seats::{SeatOptions, Seats};
pub use serve_fault::ServeFault;
pub use status_port::{StatusPort, begin_status};
pub use watched_site::WatchedSite;
pub use workers::{JobSenders, begin_workers};
