//! The central system on sockets: operators and charge points connect over WebSocket (OCPP-J 1.6,
//! chapter 3). Each is served on a thread of its own, and workers on other threads compile.
//! `serve` ends after a number of connections. `run_seats` runs forever, with at most one
//! connection a seat.
#![tactic(auto)]

mod attending;
mod connection;
mod connections;
mod seat;
mod seats;
mod serving;
mod session_watch;

pub use seat::keep_seat;
pub use seats::{MAX_SEATS, SeatedBook, run_seats};
pub use server_ports::{
    PathPeer, SeatContext, SeatOptions, Seats, ServeFault, StatusPort, WatchedSite, begin_status,
    is_own_host, peer_of_path,
};
pub use serving::{MAX_SESSIONS, MAX_WORKERS, serve};
