//! The state that the server's threads share, without sessions, handshakes or HTTP: streams and
//! their deadlines, seats, long messages, observations of the points, lines for standard error.
#![tactic(auto)]

mod deadlines;
mod free_seats;
mod line_throttle;
mod long_messages;
mod notices;
mod pace;
mod present_streams;
mod shared_stream;
mod site_watch;
mod status_stream;
mod unfinished_handshakes;

pub use deadlines::{
    LONGEST_HANDSHAKE, LONGEST_MESSAGE, LONGEST_SILENCE, LONGEST_STATUS, LONGEST_WRITE,
    SILENCE_BEFORE_CALL, SILENCE_BEFORE_PING, TICK,
};
pub use free_seats::FreeSeats;
pub use line_throttle::LineThrottle;
pub use long_messages::{LongMessagePlace, LongMessages};
pub use notices::Notices;
pub use pace::{FastClients, Pace};
pub use present_streams::PresentStreams;
pub use shared_stream::{SharedStream, seconds_since, shut};
pub use site_watch::{PointReply, Rejected, Seen, SiteWatch};
pub use status_stream::StatusStream;
pub use unfinished_handshakes::UnfinishedHandshakes;
