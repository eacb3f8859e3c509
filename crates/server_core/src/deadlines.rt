//! Timeouts for clients, in seconds.

/// The longest that a handshake may take as a whole.
pub const LONGEST_HANDSHAKE: u64 = 10;

/// The longest that a client which doesn't read may hold up a write, with its continuations.
pub const LONGEST_WRITE: u64 = 10;

/// The longest that a message may take as a whole, from its first byte.
pub const LONGEST_MESSAGE: u64 = 30;

/// The longest that a session waits for a byte before it checks what else is due.
pub const TICK: u64 = 1;

/// The silence of a client after which it is pinged.
pub const SILENCE_BEFORE_PING: u64 = 150;

/// The silence of a client after which its connection is closed.
// Two Heartbeats and a minute: the answer to a BootNotification asks for one every 300 seconds.
pub const LONGEST_SILENCE: u64 = 660;

/// The time that a charge point has for its first message before it is sent a call all the same. It
/// may have a BootNotification to send first.
pub const SILENCE_BEFORE_CALL: u64 = 10;

/// The longest that a connection of the status port may last.
pub const LONGEST_STATUS: u64 = 5;
