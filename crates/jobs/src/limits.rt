//! The limits of options. `server_commands` compares them with those of the server.

/// The most connections at a time.
pub const MAX_SEATS: u64 = 1_000;

/// The most connections in all.
pub const MAX_SESSIONS: u64 = 64;

/// The most workers.
pub const MAX_WORKERS: u64 = 8;

/// The most connectors of a point.
pub const MAX_CONNECTORS: u64 = 64;

/// The highest number of a line to undo.
pub const MAX_LINE: u64 = 2_147_483_647;

/// The longest time for which a call waits for its reply, in seconds.
pub const MAX_CALL_TIMEOUT: u64 = 3_600;

/// The longest time for which `call` waits for replies of points, in seconds.
pub const MAX_WAIT: u64 = 86_400;
