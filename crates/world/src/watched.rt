//! A stream that a session polls while it waits.

/// A stream that can be polled: a read takes the bytes that have arrived and hardly waits for more.
pub trait Watched {
    /// Makes each read from a session's stream wait for a moment at most, so that the session can
    /// poll it. Returns false if the stream can't.
    fn begin_look(&mut self) -> bool {
        false
    }

    /// Makes reads from a session's stream wait again as they did before it was polled. Returns
    /// false if the stream can't.
    fn end_look(&mut self) -> bool {
        true
    }

    /// Notes that the message being read from a session's stream is complete.
    fn end_message(&mut self) {}

    /// Notes a WebSocket control frame with a payload of this many bytes in a session's stream,
    /// perhaps within a message.
    fn end_control(&mut self, _bytes: usize) {}
}
