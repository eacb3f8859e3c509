//! The reasons why a log acknowledges nothing.

use std::io;

#[derive(Clone, Copy)]
pub enum LogFault {
    /// The device is full. Another try may follow, and goes on where this one stopped.
    Full(io::Error),
    /// It is unknown which bytes follow the acknowledged ones in the file.
    Failed(io::Error),
    /// An earlier call failed, so nothing was tried.
    FailedBefore,
}
