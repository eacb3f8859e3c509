//! The reasons why a write fails.

use std::io;

#[derive(Clone, Copy)]
pub enum WriteFault {
    /// The device is full. The write took no bytes.
    Full(io::Error),
    /// It is unknown which bytes the write took.
    Failed(io::Error),
}
