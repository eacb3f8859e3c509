//! The runtime of a client command.

use std::alloc::AllocGlobal;
use std::net::TcpStream;
use std::random::RandomSource;
use std::rt::{Clock, Net};
use std::sync::Wait;

/// The runtime of a client command: connections, clock, random numbers, memory, and output.
pub trait ClientRuntime: Print
    + Eprint
    + AllocGlobal
    + Clock
    + Net<Stream = TcpStream>
    + RandomSource
    + Wait
    + Copy
    + Drop {}

impl<
    R: Print
        + Eprint
        + AllocGlobal
        + Clock
        + Net<Stream = TcpStream>
        + RandomSource
        + Wait
        + Copy
        + Drop,
> ClientRuntime for R {}
