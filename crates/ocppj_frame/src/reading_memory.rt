//! The memory that reading needs.
use bumpalo::Bump;
use json::Scratch;
use std::alloc::Global;

/// The memory that reading texts needs, reused by one read after another. Until it is dropped, its
/// buffers keep the size that the longest text needed, five to eight bytes for each byte of it, and
/// the arena keeps its largest chunk. The struct itself has 16 KiB, for the offsets of tokens.
#[derive(Drop)]
pub struct ReadingMemory {
    /// The allocator for the copy of a message's id.
    pub(crate) alloc: Global,
    /// The marked text.
    pub(crate) marked: Vec<u8>,
    /// The buffers of the JSON reader: strings with escapes, and the offsets of tokens.
    pub(crate) scratch: Scratch,
    /// The arrays and objects of the tree.
    pub(crate) arena: Bump,
}

impl ReadingMemory {
    /// Creates memory into which nothing has been read. Allocates nothing.
    pub fn new(alloc: Global) -> ReadingMemory {
        ReadingMemory {
            alloc,
            marked: Vec::new(alloc),
            scratch: Scratch::new(alloc),
            arena: Bump::new(alloc),
        }
    }
}
