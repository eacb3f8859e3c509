//! Reading of a whole input of bounded length.

ghost use Rattle.std.specs.Prelude.{◌≡◌, ℕ, ◌+◌, ◌<◌, ◌≤◌, ◌^◌, length, vec_len, IfOk, IfSome, IsErrOf, OnOk};
ghost use Rattle.std.specs.Io.KnownBytes.{Consumes, IsAtEnd};
ghost use Rattle.replay.specs.Input.{GaveAtMost, GaveMoreThan};
ghost use Rattle.replay.specs.ByCases.Input.{ReadOnto};

use std::alloc::{AllocError, Global};
use std::io::Read;

/// The most bytes of one read.
const PIECE: usize = 16_384;

/// The reason why a whole input wasn't read.
#[derive(Clone, Copy, PartialEq, Eq)]
pub enum InputFault {
    /// A read failed or was interrupted.
    Read,
    /// The input has more bytes than the limit.
    TooLong,
    /// Memory ran out.
    OutOfMemory,
}

impl From<AllocError> for InputFault {
    ghost use Rattle.replay.specs.declared.script.input.InputFault.{InputFault};

    ghost from_gives = { λ _ fault. fault ≡ InputFault.OutOfMemory };

    fn from(_error: AllocError) -> InputFault {
        InputFault::OutOfMemory
    }
}

/// Allocates room for the bytes of one read of an input file: a script that is replayed, or a site,
/// key or zone file.
fn new_piece(alloc: Global) -> Result<Vec<u8>, AllocError>
    ensures { IfOk result (λ piece. vec_len piece ≡ PIECE) }
{
    vec![in alloc; 0u8; PIECE]
}

/// Reads once from an input file, a script that is replayed or a site, key or zone file, and
/// appends the bytes that came. Returns their number.
fn read_onto<R: Read>(
    reader: &mut R,
    piece: &mut [u8],
    bytes: &mut Vec<u8>,
) -> Result<usize, InputFault>
    requires { 0 < length piece.old }
    ensures taken { ReadOnto (R.remaining reader.old)
        (R.remaining reader.new) bytes.old.items bytes.new.items (length piece.old) result }
    ensures never_long { ¬ IsErrOf result InputFault.TooLong }
{
    // A plain read, since a library call that retries would hide an interrupted one.
    let Ok(count) = reader.read(piece) else {
        return Err(InputFault::Read);
    };
    let came = piece.split_at(count).0;
    bytes.extend_from_slice(came)?;
    Ok(count)
}

/// Reads all bytes of a reader, at most `limit`. Requests one byte more, to see whether there is
/// one.
pub fn read_all<R: Read>(alloc: Global, reader: &mut R, limit: usize) -> Result<Vec<u8>, InputFault>
    requires { limit < 2 ^ 32 }
    ensures whole { IfOk result
        (λ bytes. IfSome (R.remaining reader.old) (λ given. bytes.items ≡ given)) }
    ensures end { OnOk result (IsAtEnd (R.remaining reader.new)) }
    ensures consumed { IfOk result
        (λ bytes. Consumes (R.remaining reader.old) (R.remaining reader.new) bytes.items) }
    ensures short { IfOk result (λ bytes. vec_len bytes ≤ limit) }
    ensures most { GaveAtMost (R.remaining reader.old) (R.remaining reader.new) (limit + 1) }
    ensures long { IsErrOf result InputFault.TooLong
        → GaveMoreThan (R.remaining reader.old) (R.remaining reader.new) limit }
{
    // Not by `take` and `read_to_end`: they don't state which bytes the inner reader lost.
    let mut bytes = Vec::new(alloc);
    let mut piece = new_piece(alloc)?;
    while bytes.len() <= limit {
        let room = (limit + 1 - bytes.len()).min(PIECE);
        match read_onto(reader, &mut piece[..room], &mut bytes) {
            Ok(0) => return Ok(bytes),
            Ok(_) => {}
            Err(fault) => return Err(fault),
        }
    }
    Err(InputFault::TooLong)
}
