//! Reads a JSON text as a tree.
ghost use Rattle.std.specs.Prelude.{ok_or};
ghost use Rattle.ocpp_scalars.specs.Reading.{ReadsUnless};
ghost use Rattle.ocppj_frame.specs.Fault.{is_memory};
ghost use Rattle.ocppj_frame.specs.Payload.{tree_in};
ghost use Rattle.ocppj_frame.specs.Read.{tree_of, tree_of_text};
ghost use Rattle.ocppj_frame.specs.View.{view};

use super::Payload;
use crate::fault::FrameFault;
use crate::mark::mark_text;
use crate::marked_value::{MarkedValue, read_marked};
use crate::read_fault::ReadFault;
use crate::reading_memory::ReadingMemory;
use crate::tree::is_tree;

/// Reads a JSON text of any length as a tree, which replaces the contents of `memory`. A refused
/// text is `Dropped`, a failed allocation is `OutOfMemory`; there is never a `Formation`. `memory`
/// stays borrowed until the tree is dropped, and can take the next text whatever the result.
pub fn read_tree<'a>(memory: &'a mut ReadingMemory, text: &str) -> Result<Payload<'a>, FrameFault>
    ensures { ReadsUnless is_memory tree_in result
        (ok_or (tree_of_text text.now) FrameFault.Dropped) }
{
    // Fails only if an earlier tree was forgotten rather than dropped. Its blocks then stay
    // allocated.
    let _ = memory.arena.reset();
    let marked = mark_text(text, &mut memory.marked)?;
    match read_marked(&memory.arena, marked, &mut memory.scratch) {
        Ok(value) => tree_of_value(value),
        Err(ReadFault::NotJson) => Err(FrameFault::Dropped),
        Err(ReadFault::OutOfMemory) => Err(FrameFault::OutOfMemory),
    }
}

/// Returns the tree that is the value of a marked JSON text, such as an OCPP-J message. It is
/// `Dropped` if its marks or numbers are malformed.
fn tree_of_value(value: MarkedValue<'_>) -> Result<Payload<'_>, FrameFault>
    ensures { ReadsUnless is_memory tree_in result
        (ok_or (tree_of (view value.entry)) FrameFault.Dropped) }
{
    // Numbers are checked only now, and not in the earlier values of a duplicate key: `serde_json`
    // keeps only the last.
    if is_tree(&value) {
        Ok(Payload { value })
    } else {
        Err(FrameFault::Dropped)
    }
}
