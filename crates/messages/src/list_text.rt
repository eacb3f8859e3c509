//! The texts of JSON lists.
ghost use Rattle.std.specs.Prelude.{ℕ, List, map, string_bytes};
ghost use Rattle.ocpp_scalars.specs.Appending.{Appends};
ghost use Rattle.messages.specs.ObjectText.{joined, list_text};

use std::alloc::AllocError;

/// A value that can be an item of a list.
pub(crate) trait ListItem {
    /// The text of a value.
    ghost text: { Self → List ℕ };

    /// Appends the JSON text of the value, for a list in a call to a charge point or in an answer:
    /// the periods of a schedule.
    fn push_text(&self, out: &mut String) -> Result<(), AllocError>
        ensures { Appends result (string_bytes out.old) (string_bytes out.new) (text self.now) };
}

/// Appends a JSON list of values, the periods of a schedule, to a call to a charge point or to an
/// answer.
pub(crate) fn push_list<T: ListItem>(out: &mut String, items: &[T]) -> Result<(), AllocError>
    ensures { Appends result (string_bytes out.old) (string_bytes out.new)
        (list_text (map T.text items.now)) }
{
    out.push_str("[")?;
    push_joined(out, items)?;
    out.push_str("]")?;
    Ok(())
}

/// Appends the items of a JSON list, the periods of a schedule in a call to a charge point or in an
/// answer, with commas between them.
fn push_joined<T: ListItem>(out: &mut String, items: &[T]) -> Result<(), AllocError>
    ensures { Appends result (string_bytes out.old) (string_bytes out.new)
        (joined (map T.text items.now)) }
{
    let Some((first, later)) = items.split_first() else {
        return Ok(());
    };
    first.push_text(out)?;
    for item in later {
        out.push_str(",")?;
        item.push_text(out)?;
    }
    Ok(())
}
