//! Splits and trims of bytes.

ghost use Rattle.std.specs.Prelude.{◌≡◌, ◌≤◌, length};
ghost use Rattle.std.specs.Option.{option_map};
ghost use Rattle.std.specs.List.{position, prefix_len};
ghost use Rattle.site_keys.specs.Bytes.{cut, is_byte, space, without_spaces, without_return};

/// Splits a key file or an Authorization header at the first such byte, and returns the parts
/// before and after it.
pub(crate) fn cut(text: &[u8], byte: u8) -> Option<(&[u8], &[u8])>
    ensures { option_map (λ parts. (parts.0.now, parts.1.now)) result ≡ cut byte text.entry.now }
{
    match place_of(text, byte) {
        Some(end) => {
            let (before, behind) = text.split_at(end);
            Some((before, behind.split_at(1).1))
        }
        None => None,
    }
}

/// Returns the index of the first such byte in a key file or an Authorization header.
fn place_of(text: &[u8], byte: u8) -> Option<usize>
    ensures { result ≡ position (is_byte byte) text.now }
{
    text.iter().position(|b| *b == byte)
}

/// Returns the text after the scheme of an Authorization header without its leading spaces.
pub(crate) fn without_spaces(text: &[u8]) -> &[u8]
    ensures { result.now ≡ without_spaces text.entry.now }
{
    text.split_at(space_count(text)).1
}

/// Counts the leading spaces of the text after the scheme of an Authorization header.
fn space_count(text: &[u8]) -> usize
    ensures count { result ≡ prefix_len (is_byte space) text.now }
    ensures within { result ≤ length text.now }
{
    text.iter().take_while(|b| **b == b' ').count()
}

/// Returns a line of a key file without the carriage return at its end, if it has one.
pub(crate) fn without_return(line: &[u8]) -> &[u8]
    ensures { result.now ≡ without_return line.entry.now }
{
    match line.split_last() {
        Some((b'\r', rest)) => rest,
        _ => line,
    }
}
