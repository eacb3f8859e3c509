//! Marked texts. `serde_json` defines the meaning of a text, but reads a number into 64 bits and so
//! loses digits. A marked text therefore has strings in place of numbers, and each string has a
//! mark that says whether it was a string or a number.
ghost use Rattle.std.specs.Prelude.{◌≡◌, ◌<◌, ◌≤◌, ◌+◌, ◌*◌, ◌∷◌, ◌++◌, IfOk, OnOk, length, option_map, vec_capacity, vec_len};
ghost use Rattle.ocppj_frame.specs.Mark.{after_mark, begins_number, continues_number};
ghost use Rattle.ocppj_frame.specs.ByCases.Mark.{in_number, inside, marked_from, marked_text, outside};

use std::alloc::AllocError;
use std::mem;

/// Writes the text to `room` with each string and each number marked, as a JSON text without
/// numbers. Replaces the contents of `room`.
pub fn mark_text<'a>(text: &str, room: &'a mut Vec<u8>) -> Result<&'a str, AllocError>
    ensures { IfOk result (λ marked. marked.now ≡ marked_text text.now) }
{
    mark_bytes(text.as_bytes(), room)?;
    // Proved to be UTF-8, so a second check of all bytes isn't needed.
    Ok(unsafe { std::str::from_utf8_unchecked(room.as_slice()) })
}

/// Writes a JSON text, such as an OCPP-J frame or a site file, to `room` with a mark in front of
/// each string and each number. So numbers are read without rounding.
fn mark_bytes(text: &[u8], room: &mut Vec<u8>) -> Result<(), AllocError>
    ensures { OnOk result (room.new.items ≡ marked_text text.now) }
{
    room.clear();
    // A byte becomes at most four. With all memory reserved here, no push has to check for room.
    room.reserve(text.len().checked_mul(4).ok_or(AllocError)?)?;
    // A local variable while it is written: its length then stays in a register, and isn't stored
    // after each byte.
    let mut out = mem::replace(room, Vec::new(*room.allocator()));
    let mut left = text;
    while let Some((byte, others)) = left.split_first() {
        left = push_outside(&mut out, *byte, others);
    }
    *room = out;
    Ok(())
}

/// Copies one byte outside the strings and numbers of a JSON text (an OCPP-J frame or a file) while
/// marking it. If a string or number begins there, copies all of that. Returns the remaining bytes.
fn push_outside<'a>(out: &mut Vec<u8>, byte: u8, others: &'a [u8]) -> &'a [u8]
    requires { vec_len out.old + 4 * (length others.now + 1) ≤ vec_capacity out.old }
    ensures marked { out.new.items ++ marked_from outside result.now
        ≡ out.old.items ++ marked_from outside (byte ∷ others.now) }
    ensures room { vec_len out.new + 4 * length result.now
        ≤ vec_len out.old + 4 * (length others.now + 1) }
    ensures capacity { vec_capacity out.new ≡ vec_capacity out.old }
    ensures shorter { length result.now ≤ length others.now }
{
    if byte == b'"' {
        out.push_reserved(b'"');
        out.push_reserved(b's');
        push_string(out, others)
    } else if begins_number(byte) {
        out.push_reserved(b'"');
        out.push_reserved(b'n');
        out.push_reserved(byte);
        push_number(out, others)
    } else {
        out.push_reserved(byte);
        others
    }
}

/// Appends a string of a JSON text that is being marked, such as an OCPP-J frame, from after its
/// opening quote to its closing quote. Returns the bytes that are left.
fn push_string<'a>(out: &mut Vec<u8>, text: &'a [u8]) -> &'a [u8]
    requires { vec_len out.old + length text.now ≤ vec_capacity out.old }
    ensures marked { out.new.items ++ marked_from outside result.now
        ≡ out.old.items ++ marked_from inside text.now }
    ensures room { vec_len out.new + length result.now ≡ vec_len out.old + length text.now }
    ensures capacity { vec_capacity out.new ≡ vec_capacity out.old }
    ensures shorter { length result.now ≤ length text.now }
{
    let mut left = text;
    while let Some((byte, others)) = left.split_first() {
        out.push_reserved(*byte);
        left = others;
        if *byte == b'"' {
            return left;
        }
        if *byte == b'\\'
            && let Some((escaped, others)) = left.split_first()
        {
            out.push_reserved(*escaped);
            left = others;
        }
    }
    left
}

/// Appends a number of a JSON text that is being marked, such as an OCPP-J frame, from its second
/// byte on. Closes the quote of its marked string, and returns the bytes that are left.
fn push_number<'a>(out: &mut Vec<u8>, text: &'a [u8]) -> &'a [u8]
    requires { vec_len out.old + length text.now + 1 ≤ vec_capacity out.old }
    ensures marked { out.new.items ++ marked_from outside result.now
        ≡ out.old.items ++ marked_from in_number text.now }
    ensures room { vec_len out.new + length result.now ≡ vec_len out.old + length text.now + 1 }
    ensures capacity { vec_capacity out.new ≡ vec_capacity out.old }
    ensures shorter { length result.now ≤ length text.now }
{
    let mut left = text;
    while let Some((byte, others)) = left.split_first() {
        if !continues_number(*byte) {
            break;
        }
        out.push_reserved(*byte);
        left = others;
    }
    out.push_reserved(b'"');
    left
}

/// Returns whether a byte outside the strings of a JSON text, such as an OCPP-J frame, begins a
/// number. Numbers get a mark, so that they are read without rounding.
fn begins_number(byte: u8) -> bool
    ensures { result ≡ begins_number byte }
{
    matches!(byte, b'0'..=b'9' | b'-')
}

/// Returns whether a byte can continue a number of a JSON text, such as an OCPP-J frame. Numbers
/// get a mark, so that they are read without rounding.
fn continues_number(byte: u8) -> bool
    ensures { result ≡ continues_number byte }
{
    matches!(byte, b'0'..=b'9' | b'-' | b'+' | b'.' | b'e' | b'E')
}

/// Returns the rest of a string of a marked text after this mark, `s` for a text or `n` for a
/// number. `None` if the string has another mark or none.
pub fn after_mark(text: &str, mark: u8) -> Option<&str>
    requires { mark < 128 }
    ensures { option_map (λ t. t.now) result ≡ after_mark mark text.now }
{
    let (first, others) = text.as_bytes().split_first()?;
    if *first == mark {
        // The rest of a UTF-8 text after an ASCII byte is UTF-8.
        Some(unsafe { std::str::from_utf8_unchecked(others) })
    } else {
        None
    }
}
