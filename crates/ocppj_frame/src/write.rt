//! Writes frames: each as one text, or in parts appended to a text.
ghost use Rattle.std.specs.Prelude.{◌≡◌, ◌++◌, IfOk, codes, string_bytes};
ghost use Rattle.json.specs.Print.{quoted};
ghost use Rattle.ocpp_scalars.specs.Appending.{Appends};
ghost use Rattle.ocppj_frame.specs.Write.{call_error_text, call_head, call_result_text, call_text, frame_end, result_head};

use json::Writer;
use std::alloc::{AllocError, Global};
use std::mem;

/// Returns the text of a CALL, `[2,"id","action",payload]`. The payload is given as its text
/// (OCPP-J 1.6, section 4.2.1).
pub fn write_call(
    alloc: Global,
    id: &str,
    action: &str,
    payload: &str,
) -> Result<String, AllocError>
    ensures { IfOk result (λ s. string_bytes s ≡ call_text id.now action.now payload.now) }
{
    let mut out = String::new(alloc);
    push_call_head(&mut out, id, action)?;
    out.push_str(payload)?;
    push_frame_end(&mut out)?;
    Ok(out)
}

/// Returns the text of a CALLRESULT, `[3,"id",payload]`. The payload is given as its text
/// (OCPP-J 1.6, section 4.2.2).
pub fn write_result(alloc: Global, id: &str, payload: &str) -> Result<String, AllocError>
    ensures { IfOk result (λ s. string_bytes s ≡ call_result_text id.now payload.now) }
{
    let mut out = String::new(alloc);
    push_result_head(&mut out, id)?;
    out.push_str(payload)?;
    push_frame_end(&mut out)?;
    Ok(out)
}

/// Returns the text of a CALLERROR without details, `[4,"id","code","description",{}]`
/// (OCPP-J 1.6, section 4.2.3).
pub fn write_error(
    alloc: Global,
    id: &str,
    code: &str,
    description: &str,
) -> Result<String, AllocError>
    ensures { IfOk result
        (λ s. string_bytes s ≡ call_error_text id.now code.now description.now) }
{
    let mut out = String::new(alloc);
    push_error(&mut out, id, code, description)?;
    Ok(out)
}

/// Appends the part of a CALL before its payload, `[2,"id","action",`.
pub fn push_call_head(out: &mut String, id: &str, action: &str) -> Result<(), AllocError>
    ensures { Appends result (string_bytes out.old) (string_bytes out.new)
        (call_head id.now action.now) }
{
    push_elements(out, "[2,", id, action)
}

/// Appends the part of a CALLRESULT before its payload, `[3,"id",`.
pub fn push_result_head(out: &mut String, id: &str) -> Result<(), AllocError>
    ensures { Appends result (string_bytes out.old) (string_bytes out.new) (result_head id.now) }
{
    out.push_str("[3,")?;
    push_element(out, id)
}

/// Appends the part of a frame after its payload, `]`.
pub fn push_frame_end(out: &mut String) -> Result<(), AllocError>
    ensures { Appends result (string_bytes out.old) (string_bytes out.new) frame_end }
{
    out.push_str("]")
}

/// Appends a CALLERROR without details, `[4,"id","code","description",{}]`.
pub fn push_error(
    out: &mut String,
    id: &str,
    code: &str,
    description: &str,
) -> Result<(), AllocError>
    ensures { Appends result (string_bytes out.old) (string_bytes out.new)
        (call_error_text id.now code.now description.now) }
{
    push_elements(out, "[4,", id, code)?;
    push_string(out, description)?;
    out.push_str(",{}]")
}

/// Appends the beginning of an OCPP-J message: `head`, and two text elements which another element
/// follows.
fn push_elements(out: &mut String, head: &str, first: &str, second: &str) -> Result<(), AllocError>
    ensures { Appends result (string_bytes out.old) (string_bytes out.new)
        (head.now ++ quoted first.now ++ codes "," ++ quoted second.now ++ codes ",") }
{
    out.push_str(head)?;
    push_element(out, first)?;
    push_element(out, second)
}

/// Appends a text element of an OCPP-J message, which another element follows: a JSON string and a
/// comma.
fn push_element(out: &mut String, text: &str) -> Result<(), AllocError>
    ensures { Appends result (string_bytes out.old) (string_bytes out.new)
        (quoted text.now ++ codes ",") }
{
    push_string(out, text)?;
    out.push_str(",")
}

/// Appends a text as a JSON string (RFC 8259, section 7).
pub fn push_string(out: &mut String, text: &str) -> Result<(), AllocError>
    ensures { Appends result (string_bytes out.old) (string_bytes out.new) (quoted text.now) }
{
    // The library's writer owns its bytes. It gets those of the text, so nothing is copied.
    let alloc = *out.allocator();
    let bytes = mem::replace(out, String::new(alloc)).into_bytes();
    let mut writer = Writer::new(bytes);
    let written = writer.string(text);
    // A text followed by a JSON string is UTF-8.
    *out = unsafe { String::from_utf8_unchecked(writer.into_inner()) };
    written
}
