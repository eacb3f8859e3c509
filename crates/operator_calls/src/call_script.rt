//! Calls as the lines of a script.

ghost use Rattle.std.specs.Prelude.{◌≤◌, IfOk, IfSome, vec_len};
ghost use Rattle.replay.specs.Limits.{max_script_bytes};

use crate::given_call::GivenCall;
use crate::visit::Visit;
use ocpp_scalars::{Instant, push_instant};
use replay::{LONGEST_FRAME, MAX_SCRIPT_BYTES};
use std::alloc::{AllocError, Global};

/// Returns the calls of visits, each as a line at this moment. Returns none if they are longer than
/// a script may be.
pub fn script_of_calls(
    alloc: Global,
    moment: Instant,
    calls: &[GivenCall],
    visits: &[Visit],
) -> Result<Option<Vec<u8>>, AllocError>
    ensures short { IfOk result (λ made. IfSome made (λ script.
        vec_len script ≤ max_script_bytes)) }
{
    let mut script = Vec::new(alloc);
    for visit in visits {
        push_visit(&mut script, moment, calls, visit)?;
        // Long calls to 1,000 points would take far more memory than the longest script.
        if script.len() > MAX_SCRIPT_BYTES {
            break;
        }
    }
    if script.len() > MAX_SCRIPT_BYTES {
        return Ok(None);
    }
    Ok(Some(script))
}

/// Appends an operator's calls to a point to a script, each as a line at this moment. So `call`
/// checks them before it sends them.
fn push_visit(
    script: &mut Vec<u8>,
    moment: Instant,
    calls: &[GivenCall],
    visit: &Visit,
) -> Result<(), AllocError> {
    for place in &visit.calls {
        if let Some(call) = calls.get(*place) {
            push_call(script, moment, visit.id.as_str(), call.frame.as_str())?;
        }
    }
    Ok(())
}

/// Appends an operator's call to a point to the script in which `call` checks it. A call that is
/// too long becomes an empty line, and isn't checked.
// Each call has to be one line, since the lines are played in step with the calls.
fn push_call(
    script: &mut Vec<u8>,
    moment: Instant,
    point: &str,
    frame: &str,
) -> Result<(), AllocError> {
    let alloc = *script.allocator();
    let mut line = String::new(alloc);
    if frame.len() <= LONGEST_FRAME {
        push_instant(&mut line, moment)?;
        line.push_str(" operator ")?;
        line.push_str(point)?;
        line.push_str(" ")?;
        line.push_str(on_one_line(alloc, frame)?.as_str())?;
    }
    line.push_str("\n")?;
    script.extend_from_slice(line.as_str().as_bytes())
}

/// Writes a JSON text on one line.
// JSON allows no line break in a string, so each one is white space between two tokens.
pub fn on_one_line(alloc: Global, text: &str) -> Result<String, AllocError> {
    let mut line = String::new(alloc);
    for character in text.chars() {
        line.push(if matches!(character, '\n' | '\r') {
            ' '
        } else {
            character
        })?;
    }
    Ok(line)
}
