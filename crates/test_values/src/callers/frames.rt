//! A caller of `ocppj_frame`.

use ocppj_frame::{Field, Frame, ReadingMemory, read_frame, tenths_field, write_result};
use std::test::Fail;

/// Checks that an OCPP-J CALL and a field of its payload are read, and that the answer to it is
/// written.
#[test]
fn a_call_is_read_and_answered(rt: HostRuntime) -> Result<(), Fail> {
    let mut memory = ReadingMemory::new(rt.alloc());
    let text = r#"[2,"a","SetLimit",{"limit":8.10}]"#;
    let Ok(Frame::Call { id, payload, .. }) = read_frame(&mut memory, text) else {
        return Err(Fail::new("no CALL"));
    };
    assert!(rt; tenths_field(payload.root(), "limit") == Field::Value(81));
    let answer = write_result(rt.alloc(), id.as_str(), r#"{"status":"Accepted"}"#)?;
    assert_eq!(rt; answer.as_str(), r#"[3,"a",{"status":"Accepted"}]"#);
    Ok(())
}
