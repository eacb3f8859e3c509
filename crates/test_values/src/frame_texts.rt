//! Cases that no replayed script shows: line breaks in a text, the longest text, a failed
//! allocation while a text is read, and the last of several fields of one name.
//! `tests/cases/replay` at the top of the repository has all other cases of reading and writing.
use crate::same::{holds, same_text};
use ocppj_frame::{
    Field, Frame, FrameFault, ReadingMemory, list_field, read_frame, read_tree, whole_field,
};
use std::process::Abort;

/// In the tests of OCPP-J frames: reads a text as a frame, and returns the outcome, `Other`,
/// `Dropped`, or something else.
fn outcome(memory: &mut ReadingMemory, text: &str) -> &'static str {
    match read_frame(memory, text) {
        Ok(Frame::Other) => "Other",
        Err(FrameFault::Dropped) => "Dropped",
        _ => "something else",
    }
}

/// Appends a piece a number of times to a test's text of a long OCPP-J frame.
fn push_times(rt: &impl Abort, out: &mut String, piece: &str, times: u32) {
    for _ in 0..times {
        out.push_str(piece).expect(rt, "error");
    }
}

/// Checks that an OCPP-J frame of 1,048,576 bytes is read and a longer one dropped, and where line
/// breaks may be.
#[test]
fn frames_have_at_most_1048576_bytes(rt: HostRuntime) {
    let mut memory = ReadingMemory::new(rt.alloc());
    let mut text = String::from_str(rt.alloc(), "\t\r\n[7,\n\"5\"]\n\r").expect(&rt, "error");
    let short = outcome(&mut memory, text.as_str());
    same_text(&rt, short, "Other", "blanks and line breaks");
    let broken = outcome(&mut memory, "[7,\"a\nb\"]");
    same_text(&rt, broken, "Dropped", "a line break within a string");
    push_times(&rt, &mut text, " ", 1_048_563);
    holds(&rt, text.len() == 1_048_576, "1,048,576 bytes");
    let most = outcome(&mut memory, text.as_str());
    same_text(&rt, most, "Other", "1,048,576 bytes");
    text.push_str(" ").expect(&rt, "error");
    let longer = outcome(&mut memory, text.as_str());
    same_text(&rt, longer, "Dropped", "a byte more");
    let is_read = read_tree(&mut memory, text.as_str()).is_ok();
    holds(&rt, is_read, "a byte more as a tree");
}

/// In a test, reads an OCPP-J CALL, and returns the length of its field `list` and its field
/// `last`; `None` if memory ran out.
fn parts(memory: &mut ReadingMemory, text: &str) -> Option<(usize, Field<i32>)> {
    match read_frame(memory, text) {
        Ok(Frame::Call { payload, .. }) => {
            let root = payload.root();
            let entries = match list_field(root, "list") {
                Field::Value(entries) => entries.len(),
                _ => 0,
            };
            Some((entries, whole_field(root, "last")))
        }
        Err(FrameFault::OutOfMemory) => None,
        _ => Some((0, Field::Absent)),
    }
}

/// Checks that after a failed allocation, whichever it is, the next attempt reads an OCPP-J CALL
/// into the same memory. `tests/program.py` lets twenty fail in a row; otherwise the first attempt
/// reads it.
#[test]
fn a_text_is_read_again_where_memory_was_refused(rt: HostRuntime) {
    let head = "[2,\"again\",\"DataTransfer\",{\"list\":[";
    let mut text = String::from_str(rt.alloc(), head).expect(&rt, "error");
    push_times(&rt, &mut text, r#"{"a":["\n",1.5],"b":{}},"#, 300);
    push_times(&rt, &mut text, r#"7],"last":160}]"#, 1);
    let mut memory = ReadingMemory::new(rt.alloc());
    let mut is_read = false;
    for _ in 0..21 {
        if let Some(found) = parts(&mut memory, text.as_str()) {
            holds(&rt, found == (301, Field::Value(160)), "the parts");
            is_read = true;
        }
    }
    holds(&rt, is_read, "read");
}

/// Texts, each with the name of a field, and its value.
const LAST_FIELDS: [(&str, &str, i32); 12] = [
    ("{\"a\":1,\"a\":2}", "a", 2),
    (r#"{"a":1,"b":7,"\u0061":2}"#, "a", 2),
    (r#"{"\u0061":2,"b":7,"a":1}"#, "a", 1),
    ("{\"a\":\"x\",\"a\":null,\"a\":3}", "a", 3),
    ("{\"a\":01,\"a\":4}", "a", 4),
    ("{\"A\":1,\"a\":5,\"á\":2}", "a", 5),
    ("{\"sa\":1,\"na\":2,\"a\":6}", "a", 6),
    ("{\"sa\":1,\"na\":2,\"a\":6}", "sa", 1),
    ("{\"a\":1,\"\":7}", "", 7),
    (r#"{"\u0000":8,"":1}"#, "\0", 8),
    (r#"{"\"\\\/":9}"#, "\"\\/", 9),
    ("{\"12\":10}", "12", 10),
];

/// Checks that of several fields of one name in a JSON object the last counts, also if its name has
/// escapes.
#[test]
fn the_last_field_of_a_name_counts(rt: HostRuntime) {
    let mut memory = ReadingMemory::new(rt.alloc());
    for (text, name, wanted) in &LAST_FIELDS {
        let payload = read_tree(&mut memory, text).ok().expect(&rt, text);
        let field = whole_field(payload.root(), name);
        holds(&rt, field == Field::Value(*wanted), text);
    }
}
