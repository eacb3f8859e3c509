//! Admission by a file of keys. Its digests and the headers were made with Python's `hashlib` and
//! `base64`.

use crate::same::same_text;
use site_keys::{Admission, Keys, Role};
use std::alloc::Global;
use std::process::Abort;

/// CP1 has the keys 00 01 .. 13 and 64 65 .. 77, CP2 has ff 3a 00 c8 .. d8. CP3 and `Säule-7` have
/// the first key of CP1. The password of ann is `open sesame`, that of `empty` is empty. The last
/// line has no line feed.
const FILE: &str = "# keys of the test site\r

point CP1 000102030405060708090a0b0c0d0e0f 836411b133eb13d2167b4176d6aa95a8ffe940956f272e23f3f1e9c4bc1d0ee1\r
point CP1 101112131415161718191a1b1c1d1e1f 3d5d0958dea937ded7bd7b4aff03064e759137693afff2ba6a3285fb6dc2a753
point CP2 202122232425262728292a2b2c2d2e2f 012b69a48c5fe53f284b74475e56c55b4122d67bb1db0aea4ea1ae77245e91a8
operator ann 303132333435363738393a3b3c3d3e3f 45048b0ca5d84cd24a7cc6f890e0d76b5d447ef5d06e3ba3d10ba8e372fa30b0
operator CP3 404142434445464748494a4b4c4d4e4f 29e1ce02a58b5ce289720045ddba34eabbbd706f386db45aaed81e8c2c11021b
point Säule-7 505152535455565758595a5b5c5d5e5f ccd3ac47d751db78dee13e9faafe9390e7fa5e509430f23b64e446cc09a8a019
operator empty 606162636465666768696a6b6c6d6e6f 2ed1bad92452df6752ac09877a37fc86ec876010faa7d80765bd5131fb8e0226";

/// ROLE|IDENTITY|HEADER|the user, or the HTTP status. A key is sent as hex digits or as bytes.
const ROWS: &str = "\
point|CP1|Basic Q1AxOjAwMDEwMjAzMDQwNTA2MDcwODA5MGEwYjBjMGQwZTBmMTAxMTEyMTM=|CP1
point|CP1|Basic Q1AxOjAwMDEwMjAzMDQwNTA2MDcwODA5MEEwQjBDMEQwRTBGMTAxMTEyMTM=|CP1
point|CP1|Basic Q1AxOgABAgMEBQYHCAkKCwwNDg8QERIT|CP1
point|CP1|Basic Q1AxOjY0NjU2NjY3Njg2OTZhNmI2YzZkNmU2ZjcwNzE3MjczNzQ3NTc2Nzc=|CP1
point|CP1|Basic Q1AxOmRlZmdoaWprbG1ub3BxcnN0dXZ3|CP1
point|CP2|Basic Q1AyOmZmM2EwMGM4YzljYWNiY2NjZGNlY2ZkMGQxZDJkM2Q0ZDVkNmQ3ZDg=|CP2
point|CP2|Basic Q1AyOv86AMjJysvMzc7P0NHS09TV1tfY|CP2
point|Säule-7|Basic U8OkdWxlLTc6MDAwMTAyMDMwNDA1MDYwNzA4MDkwYTBiMGMwZDBlMGYxMDExMTIxMw==|Säule-7
point|CP1|basic Q1AxOjAwMDEwMjAzMDQwNTA2MDcwODA5MGEwYjBjMGQwZTBmMTAxMTEyMTM=|CP1
point|CP1|BASIC   Q1AxOjAwMDEwMjAzMDQwNTA2MDcwODA5MGEwYjBjMGQwZTBmMTAxMTEyMTM=|CP1
operator|CP1|Basic YW5uOm9wZW4gc2VzYW1l|ann
operator||Basic YW5uOm9wZW4gc2VzYW1l|ann
operator|CP1|Basic Q1AzOjAwMDEwMjAzMDQwNTA2MDcwODA5MGEwYjBjMGQwZTBmMTAxMTEyMTM=|CP3
operator|CP1|Basic ZW1wdHk6|empty
point|CP2|Basic Q1AxOjAwMDEwMjAzMDQwNTA2MDcwODA5MGEwYjBjMGQwZTBmMTAxMTEyMTM=|403
point|cp1|Basic Q1AxOjAwMDEwMjAzMDQwNTA2MDcwODA5MGEwYjBjMGQwZTBmMTAxMTEyMTM=|403
point||Basic Q1AxOgABAgMEBQYHCAkKCwwNDg8QERIT|403
point|CP1|Basic Q1AxOjAwMDEwMjAzMDQwNTA2MDcwODA5MGEwYjBjMGQwZTBmMTAxMTEyMTQ=|401
point|CP1|Basic Q1AxOjAwMDEwMjAzMDQwNTA2MDcwODA5MGEwYjBjMGQwZTBmMTAxMTEyMTMw|401
point|CP1|Basic Q1AxOgABAgMEBQYHCAkKCwwNDg8QERI=|401
point|CP1|Basic Q1AxOg==|401
point|CP1|Basic Q1AxOmZmM2EwMGM4YzljYWNiY2NjZGNlY2ZkMGQxZDJkM2Q0ZDVkNmQ3ZDg=|401
point|cp1|Basic Y3AxOjAwMDEwMjAzMDQwNTA2MDcwODA5MGEwYjBjMGQwZTBmMTAxMTEyMTM=|401
point|CP9|Basic Q1A5OjAwMDEwMjAzMDQwNTA2MDcwODA5MGEwYjBjMGQwZTBmMTAxMTEyMTM=|401
point|CP1|Basic IENQMTowMDAxMDIwMzA0MDUwNjA3MDgwOTBhMGIwYzBkMGUwZjEwMTExMjEz|401
point|CP1|Basic Q1Ax|401
point|CP1|Basic /zowMDAxMDIwMzA0MDUwNjA3MDgwOTBhMGIwYzBkMGUwZjEwMTExMjEz|401
point|CP3|Basic Q1AzOjAwMDEwMjAzMDQwNTA2MDcwODA5MGEwYjBjMGQwZTBmMTAxMTEyMTM=|401
point|ann|Basic YW5uOm9wZW4gc2VzYW1l|401
operator|CP1|Basic Q1AxOjAwMDEwMjAzMDQwNTA2MDcwODA5MGEwYjBjMGQwZTBmMTAxMTEyMTM=|401
operator|CP1|Basic YW5uOm9wZW4gc2VzYW0=|401
operator|CP1|Basic Q1AzOjAwMDEwMjAzMDQwNTA2MDcwODA5MGEwYjBjMGQwZTBmMTAxMTEyMTM|401
point|CP1|BasicQ1AxOjAwMDEwMjAzMDQwNTA2MDcwODA5MGEwYjBjMGQwZTBmMTAxMTEyMTM=|401
point|CP1|Basic\tQ1AxOjAwMDEwMjAzMDQwNTA2MDcwODA5MGEwYjBjMGQwZTBmMTAxMTEyMTM=|401
point|CP1| Basic Q1AxOjAwMDEwMjAzMDQwNTA2MDcwODA5MGEwYjBjMGQwZTBmMTAxMTEyMTM=|401
point|CP1|Basic Q1AxOjAwMDEwMjAzMDQwNTA2MDcwODA5MGEwYjBjMGQwZTBmMTAxMTEyMTM= |401
point|CP1|Basic Q1AxOjAwMDEwMjAzMDQwNTA2MDcwODA5MGEwYjBjMGQwZTBmMTAxMTEy|401
point|CP1|Digest Q1AxOjAwMDEwMjAzMDQwNTA2MDcwODA5MGEwYjBjMGQwZTBmMTAxMTEyMTM=|401
point|CP1|Basic|401
point|CP1|Basic |401
point|CP1|Basic Og==|401
point|CP1||401";

/// In the tests of the key file: reads the keys of points and operators from the file's text.
fn read(rt: &impl Abort, alloc: Global, file: &str) -> Keys {
    Keys::read(alloc, file.as_bytes()).expect(rt, "error")
}

/// Returns the role in which the client of a test's line asks for admission by the key file: a
/// point or an operator.
fn role_named(word: &str) -> Role {
    if word == "point" {
        Role::Point
    } else {
        Role::Operator
    }
}

/// Checks whom the key file's keys admitted by an HTTP Basic header, or the HTTP status that they
/// refused it with.
fn check_admission(rt: &impl Abort, admission: &Admission, wanted: &str, case: &str) {
    let said = match admission {
        Admission::Admitted(user) => user.as_str(),
        Admission::Unauthorized => "401",
        Admission::Forbidden => "403",
    };
    same_text(rt, said, wanted, case);
}

/// Checks the admission of the client of a test's line by the key file, from its role, its identity
/// and its HTTP Basic header.
fn play(rt: &impl Abort, alloc: Global, keys: &Keys, row: &str) {
    let mut words = row.split('|');
    let role = role_named(words.next().expect(rt, row));
    let identity = words.next().expect(rt, row);
    let header = words.next().expect(rt, row);
    let wanted = words.next().expect(rt, row);
    let admission = keys
        .admit(alloc, role, identity, Some(header.as_bytes()))
        .expect(rt, "error");
    check_admission(rt, &admission, wanted, row);
}

/// Checks for each line of the test whom the key file admits by an HTTP Basic header, if anyone.
#[test]
fn each_comes_as_the_file_says(rt: HostRuntime) {
    let keys = read(&rt, rt.alloc(), FILE);
    for row in ROWS.lines() {
        play(&rt, rt.alloc(), &keys, row);
    }
}
