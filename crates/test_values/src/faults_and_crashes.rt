//! A log over a file in memory. Faults at each call in turn; the bytes that a crash leaves behind
//! the acknowledged ones, and those with which a log opened afterwards goes on.

use crate::same::same_text;
use append_log::{FileAnswer, Log, LogFault, MemoryFile, whole_length};
use std::alloc::{AllocError, Global};
use std::process::Abort;

/// Rows of five columns. First the outcomes of the file's calls: `m` succeeds, `p` takes one byte,
/// `f` finds a full device, `x` fails. Then the number of bytes that a crash leaves behind those on
/// disk. Then the outcomes of the trials: `k` kept, `f` full, `x` failed, `-` failed before. Then
/// the bytes that the crash leaves, and those of the log opened afterwards. `/` is a line feed.
const FAULTS: &str = "|0|kkk|a/bc/|a/bc/
mmmm|0|kkk|a/bc/|a/bc/
f|0|fkk|a/bc/|a/bc/
ff|0|ffk|a/bc/|a/bc/
fff|0|fff||
x|0|x--||
mx|0|x--||
p|0|kkk|a/bc/|a/bc/
pp|0|kkk|a/bc/|a/bc/
pf|0|fkk|a/bc/|a/bc/
ppf|0|kkk|a/bc/|a/bc/
px|0|x--||
ppx|0|x--||
mmf|0|kfk|a/bc/|a/bc/
mmff|0|kff|a/|a/
mmx|0|kx-|a/|a/
mmmx|0|kx-|a/|a/
mmpf|0|kfk|a/bc/|a/bc/
mmpff|0|kff|a/|a/
mmpfx|0|kfx|a/|a/
mmppf|0|kfk|a/bc/|a/bc/
mmpppx|0|kx-|a/|a/
fmx|0|fx-||
fpfpm|0|ffk|a/bc/|a/bc/";

const CRASHES: &str = "mmf|0|kf|a/|a/
mmpf|0|kf|a/|a/
mmpf|1|kf|a/b|a/
mmpf|2|kf|a/b|a/
mmppf|1|kf|a/b|a/
mmppf|2|kf|a/b/|a/b/
mmpppf|3|kf|a/b/c|a/b/
mmppppx|4|kx|a/|a/
mmmm|0|kk|a/b/c/|a/b/c/";

/// Checks what the append-only log keeps, and a crash leaves of it, if calls of its file fail as in
/// `FAULTS`.
#[test]
fn each_fault_leaves_what_was_acknowledged(rt: HostRuntime) {
    for row in FAULTS.lines() {
        play(&rt, rt.alloc(), &["a\n", "bc\n", ""], row);
    }
}

/// Checks that a crash leaves a first part of the append-only log, and that a log opened afterwards
/// has its whole lines.
#[test]
fn a_crash_leaves_a_first_part_and_opening_its_whole_lines(rt: HostRuntime) {
    for row in CRASHES.lines() {
        play(&rt, rt.alloc(), &["a\n", "b\nc\n"], row);
    }
}

/// Plays a line of a test of the append-only log. Adds each text and tries once to write and sync
/// it, lets the file crash, and opens it again.
fn play(rt: &impl Abort, alloc: Global, texts: &[&str], row: &str) {
    let (letters, rest) = row.split_once('|').expect(rt, row);
    let (behind, wanted) = rest.split_once('|').expect(rt, row);
    let mut found = String::new(alloc);
    let mut log = log_in(rt, alloc, "", letters);
    for text in texts {
        log.add(text.as_bytes()).expect(rt, "error");
        found.push_str(trial(&mut log)).expect(rt, "error");
    }
    let left = text_left(rt, alloc, &log, behind.parse().ok().expect(rt, row));
    let opened = log_in(rt, alloc, left.as_str(), "");
    let recovered = text_left(rt, alloc, &opened, 9);
    write!(&mut found, "|{left}|{recovered}").expect(rt, "error");
    let found = found.replace(alloc, "\n", "/").expect(rt, "error");
    same_text(rt, found.as_str(), wanted, row);
}

/// Opens a test's append-only log in a file in memory with this text. The file's later calls have
/// the outcomes of these letters.
fn log_in(rt: &impl Abort, alloc: Global, text: &str, letters: &str) -> Log<MemoryFile> {
    let bytes = text.as_bytes().to_vec(alloc).expect(rt, "error");
    let answers = answers_of(alloc, letters).expect(rt, "error");
    let end = whole_length(bytes.as_slice()) as u64;
    let file = MemoryFile::new(bytes, answers);
    Log::open(alloc, file, end).ok().expect(rt, "it is opened")
}

/// In the tests of the append-only log: returns the outcomes of calls of its file by their letters,
/// the last one first. Then comes that of the cut at opening.
fn answers_of(alloc: Global, letters: &str) -> Result<Vec<FileAnswer>, AllocError> {
    let mut answers = Vec::new(alloc);
    for letter in letters.as_bytes().iter().rev() {
        answers.push(match *letter {
            b'p' => FileAnswer::Part(1),
            b'f' => FileAnswer::Full,
            b'x' => FileAnswer::Failed,
            _ => FileAnswer::Made,
        })?;
    }
    answers.push(FileAnswer::Made)?;
    Ok(answers)
}

/// In a test, tries once to write and sync the texts added to an append-only log, and returns the
/// letter of the outcome.
fn trial(log: &mut Log<MemoryFile>) -> &'static str {
    match log.write_and_sync() {
        Ok(()) => "k",
        Err(LogFault::Full(_)) => "f",
        Err(LogFault::Failed(_)) => "x",
        Err(LogFault::FailedBefore) => "-",
    }
}

/// In a test, returns the text that a crash leaves of an append-only log's file, with `behind`
/// bytes after those on disk.
fn text_left(rt: &impl Abort, alloc: Global, log: &Log<MemoryFile>, behind: usize) -> String {
    let left = log.file().crash(alloc, behind).expect(rt, "error");
    String::from_utf8(left).ok().expect(rt, "ASCII")
}
