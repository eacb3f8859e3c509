//! Pages that the program prints or writes to files.

use crate::program_fault::ProgramFault;
use journal_file::report_error;
use replay::Playing;
use std::io::Write;
use std::rt::Files;
use std::{fs, io};

/// The properties of standard output.
#[derive(Clone, Copy)]
pub struct Screen {
    /// Whether it is a terminal.
    pub is_terminal: bool,
}

/// The columns assumed for a terminal: its real number isn't known.
const COLUMNS: usize = 80;

impl Screen {
    /// Returns how many columns a page has, if it is for a terminal.
    pub fn columns(self) -> Option<usize> {
        if self.is_terminal {
            Some(COLUMNS)
        } else {
            None
        }
    }
}

/// The exit status if lines that were refused or are torn are missing in the output.
const NOT_ALL: u8 = 2;

/// Returns the exit status of a page on a script or a journal, given whether it includes all lines.
pub fn page_status(is_whole: bool) -> u8 {
    if is_whole { 0 } else { NOT_ALL }
}

/// Prints to standard error how many lines of a script have a fault or were refused, if any: the
/// output is without them. If this can't be written, nothing else is lost. Returns whether there
/// are none.
pub fn note_refused_lines<R: Eprint>(rt: &R, playing: &Playing<'_>) -> bool {
    let count = playing.refused_lines();
    if count > 0 {
        let _ = eprintln!(rt;
            "central: {count} of the script's lines have a fault or were refused: central check says which"
        );
    }
    count == 0
}

/// Prints a page. If its reader closes the pipe, as `head` does, it counts as printed. Prints why
/// it can't be.
pub fn print_page<R: Print + Eprint>(rt: &R, page: &str) -> Result<(), ProgramFault> {
    let mut writer = io::writer(rt);
    match writer
        .write_all(page.as_bytes())
        .and_then(|()| writer.flush())
    {
        Err(error) if error.kind() == io::ErrorKind::BrokenPipe => Ok(()),
        written => report_error(rt, "standard output", written, ProgramFault::Write),
    }
}

/// Returns the result of printing help to standard output: a pipe that its reader closed is no
/// fault.
pub fn as_printed(written: io::Result<()>) -> Result<(), ProgramFault> {
    match written {
        Ok(()) => Ok(()),
        Err(error) if error.kind() == io::ErrorKind::BrokenPipe => Ok(()),
        Err(_) => Err(ProgramFault::Write),
    }
}

/// Writes a page to a file, replacing its content. If that fails, prints the file's name and the
/// cause to standard error.
pub fn write_file<R: Files + Eprint>(rt: &R, path: &str, page: &str) -> Result<(), ProgramFault> {
    let created = fs::create(rt, path);
    let mut file = report_error(rt, path, created, ProgramFault::Write)?;
    let written = file.write_all(page.as_bytes()).and_then(|()| file.flush());
    report_error(rt, path, written, ProgramFault::Write)
}
