//! Reads the lines of a journal from its file, part by part.

use crate::folder_fault::FolderFault;
use crate::named_file::NamedFile;
use journal::{Format, Header, HeaderFault, read_header, split_line, whole_lines};
use std::alloc::{AllocError, Global};
use std::mem;

/// The number of bytes of one read. Every line is shorter.
const PART: u64 = 4 * 1_048_576;

/// The greatest number of lines handed out at a time, so that a command can print its progress in
/// between.
const MOST_LINES: usize = 1_024;

/// The beginning of a line that names a site file, as the first line does. The other lines begin
/// with an instant.
const SITE_LINE: &[u8] = b"central journal ";

/// The length of such a line in bytes.
const SITE_LINE_BYTES: usize = 89;

/// The whole lines of a journal, as they are read.
#[derive(Drop)]
pub struct JournalLines {
    alloc: Global,
    /// The bytes read after the last whole line.
    torn: Vec<u8>,
    /// The whole lines not yet handed out.
    ahead: Vec<u8>,
    /// The lines handed out last.
    steps: Vec<u8>,
    /// The numbers of bytes and lines handed out in all, including lines that name site files.
    length: u64,
    count: u64,
    /// The line that names the site file of the lines handed out last.
    site: Option<Header>,
    is_at_end: bool,
}

/// A part of a journal's lines. Each line is whole, and notes a step.
#[derive(Clone, Copy)]
pub struct JournalPart<'a> {
    /// The number of the first line, counted from 1 over all lines of the journal.
    pub first: u64,
    pub bytes: &'a [u8],
}

impl JournalLines {
    /// Returns a reader at the beginning of a file.
    pub fn new(alloc: Global) -> JournalLines {
        JournalLines {
            alloc,
            torn: Vec::new(alloc),
            ahead: Vec::new(alloc),
            steps: Vec::new(alloc),
            length: 0,
            count: 0,
            site: None,
            is_at_end: false,
        }
    }

    /// Returns the next lines, or None after the last one. The first line of the file has to name a
    /// site file. A file without a whole line may hold the beginning of such a line.
    pub fn next<R: Eprint>(
        &mut self,
        rt: &R,
        journal: &mut NamedFile,
    ) -> Result<Option<JournalPart<'_>>, FolderFault> {
        let mut has_steps = false;
        // Each turn but the last one reads a part of the file, or a line that names a site file.
        for _turn in 0..u64::MAX {
            if self.ahead.is_empty() && !self.read_part(rt, journal)? {
                break;
            }
            if self.site.is_some() && self.take_steps()? {
                has_steps = true;
                break;
            }
            self.take_site()?;
        }
        if !has_steps {
            return Ok(None);
        }
        let first = self.count.saturating_add(1);
        let bytes = self.steps.as_slice();
        self.count = self.count.saturating_add(count_lines(bytes));
        self.length = self.length.saturating_add(bytes.len() as u64);
        Ok(Some(JournalPart { first, bytes }))
    }

    /// Lets the next call read on at the end of the file, where a running site goes on writing.
    pub fn look_again(&mut self) {
        self.is_at_end = false;
    }

    /// Returns the digest of the site file that applies after the lines handed out. None if the
    /// file has no whole line.
    pub fn site(&self) -> Option<[u8; 32]> {
        let header = self.site?;
        Some(header.digest)
    }

    /// Returns whether the lines that follow those handed out may be of the present format.
    pub fn has_present_format(&self) -> bool {
        matches!(
            self.site,
            Some(Header {
                format: Format::Second,
                ..
            })
        )
    }

    /// Returns how many bytes the lines handed out have.
    pub fn length(&self) -> u64 {
        self.length
    }

    /// Returns how many lines were handed out.
    pub fn count(&self) -> u64 {
        self.count
    }

    /// Returns how many bytes follow the last whole line, once that is handed out.
    pub fn torn(&self) -> usize {
        self.torn.len()
    }

    /// Reads the next part of the journal's file, once all lines read before are handed out.
    /// Returns whether it has a whole line.
    fn read_part<R: Eprint>(
        &mut self,
        rt: &R,
        journal: &mut NamedFile,
    ) -> Result<bool, FolderFault> {
        if self.is_at_end {
            return Ok(false);
        }
        let count = journal.append_to(rt, &mut self.torn, PART)?;
        // `read_to_end` returns fewer bytes only at the end of the file.
        self.is_at_end = (count as u64) < PART;
        let read = mem::replace(&mut self.torn, Vec::new(self.alloc));
        let (whole, torn) = whole_lines(read.as_slice());
        self.ahead = copied(self.alloc, whole)?;
        self.torn = copied(self.alloc, torn)?;
        if whole.is_empty() {
            self.check_torn()?;
        }
        Ok(!whole.is_empty())
    }

    /// Refuses a part of a journal's file without a whole line, except at its end. So a file of
    /// another kind isn't taken for the beginning of a journal.
    fn check_torn(&self) -> Result<(), FolderFault> {
        if !self.is_at_end {
            return Err(FolderFault::LineTooLong);
        }
        let torn = self.torn.as_slice();
        let begins = SITE_LINE.starts_with(torn) || torn.starts_with(SITE_LINE);
        if self.site.is_none() && !(begins && torn.len() <= SITE_LINE_BYTES) {
            return Err(self.no_site_line(HeaderFault::NotAJournal));
        }
        Ok(())
    }

    /// Takes the next lines from the part of a journal's file that was read, up to one that names a
    /// site file. Returns whether there are any.
    fn take_steps(&mut self) -> Result<bool, AllocError> {
        let ahead = mem::replace(&mut self.ahead, Vec::new(self.alloc));
        let (steps, rest) = steps_before_site(ahead.as_slice());
        self.steps = copied(self.alloc, steps)?;
        self.ahead = copied(self.alloc, rest)?;
        Ok(!steps.is_empty())
    }

    /// Takes the next line of a journal's file, which has to name a site file by its digest.
    fn take_site(&mut self) -> Result<(), FolderFault> {
        let ahead = mem::replace(&mut self.ahead, Vec::new(self.alloc));
        let Some((line, rest)) = split_line(ahead.as_slice()) else {
            return Ok(());
        };
        match std::str::from_utf8(line) {
            Ok(text) => match read_header(text) {
                Ok(header) => self.site = Some(header),
                Err(fault) => return Err(self.no_site_line(fault)),
            },
            Err(_) => return Err(self.no_site_line(HeaderFault::NotAJournal)),
        }
        self.ahead = copied(self.alloc, rest)?;
        self.count = self.count.saturating_add(1);
        self.length = self
            .length
            .saturating_add(line.len() as u64)
            .saturating_add(1);
        Ok(())
    }

    /// Returns the fault that the next line of a journal's file doesn't name a site file. `run`
    /// reports it at its start, and so do the commands that read a journal.
    fn no_site_line(&self, fault: HeaderFault) -> FolderFault {
        FolderFault::Header {
            line: self.count.saturating_add(1),
            fault,
        }
    }
}

/// Returns a copy of a part of the journal's file.
fn copied(alloc: Global, bytes: &[u8]) -> Result<Vec<u8>, AllocError> {
    let mut copy = Vec::with_capacity(alloc, bytes.len())?;
    copy.extend_from_slice(bytes)?;
    Ok(copy)
}

/// Splits a part of a journal's file: the next lines, at most MOST_LINES, before one that names a
/// site file, and the rest.
fn steps_before_site(whole: &[u8]) -> (&[u8], &[u8]) {
    let mut rest = whole;
    for _line in 0..MOST_LINES {
        match split_line(rest) {
            Some((line, others)) if !line.starts_with(SITE_LINE) => rest = others,
            _ => break,
        }
    }
    let steps = whole.len().saturating_sub(rest.len());
    (whole.split_at(steps).0, rest)
}

/// Counts the lines in a part of a journal's file that has only whole lines.
fn count_lines(text: &[u8]) -> u64 {
    let mut count = 0u64;
    for byte in text {
        if *byte == b'\n' {
            count = count.saturating_add(1);
        }
    }
    count
}
