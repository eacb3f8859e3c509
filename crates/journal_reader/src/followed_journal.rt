//! Follows a journal: its lines lead to a state, and a reader reads their events.

ghost use Rattle.std.specs.Prelude.{◌≡◌};

use crate::event_reader::EventReader;
use journal::{Line, Noted, Unrestored, read_bytes, restore, split_line};
use journal_file::{
    FolderFault, JournalLines, JournalPart, NamedFile, ScriptEnd, ScriptLines, open_to_read,
    say_other_site, say_torn, unread,
};
use messages::Call;
use ocpp_scalars::{Instant, push_instant};
use replay::Progress;
use site_core::Machine;
use site_history::{Event, EventKind};
use site_rules::Site;
use std::alloc::{AllocError, AllocGlobal, Global};
use std::fs::File;
use std::marker::Brand;
use std::rt::{Clock, Files};
use std::sync::ledger::{Blank, Ledger};
use version_store::{Book, Pass};

/// The journal to follow, and how far.
#[derive(Drop)]
pub struct FollowRequest<'a> {
    /// The site of the journal.
    pub site: Site,
    /// The folder of the journal.
    pub folder: &'a str,
    pub end: ScriptEnd,
    /// The SHA-256 of the site's file, if notes on the journal itself are wanted.
    pub noted_with: Option<[u8; 32]>,
}

/// The state to which the lines of a journal lead.
#[derive(Drop)]
pub struct FollowedJournal {
    pub machine: Machine,
    /// The number of followed lines of the journal's script.
    pub lines: u64,
    /// Whether no line is torn, and the journal reaches the requested end.
    pub is_as_wanted: bool,
}

/// Follows the journal of a folder on a site, and lets a reader read its events. Counts lines as in
/// its script. Prints the progress to standard error if reading takes long, and the notes if they
/// are wanted: how many lines there are, and the moment of the last one.
pub fn follow_journal<R: Files<File = File> + Eprint + Clock + AllocGlobal, E: EventReader>(
    rt: &R,
    following: FollowRequest<'_>,
    reader: &mut E,
) -> Result<FollowedJournal, FolderFault> {
    // `restore` works on a book, which counts changes and answers in two ledgers.
    let blanks = (Blank::new(1), Blank::new(1));
    follow_counted::<Brand, Brand, R, E>(rt, following, blanks, reader)
}

/// Follows a site's journal up to the requested end, for a command that reads it (`show`,
/// `explain`, `check`, `call`). These two ledgers count its changes and answers.
fn follow_counted<
    C: Ledger,
    A: Ledger,
    R: Files<File = File> + Eprint + Clock + AllocGlobal,
    E: EventReader,
>(
    rt: &R,
    following: FollowRequest<'_>,
    blanks: (Blank, Blank),
    reader: &mut E,
) -> Result<FollowedJournal, FolderFault>
    requires changes { (blanks.0.name ≡ C.name) × (blanks.0.parts ≡ C.parts)
        × (blanks.0.parts ≡ 1) }
    requires answers { (blanks.1.name ≡ A.name) × (blanks.1.parts ≡ A.parts)
        × (blanks.1.parts ≡ 1) }
{
    let FollowRequest {
        site,
        folder,
        end,
        noted_with,
    } = following;
    let mut file = open_to_read(rt, folder)?;
    let mut follower: Follower<C, A> = Follower::begin(rt.alloc(), site, end, blanks)?;
    let mut journal = JournalLines::new(rt.alloc());
    follower.follow_parts(rt, &mut file, &mut journal, reader)?;
    let mut has_end = true;
    if let Some(digest) = noted_with {
        let _ = say_other_site(rt, &file, &journal, &digest);
        has_end = say_followed(rt, &file, &journal, &follower)?;
    }
    follower.into_followed(has_end && journal.torn() == 0)
}

/// Prints to standard error how much of a journal a command has read (`show`, `explain`, `check` or
/// `call`). Returns whether the journal reaches the requested end.
fn say_followed<C: Ledger, A: Ledger, R: Eprint + AllocGlobal>(
    rt: &R,
    file: &NamedFile,
    journal: &JournalLines,
    follower: &Follower<C, A>,
) -> Result<bool, FolderFault> {
    say_torn(rt, file, journal);
    let lines = follower.script.count();
    say_read(rt, lines, follower.last)?;
    let has_end = say_end(rt, follower.end, lines, follower.first)?;
    Ok(has_end)
}

/// A follower of a journal: the book to which its lines lead.
#[derive(Drop)]
struct Follower<C: Ledger, A: Ledger> {
    alloc: Global,
    book: Book<C, A>,
    pass: Pass<C, A>,
    /// The script's lines read so far, and how many of them were followed.
    script: ScriptLines,
    followed: u64,
    /// The requested end, and whether the remaining lines are only read.
    end: ScriptEnd,
    is_ended: bool,
    /// The moments of the first and the last line read.
    first: Option<Instant>,
    last: Option<Instant>,
}

impl<C: Ledger, A: Ledger> Follower<C, A> {
    /// Returns the state of a site before the first line of the journal that a command reads
    /// (`show`, `explain`, `check` or `call`).
    fn begin(
        alloc: Global,
        site: Site,
        end: ScriptEnd,
        blanks: (Blank, Blank),
    ) -> Result<Follower<C, A>, FolderFault>
        requires changes { (blanks.0.name ≡ C.name) × (blanks.0.parts ≡ C.parts)
            × (blanks.0.parts ≡ 1) }
        requires answers { (blanks.1.name ≡ A.name) × (blanks.1.parts ≡ A.parts)
            × (blanks.1.parts ≡ 1) }
    {
        let (changes, answers) = blanks;
        let (book, mut passes) = Book::make(alloc, changes, answers, site, 1)?;
        // `make` returns one pass, as requested.
        let Some(pass) = passes.pop() else {
            return Err(FolderFault::OutOfMemory);
        };
        Ok(Follower {
            alloc,
            book,
            pass,
            script: ScriptLines::new(alloc),
            followed: 0,
            end,
            is_ended: false,
            first: None,
            last: None,
        })
    }

    /// Returns the site's state after the lines of a journal that a command has read (`show`,
    /// `explain`, `check` or `call`).
    fn into_followed(self, is_as_wanted: bool) -> Result<FollowedJournal, FolderFault> {
        Ok(FollowedJournal {
            machine: self.book.present().copy()?,
            lines: self.followed,
            is_as_wanted,
        })
    }

    /// Follows all parts of a journal for a command (`show`, `explain`, `check` or `call`), to the
    /// state of the site at the requested end. If that takes long, prints to standard error how
    /// many lines are read.
    fn follow_parts<R: Eprint + Clock + AllocGlobal, E: EventReader>(
        &mut self,
        rt: &R,
        file: &mut NamedFile,
        journal: &mut JournalLines,
        reader: &mut E,
    ) -> Result<(), FolderFault> {
        let mut progress = Progress::of_lines(rt);
        for _part in 0..u64::MAX {
            let has_more = match journal.next(rt, file)? {
                Some(lines) => {
                    self.follow_lines(lines, reader)?;
                    true
                }
                None => false,
            };
            if has_more {
                reader.end_part()?;
                progress.say_lines(rt, self.script.count());
            } else if reader.waits(self.book.present()) {
                journal.look_again();
            } else {
                break;
            }
        }
        Ok(())
    }

    /// Reads these lines of a journal for a command (`show`, `explain`, `check` or `call`).
    /// Restores the site's state from those up to the requested end, and lets the command's reader
    /// read their events.
    fn follow_lines<E: EventReader>(
        &mut self,
        lines: JournalPart<'_>,
        reader: &mut E,
    ) -> Result<(), FolderFault> {
        let (mut rest, mut number) = (lines.bytes, lines.first);
        for _line in 0..lines.bytes.len() {
            let Some((bytes, others)) = split_line(rest) else {
                break;
            };
            let length = rest.len().saturating_sub(others.len());
            match read_bytes(bytes) {
                Ok(line) => {
                    self.follow_line(&line, rest.split_at(length).0, number, reader)?;
                }
                Err(fault) => return Err(unread(number, fault)),
            }
            rest = others;
            number = number.saturating_add(1);
        }
        Ok(())
    }

    /// Restores the effect of the journal's line of this number for a command (`show`, `explain`,
    /// `check` or `call`), and lets its reader read the event. Leaves out a line after the
    /// requested end. The text is the line with its line feed.
    fn follow_line<E: EventReader>(
        &mut self,
        line: &Line<'_>,
        text: &[u8],
        number: u64,
        reader: &mut E,
    ) -> Result<(), FolderFault> {
        // Lines after the end are still read: the notes name the whole journal's lines and last
        // moment.
        self.first = self.first.or(Some(line.moment));
        self.last = Some(line.moment);
        self.script.take_in(line)?;
        let said = self.script.count();
        // The end is final: a clock set back can give a later line an earlier moment.
        self.is_ended = self.is_ended || self.end.is_before(said, line.moment);
        if self.is_ended {
            return Ok(());
        }
        reader.before(self.book.present(), said, line.point)?;
        if let Err(unrestored) = restore(self.alloc, &mut self.book, &mut self.pass, text) {
            // `restore` gets one line at a time, so its own count says nothing.
            return Err(FolderFault::Unrestored(Unrestored {
                line: number,
                fault: unrestored.fault,
            }));
        }
        self.followed = said;
        self.let_read(line, reader)
    }

    /// Lets the reader of a command (`show`, `explain`, `check` or `call`) read the event of the
    /// journal's line restored last, if it has one.
    fn let_read<E: EventReader>(&self, line: &Line<'_>, reader: &mut E) -> Result<(), FolderFault> {
        let kind = match line.noted {
            Noted::Message { sender, frame, .. } => EventKind::Message {
                sender: sender.side(),
                name: sender.name(),
                frame,
            },
            Noted::Reply { frame, .. } => EventKind::Reply { frame },
            Noted::Verdict { .. } => EventKind::Verdict,
            Noted::Sent { .. } => {
                return match self.call_in_flight(line.point)? {
                    Some(call) => self.let_read_one(line, EventKind::Sent { call: &call }, reader),
                    None => Ok(()),
                };
            }
            Noted::Attached { .. } | Noted::Lost { .. } => return Ok(()),
        };
        self.let_read_one(line, kind, reader)
    }

    /// Lets the reader of a command (`show`, `explain`, `check` or `call`) read the event of this
    /// kind by a line of the journal.
    fn let_read_one<E: EventReader>(
        &self,
        line: &Line<'_>,
        kind: EventKind<'_>,
        reader: &mut E,
    ) -> Result<(), FolderFault> {
        let event = Event {
            line: self.followed,
            moment: line.moment,
            point: line.point,
            kind,
        };
        reader.read(self.book.present(), &event)
    }

    /// Returns the call that went out to a point by a line of the journal that a command reads: the
    /// first without the point's confirmation.
    fn call_in_flight(&self, point: &str) -> Result<Option<Call>, AllocError> {
        let Some(outbox) = self.book.present().outbox_of(point) else {
            return Ok(None);
        };
        let number = outbox.first_number();
        let first = outbox.bodies(self.alloc)?.into_iter().next();
        Ok(first.map(|body| Call { number, body }))
    }
}

/// Prints to standard error how many lines of a journal a command (`show`, `explain`, `check` or
/// `call`) has read, and the last one's time.
fn say_read<R: Eprint + AllocGlobal>(
    rt: &R,
    lines: u64,
    last: Option<Instant>,
) -> Result<(), AllocError> {
    let Some(last) = last else {
        let _ = eprintln!(rt; "central: journal: {lines} lines");
        return Ok(());
    };
    let mut moment = String::new(rt.alloc());
    push_instant(&mut moment, last)?;
    let _ = eprintln!(rt; "central: journal: {lines} lines, the last one of {moment}");
    Ok(())
}

/// Prints a note to standard error if the journal that a command reads doesn't reach the end that
/// `--at` requests. Returns whether it does.
fn say_end<R: Eprint + AllocGlobal>(
    rt: &R,
    end: ScriptEnd,
    lines: u64,
    first: Option<Instant>,
) -> Result<bool, AllocError> {
    match end {
        ScriptEnd::Whole => Ok(true),
        ScriptEnd::Lines(count) => {
            if count <= lines {
                return Ok(true);
            }
            let _ = eprintln!(rt; "central: the journal has {lines} lines, fewer than --at");
            Ok(false)
        }
        ScriptEnd::Moment(moment) => match first {
            Some(first) => say_begun(rt, moment, first),
            None => Ok(true),
        },
    }
}

/// Prints a note to standard error if the journal that a command reads begins after the moment that
/// `--at` requests. Returns whether it doesn't.
fn say_begun<R: Eprint + AllocGlobal>(
    rt: &R,
    moment: Instant,
    first: Instant,
) -> Result<bool, AllocError> {
    if first <= moment {
        return Ok(true);
    }
    let mut begin = String::new(rt.alloc());
    push_instant(&mut begin, first)?;
    let _ = eprintln!(rt; "central: the journal begins at {begin}, after --at");
    Ok(false)
}
