//! Why the program stops, and its exit statuses.

ghost use Rattle.std.specs.Prelude.{◌≡◌};
ghost use Rattle.command_io.specs.ExitStatus.{fault_status, folder_status, summary_status};

use client_lines::ClientFault;
use journal::{RestoreFault, Unrestored};
use journal_file::FolderFault;
use replay::{ReplayFault, Summary};
use site_keys::{KeysFault, NewKeyFault};
use site_rules::SiteFault;
use std::alloc::{AllocError, AllocFailed};

/// The reason why the program stops, in the words of its one line on standard error.
#[derive(Debug, Drop, thiserror::Error)]
pub enum ProgramFault {
    /// A word of the command line isn't UTF-8.
    #[error("central: command line: not UTF-8")]
    Words,
    /// The site file describes no site.
    #[error("central: site: {0}")]
    Site(SiteFault),
    /// The site file can't be read.
    #[error("central: device: read")]
    SiteFile,
    /// Standard output can't be written, by a command other than a replay.
    #[error("central: device: write")]
    Write,
    /// The replay stopped.
    #[error("{0}")]
    Replay(ReplayFault),
    /// The server's sockets failed.
    #[error("central: device: socket")]
    Socket,
    /// The journal in the folder of the data can't be used.
    #[error("central: {0}")]
    Folder(FolderFault),
    /// A client stopped.
    #[error("central: {0}")]
    Client(ClientFault),
    /// A script's file or a file of keys can't be read. Or a file of a payload or a profile can't
    /// be read, isn't UTF-8, or is longer than a message may be.
    #[error("central: device: read")]
    File,
    /// The site has no point of the identity that the command line names.
    #[error("central: command line: no such point in the site file")]
    NoSuchPoint,
    /// The point has no connector of the number that the command line names.
    #[error("central: command line: the point has no such connector")]
    NoSuchConnector,
    /// The start isn't an instant.
    #[error("central: command line: --start is no instant, such as 2025-01-01T12:00:00Z, and not now")]
    NoInstant,
    /// The duration isn't valid.
    #[error("central: command line: --duration is none from 1 second to 31 days, such as 3600, 90m, 12h, 2d or PT1H30M")]
    NoDuration,
    /// The end of the script is neither a number of lines nor an instant.
    #[error("central: command line: --at is no number of lines, and no instant")]
    NoScriptEnd,
    /// The connector of a remote start isn't a number.
    #[error("central: command line: the CONNECTOR of --remote-start is no whole number from 0 on")]
    NoNumber,
    /// A site is given without `--all` and `--data`, or one of these without a site.
    #[error("central: command line: --site F is for --all or --data DIR, and each of them needs it")]
    AllWithoutSite,
    /// The URL names one point, but all are called.
    #[error("central: command line: with --all the URL ends in /operator, before the points")]
    AllElsewhere,
    /// All points are called, or calls are checked by a journal, but no option gives a call.
    #[error("central: command line: --all and --data DIR are for the calls of options, and there is none")]
    AllWithoutCalls,
    /// A line is undone without a journal, or at all points: it is undone at its own point, by the
    /// present state.
    #[error("central: command line: --undo LINE needs --data DIR, and goes without --all")]
    UndoWithoutData,
    /// `--wait` is given without `--data`.
    #[error("central: command line: --wait SECONDS needs --data DIR")]
    WaitWithoutData,
    /// The journal has no message on the line that is to be undone.
    #[error("central: command line: the journal has no message on the line of --undo")]
    NoUndoLine,
    /// The URL is that of another point than the point of the line.
    #[error("central: command line: the line of --undo is of another point than the URL")]
    UndoElsewhere,
    /// The requested time ends after the last instant.
    #[error("central: command line: it would end past the year 9999")]
    PastCalendar,
    /// The name of a picture's file doesn't end in one of the two forms.
    #[error("central: command line: the name of a picture's file ends in .svg or .html")]
    NoPicture,
    /// The name of a zone isn't valid, or the system's database has no file of it.
    #[error("central: command line: --zone names no time zone of /usr/share/zoneinfo, such as Europe/Berlin")]
    NoZone,
    /// A zone is given for JSON or a picture, which have their times in UTC.
    #[error("central: command line: --zone is for the table, and goes without --json and --picture")]
    ZoneElsewhere,
    /// By the zone's clock, the explained time would begin before 1970, or it ends in the last days
    /// of the calendar.
    #[error("central: command line: with --zone it begins in 1970 or later by that clock, and ends before 9999-12-31")]
    ZonePastCalendar,
    /// An address to listen at has no port.
    #[error("central: command line: --listen and --status want HOST:PORT, such as 127.0.0.1:9000")]
    NoPort,
    /// After a boot a point gets its profiles again, or nothing.
    #[error("central: command line: --after-boot has the value nothing, or isn't given")]
    AfterBoot,
    /// Without keys, no client on another machine may connect.
    #[error("central: command line: without --keys it listens only on this machine, such as at 127.0.0.1:9000")]
    NoKeys,
    /// The status port has no passwords, so other machines may reach it only with `--status-open`.
    #[error("central: command line: without --status-open the status port is only on this machine, such as at 127.0.0.1:9100")]
    StatusOpen,
    /// A URL can't be that of a status port.
    #[error("central: url: not http://HOST:PORT")]
    StatusUrl,
    /// The server at a URL isn't the status port of a running site.
    #[error("central: url: no status of a site there")]
    NoStatus,
    /// A line of the file of keys isn't a key.
    #[error("central: keys: {0}")]
    Keys(KeysFault),
    /// The file of `--login` has no name with a key.
    #[error("central: login: no NAME:KEY in the file of --login; central key prints one")]
    Login,
    /// A key can't be made for this name.
    #[error("central: command line: --name is empty, or has a blank, a colon or a control character")]
    KeyName,
    /// The clock can't be read.
    #[error("central: device: clock")]
    Clock,
    /// The system gives no random bytes.
    #[error("central: device: random")]
    Random,
    /// Memory ran out.
    #[error("central: OutOfMemory")]
    OutOfMemory,
}

impl ProgramFault {
    /// Returns the program's exit status.
    pub fn status(&self) -> u8
        ensures { result ≡ fault_status self.now }
    {
        match self {
            ProgramFault::Site(_) => 1,
            ProgramFault::Folder(fault) => folder_status(fault),
            ProgramFault::Replay(ReplayFault::ScriptTooLong) => 2,
            ProgramFault::Replay(_) => 3,
            ProgramFault::SiteFile | ProgramFault::Write | ProgramFault::OutOfMemory => 3,
            ProgramFault::Socket | ProgramFault::File => 3,
            ProgramFault::Clock | ProgramFault::Random => 3,
            ProgramFault::Keys(_) | ProgramFault::Login => 1,
            ProgramFault::Client(ClientFault::Url | ClientFault::NotOperator) => 4,
            ProgramFault::Client(_) => 3,
            ProgramFault::Words | ProgramFault::NoSuchPoint | ProgramFault::NoSuchConnector => 4,
            ProgramFault::NoInstant | ProgramFault::PastCalendar | ProgramFault::NoPicture => 4,
            ProgramFault::NoDuration | ProgramFault::NoNumber | ProgramFault::NoScriptEnd => 4,
            ProgramFault::AllWithoutSite
            | ProgramFault::AllWithoutCalls
            | ProgramFault::AllElsewhere => 4,
            ProgramFault::UndoWithoutData
            | ProgramFault::NoUndoLine
            | ProgramFault::WaitWithoutData => 4,
            ProgramFault::UndoElsewhere => 4,
            ProgramFault::NoZone | ProgramFault::ZoneElsewhere | ProgramFault::ZonePastCalendar =>
                4,
            ProgramFault::NoPort | ProgramFault::NoKeys | ProgramFault::KeyName => 4,
            ProgramFault::StatusOpen | ProgramFault::StatusUrl | ProgramFault::AfterBoot => 4,
            ProgramFault::NoStatus => 3,
        }
    }
}

/// Returns the exit status of `run`, `journal`, `replay`, `check`, `show`, `explain` or `call`, if
/// it stops because the journal in a site's folder can't be used.
fn folder_status(fault: &FolderFault) -> u8
    ensures { result ≡ folder_status fault.now }
{
    match fault {
        FolderFault::Header { .. } | FolderFault::LineTooLong => 1,
        FolderFault::Unrestored(
            Unrestored {
                fault: RestoreFault::OutOfMemory,
                ..
            },
        ) => 3,
        FolderFault::Unrestored(_) => 1,
        FolderFault::ScriptTooLong => 2,
        FolderFault::Read | FolderFault::Write | FolderFault::Print => 3,
        FolderFault::Clock | FolderFault::OutOfMemory => 3,
        FolderFault::InUse => 4,
    }
}

/// Returns the program's exit status after a whole replay.
pub fn summary_status(summary: Summary) -> u8
    ensures { result ≡ summary_status summary }
{
    if summary.script_faults == 0 { 0 } else { 2 }
}

impl From<SiteFault> for ProgramFault {
    ghost use Rattle.std.specs.Prelude.{◌≡◌};
    ghost use Rattle.command_io.specs.SiteStop.{site_stop};

    ghost from_gives = { λ fault stop. stop ≡ site_stop fault };

    fn from(fault: SiteFault) -> ProgramFault {
        match fault {
            // A failed allocation is no fault of the file, and has an exit status of its own.
            SiteFault::OutOfMemory => ProgramFault::OutOfMemory,
            fault => ProgramFault::Site(fault),
        }
    }
}

impl From<FolderFault> for ProgramFault {
    fn from(fault: FolderFault) -> ProgramFault {
        match fault {
            FolderFault::OutOfMemory => ProgramFault::OutOfMemory,
            fault => ProgramFault::Folder(fault),
        }
    }
}

impl From<KeysFault> for ProgramFault {
    fn from(fault: KeysFault) -> ProgramFault {
        match fault {
            KeysFault::OutOfMemory => ProgramFault::OutOfMemory,
            fault => ProgramFault::Keys(fault),
        }
    }
}

impl From<NewKeyFault> for ProgramFault {
    fn from(fault: NewKeyFault) -> ProgramFault {
        match fault {
            NewKeyFault::Name => ProgramFault::KeyName,
            NewKeyFault::OutOfMemory => ProgramFault::OutOfMemory,
        }
    }
}

impl From<ClientFault> for ProgramFault {
    fn from(fault: ClientFault) -> ProgramFault {
        ProgramFault::Client(fault)
    }
}

impl<T: Drop> From<AllocFailed<T>> for ProgramFault {
    fn from(_failed: AllocFailed<T>) -> ProgramFault {
        ProgramFault::OutOfMemory
    }
}

impl From<AllocError> for ProgramFault {
    fn from(_: AllocError) -> ProgramFault {
        ProgramFault::OutOfMemory
    }
}
