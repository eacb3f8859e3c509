//! The jobs of a command line.

/// The job that a command line requests.
#[derive(Clone, Copy)]
pub enum Job<'a> {
    /// Play a script on the site of a file.
    Replay(Replaying<'a>),
    /// Serve the site of a file to clients.
    Serve(Serving<'a>),
    /// Run the site of a file, and continue where it stopped.
    Run(Running<'a>),
    /// Print the journal of a folder as a script.
    Journal { folder: &'a str },
    /// Make a key.
    Key(KeyMaking<'a>),
    /// Send an operator's calls.
    Call(Calling<'a>),
    /// Simulate a charge point.
    Point(Pointing<'a>),
    /// Explain the limits of a connector.
    Explain(Explaining<'a>),
    /// Report the faults of a site file and a script.
    Check(Checking<'a>),
    /// Show the state of the points.
    Show(Showing<'a>),
    /// Show the state of a running site, by the URL of its status port.
    Status { url: &'a str },
}

/// The options for serving a site.
#[derive(Clone, Copy)]
pub struct Serving<'a> {
    /// The site's file.
    pub site: &'a str,
    /// The address to listen at: a host and a port.
    pub listen: &'a str,
    /// The number of workers that compile schedules.
    pub workers: u64,
    /// The number of connections after which the program ends.
    pub sessions: u64,
}

/// The source of a script.
#[derive(Clone, Copy)]
pub enum Source<'a> {
    /// Standard input.
    Input,
    /// This file.
    File(&'a str),
    /// The journal of this folder.
    Journal(&'a str),
}

/// The script to play, and its site.
#[derive(Clone, Copy)]
pub struct Replaying<'a> {
    /// The site's file.
    pub site: &'a str,
    /// The source of the script.
    pub source: Source<'a>,
}

/// The options for running a site.
#[derive(Clone, Copy)]
pub struct Running<'a> {
    /// The site's file.
    pub site: &'a str,
    /// The folder of its journal.
    pub folder: &'a str,
    /// The address to listen at: a host and a port.
    pub listen: &'a str,
    /// The number of connections served at a time.
    pub seats: u64,
    /// The number of workers that compile schedules.
    pub workers: u64,
    /// The number of seconds that a call waits for its reply.
    pub call_timeout: u64,
    /// The file of the keys of the clients that may connect.
    pub keys: Option<&'a str>,
    /// The address of the status port, if it has one.
    pub status: Option<&'a str>,
    /// Whether that address may be one other than this machine's own.
    pub is_status_open: bool,
    /// The word for what a point gets again after a boot, if one is given.
    pub after_boot: Option<&'a str>,
}

/// The owner of the key to make.
#[derive(Clone, Copy)]
pub struct KeyMaking<'a> {
    /// The point's identity, or the operator's name.
    pub name: &'a str,
    pub is_operator: bool,
}

/// The calls that an operator's client sends: those given here, or else the lines of standard
/// input.
#[derive(Clone, Copy)]
pub struct Calling<'a> {
    /// The URL to which it connects.
    pub url: &'a str,
    /// The file of its name and its key.
    pub login: Option<&'a str>,
    /// Whether the calls go to each point of a site.
    pub all: bool,
    /// The file of that site.
    pub site: Option<&'a str>,
    /// The folder of that site, whose journal is used to check calls.
    pub folder: Option<&'a str>,
    /// The file of a SetChargingProfile's payload.
    pub set_profile: Option<&'a str>,
    /// A ClearChargingProfile's payload.
    pub clear: Option<&'a str>,
    /// A RemoteStartTransaction.
    pub remote_start: Option<Starting<'a>>,
    /// A GetCompositeSchedule.
    pub ask: Option<Asking<'a>>,
    /// An AuditPoint.
    pub audit: Option<Asking<'a>>,
    /// Whether a PointStatus is sent.
    pub status: bool,
    /// The number of the journal's line to undo.
    pub undo: Option<u64>,
    /// For how many seconds the points' replies are awaited.
    pub wait: Option<u64>,
    /// Whether faulty calls are sent, too.
    pub force: bool,
    /// Whether nothing is sent, and the calls are only printed.
    pub dry_run: bool,
}

/// A request for a schedule: the texts of a connector and of a duration in seconds.
#[derive(Clone, Copy)]
pub struct Asking<'a> {
    pub connector: &'a str,
    pub seconds: &'a str,
}

/// A transaction to start at a connector, by an idTag.
#[derive(Clone, Copy)]
pub struct Starting<'a> {
    /// The text of the connector.
    pub connector: &'a str,
    pub id_tag: &'a str,
    /// The file of its TxProfile.
    pub profile: Option<&'a str>,
}

/// A simulated charge point.
#[derive(Clone, Copy)]
pub struct Pointing<'a> {
    /// The central system's URL, without the point's identity.
    pub url: &'a str,
    /// The file of the site.
    pub site: &'a str,
    /// The point's identity.
    pub id: &'a str,
    /// The file of its name and its key.
    pub login: Option<&'a str>,
}

/// The schedule to explain, and how.
#[derive(Clone, Copy)]
pub struct Explaining<'a> {
    /// The file of the site.
    pub site: &'a str,
    /// The point's identity.
    pub point: &'a str,
    /// The connector, 0 being the whole point.
    pub connector: u64,
    /// The text of the start, as `Start::of` reads it.
    pub start: &'a str,
    /// The text of the duration, as `read_duration` reads it.
    pub duration: &'a str,
    /// The source of the script.
    pub source: Source<'a>,
    /// The text of the end up to which the script is played: a number of lines, or an instant. None
    /// for the whole script.
    pub at: Option<&'a str>,
    /// The time zone of the times in the table.
    pub zone: Option<&'a str>,
    /// The file of the picture to write.
    pub picture: Option<&'a str>,
    /// Whether the output is JSON.
    pub json: bool,
}

/// The site to check, with a file of keys and a script.
#[derive(Clone, Copy)]
pub struct Checking<'a> {
    /// The file of the site.
    pub site: &'a str,
    /// The file of the keys of the clients that may connect.
    pub keys: Option<&'a str>,
    /// The source of the script.
    pub source: Source<'a>,
    /// Whether to show the answer to each line of the script.
    pub trace: bool,
}

/// The site to show, and how.
#[derive(Clone, Copy)]
pub struct Showing<'a> {
    /// The file of the site.
    pub site: &'a str,
    /// The source of the script.
    pub source: Source<'a>,
    /// The text of the end up to which the script is played: a number of lines, or an instant. None
    /// for the whole script.
    pub at: Option<&'a str>,
    /// Whether the output is JSON.
    pub json: bool,
}

impl Calling<'_> {
    /// Returns whether an option gives a call to send.
    pub fn gives_calls(&self) -> bool {
        self.set_profile.is_some()
            || self.clear.is_some()
            || self.remote_start.is_some()
            || self.ask.is_some()
            || self.audit.is_some()
            || self.status
            || self.undo.is_some()
    }
}
