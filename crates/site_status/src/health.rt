//! The health of a site.

ghost use Rattle.std.specs.Prelude.{◌≡◌};
ghost use Rattle.site_status.specs.Health.{health_of, status_of};

use crate::journal_report::JournalState;

/// The health of a site: whether it is well, or why not.
#[derive(Clone, Copy, PartialEq, Eq)]
pub enum Health {
    Well,
    /// Its state is being restored from the journal.
    Restoring,
    /// The device of its journal is full: changes are refused.
    DeviceFull,
    /// The content of its journal is unknown: the program ends.
    JournalBroken,
}

impl Health {
    /// Returns the health by the state of the journal, which is known only after the site's state
    /// is restored.
    pub fn of(journal: Option<JournalState>) -> Health
        ensures { result ≡ health_of journal }
    {
        match journal {
            None => Health::Restoring,
            Some(JournalState::Open) => Health::Well,
            Some(JournalState::Full) => Health::DeviceFull,
            Some(JournalState::Broken) => Health::JournalBroken,
        }
    }

    /// Returns the HTTP status for this health (RFC 9110, section 15).
    pub fn status(self) -> u16
        ensures { result ≡ status_of self }
    {
        match self {
            Health::Well => 200,
            Health::Restoring | Health::DeviceFull | Health::JournalBroken => 503,
        }
    }

    /// Returns its name, as programs read it.
    pub fn name(self) -> &'static str {
        match self {
            Health::Well => "ok",
            Health::Restoring => "restoring",
            Health::DeviceFull => "device full",
            Health::JournalBroken => "journal broken",
        }
    }
}
