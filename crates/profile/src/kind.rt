//! The kinds of profiles, and how each counts its seconds.

ghost use Rattle.std.specs.Prelude.{◌≡◌, ℕ};
ghost use Rattle.profile.specs.Kind.{recurrence_length, kind_of, start_of, offset_after};

use ocpp_scalars::Instant;

/// The recurrence of a Recurring schedule (chapter 7, RecurrencyKindType).
#[derive(Clone, Copy, PartialEq, Eq)]
pub enum Recurrency {
    /// Every 86,400 seconds.
    Daily,
    /// Every 604,800 seconds.
    Weekly,
}

impl Recurrency {
    /// Returns the seconds after which the schedule begins again.
    pub fn length(self) -> u64
        ensures { result ≡ recurrence_length self }
    {
        match self {
            Recurrency::Daily => 86_400,
            Recurrency::Weekly => 604_800,
        }
    }
}

/// The field chargingProfileKind of a received profile (chapter 7, ChargingProfileKindType).
#[derive(Clone, Copy, PartialEq, Eq)]
pub enum ProfileKind {
    Absolute,
    Recurring,
    Relative,
}

/// How a well-formed profile counts its seconds: chargingProfileKind, with its recurrencyKind if it
/// is Recurring.
#[derive(Clone, Copy, PartialEq, Eq)]
pub enum Kind {
    /// From its anchor on: the startSchedule, or the base if it has none.
    Absolute,
    /// From its anchor on, beginning again every day or week.
    Recurring(Recurrency),
    /// From its base on, such as the start of a transaction; it has no startSchedule.
    Relative,
}

impl Kind {
    /// Returns the kind of a profile with these fields, or `None` if a Recurring one lacks its
    /// recurrencyKind.
    pub fn of(kind: ProfileKind, recurrency: Option<Recurrency>) -> Option<Kind>
        ensures { result ≡ kind_of kind recurrency }
    {
        match kind {
            ProfileKind::Absolute => Some(Kind::Absolute),
            ProfileKind::Recurring => recurrency.map(Kind::Recurring),
            ProfileKind::Relative => Some(Kind::Relative),
        }
    }

    /// Returns the startSchedule that a profile of this kind keeps.
    pub fn start_of(self, start: Option<Instant>) -> Option<Instant>
        ensures { result ≡ start_of self start }
    {
        match self {
            Kind::Absolute | Kind::Recurring(_) => start,
            Kind::Relative => None,
        }
    }

    /// Returns the offset in the schedule of a profile of this kind, from the seconds since its
    /// anchor.
    pub fn offset_after(self, seconds: u64) -> u64
        ensures { result ≡ offset_after self seconds }
    {
        match self {
            // Seconds and not days of a time zone: a change to summer time moves no schedule.
            Kind::Absolute | Kind::Relative => seconds,
            Kind::Recurring(recurrency) => seconds % recurrency.length(),
        }
    }
}
