//! A row on its way through a request.

ghost use Rattle.std.specs.Prelude.{◌≡◌, option_map};
ghost use Rattle.meaning.specs.ByCases.Cause.{profile_limit_of};
ghost use Rattle.sweep_compiler.specs.ByCases.Running.{rate_running, row_running, due, passed, rank_running};

use meaning::ProfileLimit;
use ocpp_scalars::Instant;
use profile::{MAX_STACK_LEVEL, Purpose, Row};
use recurrence::{Place, Places};
use std::marker::Model;

/// A row that counts for a request, its limit at the last of its places that was passed, and its
/// later places.
#[derive(Drop)]
pub(crate) struct Run<'a> {
    row: &'a Row,
    base: Instant,
    since: Instant,
    last: Instant,
    rate: Option<u32>,
    next: Option<Place>,
    later: Places<'a>,
}

impl<'a> Model for Run<'a> {
    ghost use Rattle.sweep_compiler.specs.ByCases.Running.{Running, IsRun};

    ghost Value = { Running };

    ghost view = { λ r. record {
      row = r.row.now;
      base = r.base;
      since = r.since;
      last = r.last;
    } };

    ghost invariant = { λ r. IsRun
        (record { row = r.row.now; base = r.base; since = r.since; last = r.last })
        r.rate r.next r.later };
}

impl<'a> Run<'a> {
    /// Makes the run of an installed profile through the schedule compiler's sweep, from an instant
    /// on and counted from a base: its places (changes of its limit) up to a last one.
    pub(crate) fn new(row: &'a Row, base: Instant, start: Instant, last: Instant) -> Run<'a>
        ensures { result ≡ record { row = row.now; base = base; since = start; last = last } }
    {
        let mut later = Places::new(&row.profile, base, start, last);
        let next = later.next();
        Run {
            row,
            base,
            since: start,
            last,
            rate: row.profile.rate(base, start),
            next,
            later,
        }
    }

    /// Returns the rank of an installed profile in the schedule compiler's sweep: a TxProfile comes
    /// before any TxDefaultProfile, and of one purpose the higher stack level first (chapter 3.13).
    pub(crate) fn rank(&self) -> u32
        ensures { result ≡ rank_running self.now }
    {
        let level = self.row.profile.stack_level;
        match self.row.profile.purpose {
            Purpose::TxProfile => MAX_STACK_LEVEL + 1 + level,
            Purpose::TxDefaultProfile | Purpose::ChargePointMaxProfile => level,
        }
    }

    /// Returns the limit of an installed profile since the last of its places (changes of its
    /// limit) that the schedule compiler's sweep passed.
    pub(crate) fn rate(&self) -> Option<u32>
        ensures { result ≡ rate_running self.now }
    {
        self.rate
    }

    /// Returns an installed profile with its limit, if it has one, at the current instant of the
    /// schedule compiler's sweep.
    pub(crate) fn profile_limit(&self) -> Option<ProfileLimit>
        ensures { result ≡ option_map profile_limit_of (row_running self.now) }
    {
        let limit = self.rate?;
        Some(ProfileLimit::of(self.row, limit))
    }

    /// Returns the limit of an installed profile from its next place in the schedule compiler's
    /// sweep on, or its present limit without one.
    pub(crate) fn next_rate(&self) -> Option<u32>
        ensures { result ≡ rate_running (passed self.now) }
    {
        match self.next {
            Some(place) => place.rate,
            None => self.rate,
        }
    }

    /// Returns the instant of an installed profile's next place in the schedule compiler's sweep,
    /// at which its limit can change.
    pub(crate) fn due(&self) -> Option<Instant>
        ensures { result ≡ due self.now }
    {
        Some(self.next?.instant)
    }

    /// Moves an installed profile past its next place in the schedule compiler's sweep, if there is
    /// one.
    pub(crate) fn pass(&mut self)
        ensures { self.new ≡ passed self.old }
    {
        let Some(place) = self.next else {
            return;
        };
        let instant = place.instant;
        let rate = place.rate;
        self.next = self.later.next();
        self.since = instant;
        self.rate = rate;
    }
}
