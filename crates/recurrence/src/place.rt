//! The places of a profile in an interval of time, in order.

ghost use Rattle.std.specs.Prelude.{◌≡◌, [], IfNone, IfSome};
ghost use Rattle.std.specs.Iterator.{YieldsFirst, item_count};
ghost use Rattle.recurrence.specs.ByCases.Occurrence.{IsNextPeriod, IsOccurrence};
ghost use Rattle.recurrence.specs.ByCases.Places.{IsFirstPlace};
ghost use Rattle.recurrence.specs.Places.{places_after};

use crate::occurrence::{Occurrence, next_period, occurrence_at};
use crate::places::next_change;
use ocpp_scalars::Instant;
use profile::Profile;
use std::marker::Model;

/// An instant at which the limit of a profile can change.
#[derive(Clone, Copy, PartialEq, Eq)]
pub struct Place {
    pub instant: Instant,
    /// The limit from there on, in tenths of A or W, or `None` if the profile has none.
    pub rate: Option<u32>,
}

/// An iterator over the places of a profile later than an instant and up to a last one, inclusive,
/// in order (chapters 3.13 and 7). It never walks through the occurrences of a recurring profile to
/// find the next place. Allocates nothing.
#[derive(Drop)]
pub struct Places<'a> {
    profile: &'a Profile,
    base: Instant,
    /// The places up to this instant have been yielded.
    after: Instant,
    last: Instant,
    occurrence: Occurrence,
}

impl<'a> Model for Places<'a> {
    ghost use Rattle.std.specs.Prelude.{List};
    ghost use Rattle.recurrence.specs.declared.place.Place.{Place};
    ghost use Rattle.recurrence.specs.Places.{places_after};
    ghost use Rattle.recurrence.specs.ByCases.Occurrence.{IsOccurrence};

    ghost Value = { List Place };

    ghost view = { λ p. places_after p.profile.now p.base p.after p.last };

    ghost invariant = { λ p. IsOccurrence p.profile.now p.base p.after p.occurrence };
}

impl<'a> Places<'a> {
    ghost use Rattle.recurrence.specs.Places.{places_after};

    /// Makes an iterator over the places of a profile, counted from a base, later than `after` and
    /// up to `last`.
    pub fn new(profile: &'a Profile, base: Instant, after: Instant, last: Instant) -> Places<'a>
        ensures { result ≡ places_after profile.now base after last }
    {
        Places {
            profile,
            base,
            after,
            last,
            occurrence: occurrence_at(profile, base, after),
        }
    }
}

impl Iterator for Places<'_> {
    type Item = Place;

    ghost next_gives = { YieldsFirst (λ left. left) };

    ghost remaining = { item_count (λ left. left) };

    fn next(&mut self) -> Option<Place> {
        let next = next_place(
            self.profile,
            self.base,
            self.after,
            self.last,
            self.occurrence,
        )?;
        let (place, occurrence) = next;
        self.after = place.instant;
        self.occurrence = occurrence;
        Some(place)
    }
}

/// Returns the next place of a charging profile, at which its limit can change, and the occurrence
/// of its (perhaps Recurring) schedule from there on. For the schedule compiler's sweep.
fn next_place(
    profile: &Profile,
    base: Instant,
    after: Instant,
    last: Instant,
    occurrence: Occurrence,
) -> Option<(Place, Occurrence)>
    requires { IsOccurrence profile.now base after occurrence }
    ensures some { IfSome result (λ next.
        IsNextPeriod profile.now base after last next.0 next.1) }
    ensures none { IfNone result (places_after profile.now base after last ≡ []) }
{
    // The common case: before the fence it needs no division, no search and no test of the
    // validity.
    if let Some(next) = next_period(profile, base, after, last, occurrence) {
        return Some(next);
    }
    let instant = first_place(profile, base, after, last)?;
    let rate = profile.rate(base, instant);
    Some((
        Place { instant, rate },
        occurrence_at(profile, base, instant),
    ))
}

/// Returns the first place of a charging profile, at which its limit can change, later than an
/// instant and up to a last one. For the schedule compiler's sweep.
fn first_place(profile: &Profile, base: Instant, instant: Instant, last: Instant) -> Option<Instant>
    ensures { IsFirstPlace profile.now base instant last result }
{
    let next = next_change(profile, base, instant)?;
    if next <= last { Some(next) } else { None }
}
