//! The limit of a profile at an instant, and the next instant at which it can change.

ghost use Rattle.std.specs.Prelude.{◌≡◌, ℕ};
ghost use Rattle.profile.specs.ChargingProfile.{offset, rate};
ghost use Rattle.profile.specs.Places.{is_at, is_turn_at, is_place};
ghost use Rattle.recurrence.specs.ByCases.Next.{IsNext};
ghost use Rattle.recurrence.specs.NextChange.{IsNextPlace, HasOneRateUntil};

use crate::next::{later, sooner};
use crate::turns::next_turn_after;
use ocpp_scalars::Instant;
use profile::Profile;

/// Returns the limit of a profile at an instant, in tenths of A or W, counted from a base, or
/// `None` if it has none (chapters 3.13 and 7).
pub fn rate_at(profile: &Profile, base: Instant, instant: Instant) -> Option<u32>
    ensures { result ≡ rate profile.now base instant }
{
    profile.rate(base, instant)
}

/// Returns the nearest later instant at which the limit of a profile can change: its validFrom or
/// validTo, or when its schedule begins, enters a period or ends (chapters 3.13 and 7). `None` if
/// there is no such instant up to the last one. From `instant` up to there the limit is constant.
pub fn next_change(profile: &Profile, base: Instant, instant: Instant) -> Option<Instant>
    ensures place { IsNextPlace profile.now base instant result }
    ensures rate { HasOneRateUntil profile.now base instant result }
{
    let place = next_place(profile, base, instant)?;
    Instant::try_new(place)
}

/// Returns the next second at which a charging profile's limit can change, which may be past the
/// last instant.
fn next_place(profile: &Profile, base: Instant, instant: Instant) -> Option<u64>
    ensures { IsNext (is_place profile.now base) instant result }
{
    let from = next_bound(profile.valid_from, instant);
    let to = next_bound(profile.valid_to, instant);
    let turn = next_turn(profile, base, instant);
    sooner(from, sooner(to, turn))
}

/// Returns a charging profile's validFrom or validTo, in seconds, if it is later than an instant:
/// the profile's limit can change there next.
fn next_bound(bound: Option<Instant>, instant: Instant) -> Option<u64>
    ensures { IsNext (λ (k : ℕ). is_at k bound) instant result }
{
    later(bound?.seconds(), instant.seconds())
}

/// Returns the next second at which a charging profile's schedule turns (starts, ends or comes to a
/// period): its anchor, if that is still to come, otherwise the next turn after it.
fn next_turn(profile: &Profile, base: Instant, instant: Instant) -> Option<u64>
    ensures { IsNext
        (λ (k : ℕ). is_turn_at profile.now.schedule (offset profile.now base k))
        instant result }
{
    let anchor = profile.anchor(base).seconds();
    let second = instant.seconds();
    if second < anchor {
        return Some(anchor);
    }
    let next = next_turn_after(profile.kind, &profile.schedule, second - anchor)?;
    Some(anchor + next)
}
