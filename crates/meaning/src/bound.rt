//! Limits with their causes, and the lesser of two.

ghost use Rattle.std.specs.Prelude.{◌≡◌, ℕ, [], ◌∷◌};
ghost use Rattle.std.specs.List.{filter_map};
ghost use Rattle.profile.specs.Greatest.{greatest};
ghost use Rattle.meaning.specs.Cause.{lesser, with_limit};
ghost use Rattle.meaning.specs.ByCases.Cause.{profile_limit_of, level_of_limit, lesser_bound};

use crate::cause::{Cause, PrevailingProfile};
use profile::Row;
use std::marker::Model;

/// A limit in tenths, with its cause.
#[derive(Drop)]
pub struct Bound {
    pub limit: u32,
    pub cause: Cause,
}

impl Model for Bound {
    ghost use Rattle.meaning.specs.Cause.{Bound};

    ghost Value = { Bound };

    ghost view = { λ b. record { limit = b.limit; cause = b.cause } };
}

impl Bound {
    /// Returns the lesser of two bounds, or the first of equals.
    pub fn or_less(self, second: Bound) -> Bound
        ensures { result ≡ lesser self second }
    {
        if second.limit < self.limit {
            second
        } else {
            self
        }
    }
}

/// A profile that prevails, with its limit in tenths.
#[derive(Clone, Copy)]
pub struct ProfileLimit {
    pub profile: PrevailingProfile,
    pub limit: u32,
}

impl ProfileLimit {
    /// Makes a limit of a row's profile.
    pub fn of(row: &Row, limit: u32) -> ProfileLimit
        ensures { result ≡ profile_limit_of (with_limit row.now limit) }
    {
        ProfileLimit {
            profile: PrevailingProfile {
                id: row.profile.id,
                purpose: row.profile.purpose,
                stack_level: row.profile.stack_level,
                connector: row.connector,
            },
            limit,
        }
    }
}

/// Returns the lesser of a profile's limit, if there is one, and a bound, or the first of equals.
pub fn lesser_of(best: Option<ProfileLimit>, other: Bound) -> Bound
    ensures { result ≡ lesser_bound best other }
{
    match best {
        Some(best) => {
            // The profile comes first: of equal bounds it is the cause, since an operator can
            // change it.
            let first = Bound {
                limit: best.limit,
                cause: Cause::Profile(best.profile),
            };
            first.or_less(other)
        }
        None => other,
    }
}

/// Returns, of two profiles with their limits, the one with the higher stack level, or the first of
/// equals, or the only one. For the definition of the profile that prevails (chapter 3.13).
pub(crate) fn higher_level(
    best: Option<ProfileLimit>,
    next: Option<ProfileLimit>,
) -> Option<ProfileLimit>
    ensures { result ≡ greatest level_of_limit (filter_map (λ limit. limit) (best ∷ (next ∷ []))) }
{
    match (best, next) {
        (Some(first), Some(second)) if first.profile.stack_level < second.profile.stack_level => {
            Some(second)
        }
        (None, _) => next,
        (Some(_), _) => best,
    }
}
