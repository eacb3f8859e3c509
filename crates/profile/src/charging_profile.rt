//! A well-formed charging profile, and its limit at an instant.

ghost use Rattle.std.specs.Prelude.{◌≡◌, ◌↔◌, ℕ, nat_le, true, Some, IsTrue, IfErr, IfOk, MatchResult, Ok, Err};
ghost use Rattle.profile.specs.Limits.{max_stack_level};
ghost use Rattle.profile.specs.Purpose.{is_tx, transaction_of};
ghost use Rattle.profile.specs.Kind.{start_of};

use crate::kind::Kind;
use crate::parts::ProfileParts;
use crate::periods::{MAX_PERIODS, Periods, are_in_order};
use crate::purpose::Purpose;
use crate::schedule::Schedule;
use ocpp_scalars::{Instant, Refusal};
use std::alloc::AllocError;

/// The highest stack level.
pub const MAX_STACK_LEVEL: u32 = 99;

/// A well-formed charging profile (chapter 7, ChargingProfile).
#[derive(Drop)]
pub struct Profile {
    /// chargingProfileId.
    pub id: i32,
    /// transactionId; only a TxProfile has one.
    pub transaction: Option<i32>,
    pub stack_level: u32,
    /// chargingProfilePurpose.
    pub purpose: Purpose,
    /// chargingProfileKind, with its recurrencyKind.
    pub kind: Kind,
    /// The first instant at which the profile is valid.
    pub valid_from: Option<Instant>,
    /// The first instant at which the profile is no longer valid.
    pub valid_to: Option<Instant>,
    /// chargingSchedule.
    pub schedule: Schedule,
    pub ghost low: { IsTrue (nat_le stack_level max_stack_level) },
    pub ghost own_transaction: { transaction_of purpose transaction ≡ transaction },
    pub ghost own_start: { start_of kind schedule.start ≡ schedule.start },
}

impl Profile {
    ghost use Rattle.profile.specs.Parts.{IsProfileOf, profile_of_parts};
    ghost use Rattle.profile.specs.ByCases.Same.{HaveSameKeys, HaveSameTimes};
    ghost use Rattle.profile.specs.ChargingProfile.{with_transaction, anchor, offset, is_valid_at, rate_within, rate};

    /// Makes a well-formed profile of these parts. Fields of another purpose or kind are dropped: a
    /// transactionId unless it is a TxProfile, a recurrencyKind unless it is Recurring, and the
    /// startSchedule of a Relative one. A refusal returns the parts with its first cause:
    /// `LevelTooHigh`, `TooManyPeriods`, `PeriodsOutOfOrder` or `NoRecurrency`.
    pub fn try_new(parts: ProfileParts) -> Result<Profile, (Refusal, ProfileParts)>
        ensures made { MatchResult result
            (λ profile. profile_of_parts parts ≡ Ok profile)
            (λ refused. profile_of_parts parts ≡ Err refused.0) }
        ensures fields { IfOk result (λ profile. IsProfileOf parts profile) }
        ensures back { IfErr result (λ refused. refused.1 ≡ parts) }
    {
        // In the order of `part_causes`: parts with several faults are refused for the first of
        // them.
        if parts.stack_level > MAX_STACK_LEVEL {
            return Err((Refusal::LevelTooHigh, parts));
        }
        let periods = parts.schedule.periods.as_slice();
        if periods.len() > MAX_PERIODS {
            return Err((Refusal::TooManyPeriods, parts));
        }
        if !are_in_order(periods) {
            return Err((Refusal::PeriodsOutOfOrder, parts));
        }
        let Some(kind) = Kind::of(parts.kind, parts.recurrency) else {
            return Err((Refusal::NoRecurrency, parts));
        };
        let schedule = parts.schedule;
        Ok(Profile {
            id: parts.id,
            transaction: parts.purpose.transaction_of(parts.transaction),
            stack_level: parts.stack_level,
            purpose: parts.purpose,
            kind,
            valid_from: parts.valid_from,
            valid_to: parts.valid_to,
            schedule: Schedule {
                duration: schedule.duration,
                start: kind.start_of(schedule.start),
                unit: schedule.unit,
                periods: Periods::new(schedule.periods),
                min_charging_rate: schedule.min_charging_rate,
            },
        })
    }

    /// Sets the transaction of a TxProfile to the one of this number, whichever it named before. A
    /// profile of another purpose is unchanged. Allocates nothing.
    pub fn with_transaction(self, id: i32) -> Profile
        ensures profile { result ≡ with_transaction self id }
        ensures transaction { is_tx self.purpose ≡ true → result.transaction ≡ Some id }
    {
        Profile {
            id: self.id,
            transaction: self.purpose.transaction_of(Some(id)),
            stack_level: self.stack_level,
            purpose: self.purpose,
            kind: self.kind,
            valid_from: self.valid_from,
            valid_to: self.valid_to,
            schedule: self.schedule,
        }
    }

    /// Returns a copy, which shares the periods.
    pub fn copy(&self) -> Result<Profile, AllocError>
        ensures { IfOk result (λ copy. copy ≡ self.now) }
    {
        let schedule = self.schedule.copy()?;
        Ok(Profile {
            id: self.id,
            transaction: self.transaction,
            stack_level: self.stack_level,
            purpose: self.purpose,
            kind: self.kind,
            valid_from: self.valid_from,
            valid_to: self.valid_to,
            schedule,
        })
    }

    /// Copies a profile if there is one.
    pub fn copy_if_any(profile: &Option<Profile>) -> Result<Option<Profile>, AllocError>
        ensures { IfOk result (λ copy. copy ≡ profile.now) }
    {
        match profile {
            Some(profile) => Ok(Some(profile.copy()?)),
            None => Ok(None),
        }
    }

    /// Whether two profiles are equal.
    pub fn same(&self, other: &Profile) -> bool
        ensures { IsTrue result ↔ (self.now ≡ other.now) }
    {
        self.has_keys_of(other) && self.has_times_of(other) && self.schedule.same(&other.schedule)
    }

    /// Whether two well-formed charging profiles have the same chargingProfileId, transactionId,
    /// stack level and purpose, as one part of being the same.
    // Compared in groups: the prover doesn't decide one `&&` over all fields by itself.
    fn has_keys_of(&self, other: &Profile) -> bool
        ensures { IsTrue result ↔ HaveSameKeys self.now other.now }
    {
        self.id == other.id
            && self.transaction == other.transaction
            && self.stack_level == other.stack_level
            && self.purpose == other.purpose
    }

    /// Whether two well-formed charging profiles have the same kind, validFrom and validTo, as one
    /// part of being the same.
    fn has_times_of(&self, other: &Profile) -> bool
        ensures { IsTrue result ↔ HaveSameTimes self.now other.now }
    {
        self.kind == other.kind
            && self.valid_from == other.valid_from
            && self.valid_to == other.valid_to
    }

    /// Returns the instant from which the profile counts: its startSchedule if it has one and isn't
    /// Relative, otherwise the base.
    pub fn anchor(&self, base: Instant) -> Instant
        ensures { result ≡ anchor self.now base }
    {
        self.kind.start_of(self.schedule.start).unwrap_or(base)
    }

    /// Returns the seconds from the start of the profile's schedule, or `None` before its anchor.
    pub fn offset(&self, base: Instant, instant: Instant) -> Option<u64>
        ensures { result ≡ offset self.now base instant }
    {
        let anchor = self.anchor(base);
        // A Recurring profile doesn't reach back before its anchor either: it would begin before it
        // was meant to.
        if instant < anchor {
            return None;
        }
        Some(self.kind.offset_after(instant.seconds() - anchor.seconds()))
    }

    /// Returns the limit at an instant, in tenths, counted from a base, or `None` if the profile
    /// has none: outside its validity, before its anchor, from the end of its duration on, or
    /// before its first period.
    pub fn rate(&self, base: Instant, instant: Instant) -> Option<u32>
        ensures { result ≡ rate self.now base instant }
    {
        if !self.is_valid_at(instant) {
            return None;
        }
        let offset = self.offset(base, instant)?;
        self.rate_within(offset)
    }

    /// Whether an instant is within validFrom and validTo, each only if given.
    pub fn is_valid_at(&self, instant: Instant) -> bool
        ensures { result ≡ is_valid_at self.now instant }
    {
        self.valid_from.is_none_or(|from| from <= instant)
            && self.valid_to.is_none_or(|to| instant < to)
    }

    /// Returns the limit of a well-formed charging profile at an offset in its own schedule, or
    /// `None` from the end of the schedule's duration on.
    fn rate_within(&self, offset: u64) -> Option<u32>
        ensures { result ≡ rate_within self.now offset }
    {
        if let Some(duration) = self.schedule.duration {
            if offset >= u64::from(duration) {
                return None;
            }
        }
        self.schedule.periods.limit_in_force(offset)
    }
}
