//! Reads the fields of a charging profile.
ghost use Rattle.std.specs.Prelude.{◌≡◌, option_map};
ghost use Rattle.ocppj_frame.specs.Payload.{entries_in, tree_at};
ghost use Rattle.messages.specs.ProfileFields.{period_of, periods_of, schedule_of, profile_of, optional_profile_of};
ghost use Rattle.ocpp_scalars.specs.Reading.{ReadsUnless};
ghost use Rattle.messages.specs.CallFault.{is_memory};

use crate::call_fault::CallFault;
use crate::field_name::FieldName::{
    ChargingProfileId, ChargingProfileKind, ChargingProfilePurpose, ChargingRateUnit,
    ChargingSchedule, ChargingSchedulePeriod, Duration, Limit, MinChargingRate, NumberPhases,
    RecurrencyKind, StackLevel, StartPeriod, StartSchedule, TransactionId, ValidFrom, ValidTo,
};
use crate::fields::{
    instant, one_name_of, required_list, required_object, tenths, whole, whole_from_zero,
};
use ocppj_frame::{Entries, Node};
use profile::{Period, PeriodList, ProfileParts, ScheduleParts};
use std::alloc::Global;

/// Reads the fields of a profile (chapter 7, ChargingProfile), or returns the first fault.
#[tactic(auto, unfolding(crate::specs::ProfileFields::profile_of))]
pub fn read_profile(alloc: Global, fields: Node<'_, '_>) -> Result<ProfileParts, CallFault>
    ensures { ReadsUnless is_memory (λ parts. parts) result
        (profile_of (tree_at fields.entry)) }
{
    let id = whole(fields, ChargingProfileId).required()?;
    let transaction = whole(fields, TransactionId).optional()?;
    let stack_level = whole_from_zero(fields, StackLevel).required()?;
    let purpose = one_name_of(fields, ChargingProfilePurpose).required()?;
    let kind = one_name_of(fields, ChargingProfileKind).required()?;
    // Checked for each kind of profile. A field without a meaning for the kind is dropped later.
    let recurrency = one_name_of(fields, RecurrencyKind).optional()?;
    let valid_from = instant(fields, ValidFrom).optional()?;
    let valid_to = instant(fields, ValidTo).optional()?;
    let schedule_fields = required_object(fields, ChargingSchedule)?;
    let schedule = read_schedule(alloc, schedule_fields)?;
    Ok(ProfileParts {
        id,
        transaction,
        stack_level,
        purpose,
        kind,
        recurrency,
        valid_from,
        valid_to,
        schedule,
    })
}

/// Reads the fields of a profile that may be absent.
pub fn read_optional_profile(
    alloc: Global,
    fields: Option<Node<'_, '_>>,
) -> Result<Option<ProfileParts>, CallFault>
    ensures { ReadsUnless is_memory (λ parts. parts) result
        (optional_profile_of (option_map tree_at fields.entry)) }
{
    match fields {
        Some(fields) => Ok(Some(read_profile(alloc, fields)?)),
        None => Ok(None),
    }
}

/// Reads the fields of a schedule (chapter 7, ChargingSchedule), or returns the first fault.
#[tactic(auto, unfolding(crate::specs::ProfileFields::schedule_of))]
pub fn read_schedule(alloc: Global, fields: Node<'_, '_>) -> Result<ScheduleParts, CallFault>
    ensures { ReadsUnless is_memory (λ parts. parts) result
        (schedule_of (tree_at fields.entry)) }
{
    let duration = whole_from_zero(fields, Duration).optional()?;
    let start = instant(fields, StartSchedule).optional()?;
    let unit = one_name_of(fields, ChargingRateUnit).required()?;
    let entries = required_list(fields, ChargingSchedulePeriod)?;
    let periods = read_periods(alloc, entries)?;
    let min_charging_rate = tenths(fields, MinChargingRate).optional()?;
    Ok(ScheduleParts {
        duration,
        start,
        unit,
        periods,
        min_charging_rate,
    })
}

/// Reads the periods of a chargingSchedule, in order, from the payload of a CALL or of a charge
/// point's reply to one, or returns the first fault.
fn read_periods(alloc: Global, entries: Entries<'_, '_>) -> Result<PeriodList, CallFault>
    ensures { ReadsUnless is_memory (λ periods. periods) result
        (periods_of (entries_in entries.entry)) }
{
    let mut periods = Vec::new(alloc);
    for entry in entries.iter() {
        periods.push(read_period(entry)?)?;
    }
    match PeriodList::try_new(periods)? {
        Some(periods) => Ok(periods),
        // An empty list that is required counts as absent.
        None => Err(CallFault::OccurenceConstraintViolation(ChargingSchedulePeriod)),
    }
}

/// Reads a ChargingSchedulePeriod (OCPP 1.6, chapter 7) from the payload of a CALL or of a charge
/// point's reply to one, or returns the first fault.
#[tactic(auto, unfolding(crate::specs::ProfileFields::period_of))]
fn read_period(fields: Node<'_, '_>) -> Result<Period, CallFault>
    ensures { result ≡ period_of (tree_at fields.entry) }
{
    if !fields.is_object() {
        return Err(CallFault::TypeConstraintViolation(ChargingSchedulePeriod));
    }
    let start = whole_from_zero(fields, StartPeriod).required()?;
    let limit = tenths(fields, Limit).required()?;
    let number_phases = whole_from_zero(fields, NumberPhases).optional()?;
    Ok(Period {
        start,
        limit,
        number_phases,
    })
}
