//! The texts of calls to a charge point, byte for byte.
ghost use Rattle.std.specs.Prelude.{◌≡◌, ◌++◌, [], ◌∷◌, Some, codes, option_map, string_bytes};
ghost use Rattle.std.specs.Fmt.{decimal, signed_decimal};
ghost use Rattle.ocpp_scalars.specs.Appending.{Appends};
ghost use Rattle.messages.specs.CallText.{audit_fields, audit_words, call_text, clear_fields, criteria_given, criteria_text, criterion_words, own_fields, payload_fields, payload_text, period_text, profile_text, profile_words, remote_start_fields, remote_start_words, schedule_text, set_fields, subject_text, tag_words, words_of_profile};
ghost use Rattle.messages.specs.ObjectText.{fields_text};
ghost use Rattle.messages.specs.ByCases.FieldValue.{value_text};
ghost use Rattle.messages.specs.ByCases.ObjectText.{later_fields_text};

use crate::call::{Call, CallBody};
use crate::field_value::{
    FieldValue, purpose, push_value, recurrency, signed, tenths, time, whole,
};
use crate::list_text::{ListItem, push_list};
use crate::names::purpose_name;
use crate::object_text::{push_fields, push_later_fields, push_object};
use ocpp_scalars::IdTag;
use ocppj_frame::{push_call_head, push_frame_end, push_string};
use profile::{Criteria, Period, Profile, Purpose, Schedule, Unit};
use std::alloc::AllocError;

/// Appends the text of a call: a CALL whose message id is the call's number in decimal. Its keys
/// are in a fixed order, without blanks and without absent fields.
pub fn push_call(out: &mut String, call: &Call) -> Result<(), AllocError>
    ensures { Appends result (string_bytes out.old) (string_bytes out.new) (call_text call.now) }
{
    // A reply confirms the call only if its id has exactly these digits.
    let mut digits = itoa::Buffer::new();
    let id = digits.format(call.number);
    push_call_head(out, id, call.body.action())?;
    push_payload(out, &call.body)?;
    push_frame_end(out)
}

/// Appends the payload of a call.
#[tactic(auto, unfolding(crate::specs::ObjectText::object_text))]
pub fn push_payload(out: &mut String, body: &CallBody) -> Result<(), AllocError>
    ensures { Appends result (string_bytes out.old) (string_bytes out.new) (payload_text body.now) }
{
    out.push_str("{")?;
    push_payload_fields(out, body)?;
    out.push_str("}")?;
    Ok(())
}

/// Appends the fields of a call's payload that are present, with commas between them.
pub fn push_payload_fields(out: &mut String, body: &CallBody) -> Result<(), AllocError>
    ensures { Appends result (string_bytes out.old) (string_bytes out.new)
        (fields_text (payload_fields body.now)) }
{
    match body {
        CallBody::Clear(criteria) => push_clear(out, criteria),
        CallBody::Set { connector, profile } => push_set(out, *connector, profile),
        CallBody::Audit {
            connector,
            duration,
            unit,
        } => push_audit(out, *connector, *duration, *unit),
        CallBody::RemoteStart {
            connector,
            id_tag,
            profile,
        } => push_remote_start(out, *connector, id_tag, profile),
    }
}

/// Appends the fields of ClearChargingProfile.req (OCPP 1.6, chapter 6) to the payload of a call
/// that the central system sends to a charge point.
fn push_clear(out: &mut String, criteria: &Criteria) -> Result<(), AllocError>
    ensures { Appends result (string_bytes out.old) (string_bytes out.new)
        (fields_text (clear_fields criteria.now)) }
{
    push_fields(
        out,
        &[
            ("id", signed(criteria.id)),
            ("connectorId", whole(criteria.connector)),
            ("chargingProfilePurpose", purpose(criteria.purpose)),
            ("stackLevel", whole(criteria.stack_level)),
        ],
    )
}

/// Appends the fields of SetChargingProfile.req (OCPP 1.6, chapter 6) to the payload of a call that
/// the central system sends to a charge point.
fn push_set(out: &mut String, connector: u32, profile: &Profile) -> Result<(), AllocError>
    ensures { Appends result (string_bytes out.old) (string_bytes out.new)
        (fields_text (set_fields connector profile.now)) }
{
    push_fields(out, &[("connectorId", Some(FieldValue::Whole(connector)))])?;
    out.push_str(r#","csChargingProfiles":"#)?;
    push_profile(out, profile)?;
    Ok(())
}

/// Appends the fields of GetCompositeSchedule.req (OCPP 1.6, chapter 6) to the payload of the call
/// by which the central system audits a charge point. The duration is in seconds.
fn push_audit(out: &mut String, connector: u32, duration: u32, unit: Unit) -> Result<(), AllocError>
    ensures { Appends result (string_bytes out.old) (string_bytes out.new)
        (fields_text (audit_fields connector duration unit)) }
{
    push_fields(
        out,
        &[
            ("connectorId", Some(FieldValue::Whole(connector))),
            ("duration", Some(FieldValue::Whole(duration))),
            ("chargingRateUnit", Some(FieldValue::UnitName(unit))),
        ],
    )
}

/// Appends the fields of RemoteStartTransaction.req (OCPP 1.6, chapter 6) to the payload of a call
/// that the central system sends to a charge point.
fn push_remote_start(
    out: &mut String,
    connector: u32,
    id_tag: &IdTag,
    profile: &Option<Profile>,
) -> Result<(), AllocError>
    ensures { Appends result (string_bytes out.old) (string_bytes out.new)
        (fields_text (remote_start_fields connector id_tag.now profile.now)) }
{
    push_fields(out, &[("connectorId", Some(FieldValue::Whole(connector)))])?;
    out.push_str(r#","idTag":"#)?;
    // Unlike the other texts of a call, an idTag may have characters to escape.
    push_string(out, id_tag.as_str())?;
    push_profile_field(out, profile)?;
    Ok(())
}

/// Appends a comma and the chargingProfile field to the payload of a RemoteStartTransaction call to
/// a charge point, if the call has a profile.
#[tactic(auto, unfolding(crate::specs::ByCases::ObjectText::later_fields_text))]
fn push_profile_field(out: &mut String, profile: &Option<Profile>) -> Result<(), AllocError>
    ensures { Appends result (string_bytes out.old) (string_bytes out.new)
        (later_fields_text ((codes "chargingProfile", option_map profile_text profile.now) ∷ [])) }
{
    if let Some(profile) = profile {
        out.push_str(r#","chargingProfile":"#)?;
        push_profile(out, profile)?;
    }
    Ok(())
}

/// Appends a profile (chapter 7, ChargingProfile).
pub fn push_profile(out: &mut String, profile: &Profile) -> Result<(), AllocError>
    ensures { Appends result (string_bytes out.old) (string_bytes out.new)
        (profile_text profile.now) }
{
    out.push_str("{")?;
    push_profile_scalars(out, profile)?;
    out.push_str(r#","chargingSchedule":"#)?;
    push_schedule(out, &profile.schedule)?;
    out.push_str("}")?;
    Ok(())
}

/// Appends the fields before chargingSchedule to the JSON text of a ChargingProfile (OCPP 1.6,
/// chapter 7): for calls to a charge point, the JSON of `show`, and the profiles that `call --undo`
/// installs again.
fn push_profile_scalars(out: &mut String, profile: &Profile) -> Result<(), AllocError>
    ensures { Appends result (string_bytes out.old) (string_bytes out.new)
        (fields_text (own_fields profile.now)) }
{
    push_fields(
        out,
        &[
            ("chargingProfileId", profile_id(profile)),
            ("transactionId", signed(profile.transaction)),
            ("stackLevel", Some(FieldValue::Whole(profile.stack_level))),
            (
                "chargingProfilePurpose",
                Some(FieldValue::PurposeName(profile.purpose)),
            ),
            (
                "chargingProfileKind",
                Some(FieldValue::KindName(profile.kind)),
            ),
            ("recurrencyKind", recurrency(profile.kind)),
            ("validFrom", time(profile.valid_from)),
            ("validTo", time(profile.valid_to)),
        ],
    )
}

/// Returns the chargingProfileId, as a field of the JSON text of a ChargingProfile, such as that in
/// a call to a charge point.
// A function of its own: its contract says that the number keeps its sign.
fn profile_id(profile: &Profile) -> Option<FieldValue>
    ensures { option_map value_text result ≡ Some (signed_decimal profile.now.id) }
{
    Some(FieldValue::Signed(profile.id))
}

/// Appends the chargingSchedule to the JSON text of a ChargingProfile (OCPP 1.6, chapter 7,
/// ChargingSchedule), such as that in a call to a charge point.
fn push_schedule(out: &mut String, schedule: &Schedule) -> Result<(), AllocError>
    ensures { Appends result (string_bytes out.old) (string_bytes out.new)
        (schedule_text schedule.now) }
{
    out.push_str("{")?;
    push_fields(
        out,
        &[
            ("duration", whole(schedule.duration)),
            ("startSchedule", time(schedule.start)),
            (
                "chargingRateUnit",
                Some(FieldValue::UnitName(schedule.unit)),
            ),
        ],
    )?;
    out.push_str(r#","chargingSchedulePeriod":"#)?;
    push_list(out, schedule.periods.as_slice())?;
    push_later_fields(
        out,
        &[("minChargingRate", tenths(schedule.min_charging_rate))],
    )?;
    out.push_str("}")?;
    Ok(())
}

impl ListItem for Period {
    ghost text = { period_text };

    fn push_text(&self, out: &mut String) -> Result<(), AllocError> {
        push_period(out, self)
    }
}

/// Appends a period to the JSON text of a ChargingProfile's chargingSchedule (OCPP 1.6, chapter 7,
/// ChargingSchedulePeriod), such as that in a call to a charge point.
fn push_period(out: &mut String, period: &Period) -> Result<(), AllocError>
    ensures { Appends result (string_bytes out.old) (string_bytes out.new)
        (period_text period.now) }
{
    push_object(
        out,
        &[
            ("startPeriod", Some(FieldValue::Whole(period.start))),
            ("limit", Some(FieldValue::Tenths(period.limit))),
            ("numberPhases", whole(period.number_phases)),
        ],
    )?;
    Ok(())
}

// ---- the subject of a call

/// Appends the subject of a call, in words: `TxProfile 7 at connector 1`, the criteria of a clear,
/// `connector 1 for 60 s` for an audit, or `idTag T1 at connector 1` for a remote start.
pub fn push_subject(out: &mut String, body: &CallBody) -> Result<(), AllocError>
    ensures { Appends result (string_bytes out.old) (string_bytes out.new) (subject_text body.now) }
{
    match body {
        CallBody::Clear(criteria) => push_criteria(out, criteria),
        CallBody::Set { connector, profile } => push_profile_at(out, *connector, profile),
        CallBody::Audit {
            connector,
            duration,
            ..
        } => push_audit_words(out, *connector, *duration),
        CallBody::RemoteStart {
            connector,
            id_tag,
            profile,
        } => push_remote_start_words(out, *connector, id_tag, profile),
    }
}

/// A given criterion of a clear.
#[derive(Clone, Copy)]
enum Criterion {
    Id(i32),
    Connector(u32),
    Purpose(Purpose),
    StackLevel(u32),
}

/// Appends the given criteria of a ClearChargingProfile call to a charge point in words, with
/// commas between them, or `every profile` if there is none. For `show` and `check`.
fn push_criteria(out: &mut String, criteria: &Criteria) -> Result<(), AllocError>
    ensures { Appends result (string_bytes out.old) (string_bytes out.new)
        (criteria_text (criteria_given criteria.now)) }
{
    push_given(
        out,
        &[
            criteria.id.map(Criterion::Id),
            criteria.connector.map(Criterion::Connector),
            criteria.purpose.map(Criterion::Purpose),
            criteria.stack_level.map(Criterion::StackLevel),
        ],
    )
}

/// Appends in words those criteria of a ClearChargingProfile call to a charge point that are given,
/// or `every profile`. For `show` and `check`.
fn push_given(out: &mut String, criteria: &[Option<Criterion>]) -> Result<(), AllocError>
    ensures { Appends result (string_bytes out.old) (string_bytes out.new)
        (criteria_text criteria.now) }
{
    let mut some_written = false;
    for criterion in criteria {
        if let Some(criterion) = criterion {
            if some_written {
                out.push_str(", ")?;
            }
            push_criterion(out, criterion)?;
            some_written = true;
        }
    }
    // A clear without a criterion matches all profiles.
    if !some_written {
        out.push_str("every profile")?;
    }
    Ok(())
}

/// Appends one criterion of a ClearChargingProfile call to a charge point in words, such as
/// `connector 1`. For `show` and `check`.
fn push_criterion(out: &mut String, criterion: &Criterion) -> Result<(), AllocError>
    ensures { Appends result (string_bytes out.old) (string_bytes out.new)
        (criterion_words criterion.now) }
{
    match criterion {
        Criterion::Id(id) => push_words(out, "id ", FieldValue::Signed(*id)),
        Criterion::Connector(connector) => {
            push_words(out, "connector ", FieldValue::Whole(*connector))
        }
        Criterion::Purpose(purpose) => out.push_str(purpose_name(*purpose)),
        Criterion::StackLevel(level) => push_words(out, "stack level ", FieldValue::Whole(*level)),
    }
}

/// Appends words and a number, such as `stack level 3`, to the subject (in words) of a call to a
/// charge point. For `show` and `check`.
fn push_words(out: &mut String, words: &str, number: FieldValue) -> Result<(), AllocError>
    ensures { Appends result (string_bytes out.old) (string_bytes out.new)
        (words.now ++ value_text number) }
{
    out.push_str(words)?;
    push_value(out, number)
}

/// Appends the subject of a SetChargingProfile call to a charge point in words, as in `TxProfile 7
/// at connector 1`. For `show` and `check`.
fn push_profile_at(out: &mut String, connector: u32, profile: &Profile) -> Result<(), AllocError>
    ensures { Appends result (string_bytes out.old) (string_bytes out.new)
        (profile_words profile.now.purpose profile.now.id
        ++ (codes " at connector " ++ decimal connector)) }
{
    push_profile_words(out, profile)?;
    push_words(out, " at connector ", FieldValue::Whole(connector))
}

/// Appends a charging profile's purpose and id, as in `TxProfile 7`, to the subject (in words) of a
/// call to a charge point. For `show` and `check`.
fn push_profile_words(out: &mut String, profile: &Profile) -> Result<(), AllocError>
    ensures { Appends result (string_bytes out.old) (string_bytes out.new)
        (profile_words profile.now.purpose profile.now.id) }
{
    out.push_str(purpose_name(profile.purpose))?;
    push_words(out, " ", FieldValue::Signed(profile.id))
}

/// Appends the subject of a GetCompositeSchedule call to a charge point (an audit) in words, as in
/// `connector 1 for 60 s`. For `show` and `check`.
fn push_audit_words(out: &mut String, connector: u32, duration: u32) -> Result<(), AllocError>
    ensures { Appends result (string_bytes out.old) (string_bytes out.new)
        (audit_words connector duration) }
{
    push_words(out, "connector ", FieldValue::Whole(connector))?;
    push_words(out, " for ", FieldValue::Whole(duration))?;
    out.push_str(" s")
}

/// Appends the subject of a RemoteStartTransaction call to a charge point in words: its idTag,
/// connector, and profile if there is one. For `show` and `check`.
fn push_remote_start_words(
    out: &mut String,
    connector: u32,
    id_tag: &IdTag,
    profile: &Option<Profile>,
) -> Result<(), AllocError>
    ensures { Appends result (string_bytes out.old) (string_bytes out.new)
        (remote_start_words connector id_tag.now profile.now) }
{
    push_tag_words(out, connector, id_tag.as_str())?;
    push_profile_suffix(out, profile)?;
    Ok(())
}

/// Appends the idTag and the connector of a RemoteStartTransaction call to a charge point in words,
/// as in `idTag T1 at connector 1`. For `show` and `check`.
fn push_tag_words(out: &mut String, connector: u32, id_tag: &str) -> Result<(), AllocError>
    ensures { Appends result (string_bytes out.old) (string_bytes out.new)
        (tag_words connector id_tag.now) }
{
    out.push_str("idTag ")?;
    out.push_str(id_tag)?;
    push_words(out, " at connector ", FieldValue::Whole(connector))
}

/// Appends the profile of a RemoteStartTransaction call to a charge point, if it has one, in words,
/// as in ` with TxProfile 7`. For `show` and `check`.
fn push_profile_suffix(out: &mut String, profile: &Option<Profile>) -> Result<(), AllocError>
    ensures { Appends result (string_bytes out.old) (string_bytes out.new)
        (words_of_profile profile.now) }
{
    match profile {
        Some(profile) => {
            out.push_str(" with ")?;
            push_profile_words(out, profile)
        }
        None => Ok(()),
    }
}
