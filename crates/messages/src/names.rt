//! The names of OCPP's enumerations in payloads.

ghost use Rattle.std.specs.Prelude.{◌≡◌, option_map};
ghost use Rattle.messages.specs.Names.{kind_name, purpose_name, recurrency_name, recurrency_of, unit_text};

use profile::{Kind, Purpose, Recurrency, Unit};

/// Returns the chargingProfilePurpose (chapter 7, ChargingProfilePurposeType).
pub fn purpose_name(purpose: Purpose) -> &'static str
    ensures { result.now ≡ purpose_name purpose }
{
    match purpose {
        Purpose::ChargePointMaxProfile => "ChargePointMaxProfile",
        Purpose::TxDefaultProfile => "TxDefaultProfile",
        Purpose::TxProfile => "TxProfile",
    }
}

/// Returns the chargingProfileKind (chapter 7, ChargingProfileKindType).
pub fn kind_name(kind: Kind) -> &'static str
    ensures { result.now ≡ kind_name kind }
{
    match kind {
        Kind::Absolute => "Absolute",
        Kind::Recurring(_) => "Recurring",
        Kind::Relative => "Relative",
    }
}

/// Returns the recurrencyKind, which only a Recurring profile has (chapter 7, RecurrencyKindType).
pub fn recurrency_name(kind: Kind) -> Option<&'static str>
    ensures { option_map (λ name. name.now) result
        ≡ option_map recurrency_name (recurrency_of kind) }
{
    match kind {
        Kind::Recurring(recurrency) => Some(name_of_recurrency(recurrency)),
        Kind::Absolute | Kind::Relative => None,
    }
}

/// Returns the recurrencyKind of a profile as OCPP's messages write it (chapter 7,
/// RecurrencyKindType).
pub(crate) fn name_of_recurrency(recurrency: Recurrency) -> &'static str
    ensures { result.now ≡ recurrency_name recurrency }
{
    match recurrency {
        Recurrency::Daily => "Daily",
        Recurrency::Weekly => "Weekly",
    }
}

/// Returns the chargingRateUnit (chapter 7, ChargingRateUnitType).
pub fn unit_name(unit: Unit) -> &'static str
    ensures { result.now ≡ unit_text unit }
{
    match unit {
        Unit::A => "A",
        Unit::W => "W",
    }
}
